//! The search.
use crate::cut::{Outcome, cut};
use crate::desk::Desk;
use crate::learn::{end, end_by_plane, learn};
use robin_watch::{News, Watch};
use rows::Value;
use std::alloc::{AllocError, Global};

/// The watch hears once of each so many rows that are learnt.
const TOLD_EACH: u64 = 64;

/// Once so many rows are learnt, half of them are dropped when the search begins again.
const MANY_LEARNT: usize = 4_000;

/// What comes of a conflict.
#[derive(Clone, Copy)]
pub(crate) enum Met {
    /// A row is learnt.
    Learnt,
    /// A row is learnt, and is in conflict at once: its place.
    Again(usize),
    /// The steps end with the empty clause.
    Refuted,
    /// The analysis comes to nothing.
    Nothing,
}

/// Searches until the planned steps end with the empty clause, and says whether they do. It learns at most so many rows.
///
/// # Errors
/// Only where memory runs out.
pub(crate) fn search<W: Watch>(
    alloc: Global,
    desk: &mut Desk,
    vars: u32,
    limit: u64,
    watch: &W,
) -> Result<bool, AllocError> {
    if begin(desk)? {
        return Ok(true);
    }
    let mut next = None;
    for learnt in 0..limit {
        if next.is_none() {
            next = next_conflict(desk, vars)?;
        }
        let Some(row) = next else {
            return Ok(false);
        };
        if is_over(learnt, limit, watch) {
            return Ok(false);
        }
        next = match meet(alloc, desk, row)? {
            Met::Learnt => None,
            Met::Again(row) => Some(row),
            Met::Refuted => return Ok(true),
            Met::Nothing => return Ok(false),
        };
    }
    Ok(false)
}

/// Whether the watch ends the search behind so many rows, of which it hears at times.
fn is_over<W: Watch>(learnt: u64, limit: u64, watch: &W) -> bool {
    if learnt % TOLD_EACH == 0 {
        watch.tell(News::Search {
            learnt,
            limit: Some(limit),
        });
    }
    watch.is_over_now(learnt)
}

/// Makes all true that single rows force, and says whether one of them is in conflict, which ends the steps.
fn begin(desk: &mut Desk) -> Result<bool, AllocError> {
    for row in 0..desk.stock.len() {
        if desk.stock.force(&mut desk.trail, row)? {
            end(desk, row)?;
            return Ok(true);
        }
    }
    Ok(false)
}

/// Decides until a row is in conflict. The answer is its place; none where all variables have values.
fn next_conflict(desk: &mut Desk, vars: u32) -> Result<Option<usize>, AllocError> {
    if desk.restarts.is_due() {
        desk.back_to(0)?;
        if desk.stock.learnt > MANY_LEARNT {
            desk.stock.drop_half(&desk.trail)?;
        }
    }
    for _decision in 0..u64::from(vars).saturating_add(1) {
        let conflict = desk.settle(vars)?;
        if desk.trail.level() == 0 {
            desk.plan_units()?;
        }
        if conflict.is_some() || !decide(desk, vars)? {
            return Ok(conflict);
        }
    }
    Ok(None)
}

/// Decides the most active free variable, and says whether there is one.
fn decide(desk: &mut Desk, vars: u32) -> Result<bool, AllocError> {
    for _taken in 0..vars {
        let Some(lit) = desk.order.take() else {
            return Ok(false);
        };
        if let Value::Free = desk.trail.value(lit) {
            desk.trail.decide(lit)?;
            return Ok(true);
        }
    }
    Ok(false)
}

/// What comes of the row in conflict at a place.
fn meet(alloc: Global, desk: &mut Desk, row: usize) -> Result<Met, AllocError> {
    if desk.trail.level() == 0 {
        end(desk, row)?;
        return Ok(Met::Refuted);
    }
    desk.order.age();
    let met = analyze(alloc, desk, row)?;
    if desk.tools.draft.lacks_row {
        Ok(Met::Nothing)
    } else {
        Ok(met)
    }
}

/// What comes of the row in conflict at a place above level 0.
fn analyze(alloc: Global, desk: &mut Desk, row: usize) -> Result<Met, AllocError> {
    let outcome = cut(
        &desk.stock,
        &desk.trail,
        &mut desk.order,
        &mut desk.tools,
        row,
    )?;
    match outcome {
        Outcome::Active => learn(alloc, desk),
        Outcome::Refuted => end_by_plane(alloc, desk),
        Outcome::Nothing => Ok(Met::Nothing),
    }
}
