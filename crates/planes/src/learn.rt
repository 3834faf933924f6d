//! What is learnt from a conflict.
ghost use Rattle.std.specs.Prelude.{IfOk, OnSome};
ghost use Rattle.planes.specs.Slack.{IsActive};
ghost use Rattle.planes.specs.Trails.{level_of};

use crate::desk::{Desk, Tools};
use crate::plane::Plane;
use crate::round::round;
use crate::search::Met;
use crate::stock::Held;
use crate::trail::{Standing, Trail};
use rows::Term;
use std::alloc::{AllocError, Global};

/// Learns the row to which an analysis came, which isn't quiet at the end of a lower level.
///
/// # Errors
/// Only where memory runs out.
pub(crate) fn learn(alloc: Global, desk: &mut Desk) -> Result<Met, AllocError> {
    let Some(held) = jump(alloc, desk)? else {
        return Ok(Met::Nothing);
    };
    let slack = desk.tools.plane.slack;
    let row = desk.stock.add(held, slack)?;
    if desk.stock.force(&mut desk.trail, row)? {
        Ok(Met::Again(row))
    } else {
        Ok(Met::Learnt)
    }
}

/// Makes the row short to which an analysis came, and jumps back to the end of a level at which it isn't quiet. The answer
/// is the row, if there is such a level and its coefficients are of 32 bits.
///
/// # Errors
/// Only where memory runs out.
fn jump(alloc: Global, desk: &mut Desk) -> Result<Option<Held>, AllocError>
    ensures { IfOk result
        (λ found. OnSome found (IsActive desk.new.tools.plane desk.old.trail (level_of desk.new.trail))) }
{
    let Some(level) = round(&desk.trail, &mut desk.tools)? else {
        return Ok(None);
    };
    let tools = &mut desk.tools;
    let Some(held) = learnt_row(alloc, &desk.trail, &tools.plane, &mut tools.levels)? else {
        return Ok(None);
    };
    desk.back_to(level)?;
    Ok(Some(held))
}

/// Ends the steps by the row to which an analysis came, which is in conflict at level 0.
///
/// # Errors
/// Only where memory runs out.
pub(crate) fn end_by_plane(alloc: Global, desk: &mut Desk) -> Result<Met, AllocError> {
    let Some(held) = last_row(alloc, &desk.trail, &mut desk.tools)? else {
        return Ok(Met::Nothing);
    };
    let slack = desk.tools.plane.slack;
    let row = desk.stock.add(held, slack)?;
    end(desk, row)?;
    Ok(Met::Refuted)
}

/// Ends the steps with the empty clause: the row at a place is in conflict at level 0.
///
/// # Errors
/// Only where memory runs out.
pub(crate) fn end(desk: &mut Desk, row: usize) -> Result<(), AllocError> {
    let tools = &mut desk.tools;
    tools
        .units
        .plan_end(&desk.trail, &desk.stock, &mut tools.draft, row)
}

/// The row to which an analysis came, once its step is planned, if its coefficients are of 32 bits.
fn last_row(alloc: Global, trail: &Trail, tools: &mut Tools) -> Result<Option<Held>, AllocError> {
    tools.plane.divide(&mut tools.draft, 1)?;
    learnt_row(alloc, trail, &tools.plane, &mut tools.levels)
}

/// The row to which an analysis came, whose step is planned, if its coefficients are of 32 bits.
fn learnt_row(
    alloc: Global,
    trail: &Trail,
    plane: &Plane,
    levels: &mut Vec<usize>,
) -> Result<Option<Held>, AllocError> {
    let mut held = Held {
        terms: Vec::new(alloc),
        degree: plane.degree,
        number: plane.number(),
        levels: 1,
    };
    if take_terms(plane, &mut held.terms)? {
        held.levels = count_levels(trail, &held.terms, levels)?;
        Ok(Some(held))
    } else {
        Ok(None)
    }
}

/// Takes the terms of a row, and says whether their coefficients are of 32 bits.
fn take_terms(plane: &Plane, terms: &mut Vec<Term>) -> Result<bool, AllocError> {
    for k in 0..plane.counts.len() {
        if let Some((lit, count)) = plane.counts.term(k) {
            let Ok(coef) = u32::try_from(count) else {
                return Ok(false);
            };
            terms.push(Term { coef, lit })?;
        }
    }
    Ok(true)
}

/// From how many levels the false literals of a row come, and at least 1.
fn count_levels(
    trail: &Trail,
    terms: &[Term],
    levels: &mut Vec<usize>,
) -> Result<usize, AllocError> {
    levels.clear();
    for term in terms {
        if let Standing::False { level, .. } = trail.standing(term.lit) {
            levels.push(level)?;
        }
    }
    levels.sort_unstable();
    levels.dedup();
    Ok(levels.len().max(1))
}
