//! The row at the end of an analysis, made short: what is decided at level 0 goes, and it is divided by the greatest
//! coefficient that it forces with, so that mostly a clause or a row that counts is left.
ghost use Rattle.std.specs.Prelude.{◌<◌, IfOk, IfSome};
ghost use Rattle.planes.specs.Slack.{IsActive};
ghost use Rattle.planes.specs.Trails.{level_of};

use crate::cut::{weaken, weaken_open};
use crate::desk::Tools;
use crate::numbers::rest;
use crate::trail::{Moment, Standing, Trail};
use rows::Lit;
use std::alloc::AllocError;

/// Makes the row short, and plans its step. The answer is the lowest level at whose end it isn't quiet, if there is one
/// below the present level.
///
/// # Errors
/// Only where memory runs out.
pub(crate) fn round(trail: &Trail, tools: &mut Tools) -> Result<Option<usize>, AllocError>
    ensures active { IfOk result (λ found. IfSome found (IsActive tools.new.plane trail.now)) }
    ensures below { IfOk result (λ found. IfSome found (λ level. level < level_of trail.now)) }
{
    drop_decided(trail, tools)?;
    let Some(level) = first_active(trail, tools) else {
        return Ok(None);
    };
    let divisor = forcing_coef(tools);
    if divisor > 1 {
        weaken_all(trail, tools, level, divisor)?;
    }
    let common = tools.plane.common_divisor(divisor);
    tools
        .plane
        .divide(&mut tools.draft, divisor.saturating_mul(common))?;
    if tools.plane.degree == 1 && tools.plane.counts.greatest() > 1 {
        tools.plane.make_clause(&mut tools.draft, &mut tools.lits)?;
    }
    Ok(first_active(trail, tools))
}

/// Takes the literals of level 0 out.
fn drop_decided(trail: &Trail, tools: &mut Tools) -> Result<(), AllocError> {
    for k in 0..tools.plane.counts.len() {
        if let Some((lit, coef)) = tools.plane.counts.term(k) {
            drop_literal(trail, tools, lit, coef)?;
        }
    }
    Ok(())
}

/// Takes a literal that counts so much out if it is of level 0.
fn drop_literal(trail: &Trail, tools: &mut Tools, lit: Lit, coef: i64) -> Result<(), AllocError> {
    match trail.standing(lit) {
        Standing::True { level: 0 } => weaken(tools, lit, coef),
        Standing::False { level: 0, .. } => tools.plane.take_out(lit, tools.units.number(lit)),
        _ => Ok(()),
    }
}

/// The lowest level at whose end the row isn't quiet, if there is one below the present level.
fn first_active(trail: &Trail, tools: &mut Tools) -> Option<usize>
    ensures active { IfSome result (IsActive tools.new.plane trail.now) }
    ensures below { IfSome result (λ level. level < level_of trail.now) }
{
    for level in 0..trail.level() {
        if tools.plane.is_active(trail, level) {
            return Some(level);
        }
    }
    None
}

/// The greatest coefficient of a literal that is free at the end of the level at which the row was looked at last, if it is
/// above the slack there, or else 1.
fn forcing_coef(tools: &Tools) -> i64 {
    let plane = &tools.plane;
    if plane.most > plane.slack {
        plane.most.max(1)
    } else {
        1
    }
}

/// Weakens the row so that it can be divided: each literal that isn't false at the end of a level to a multiple of the
/// divisor, and false ones while the divided degree stays.
fn weaken_all(
    trail: &Trail,
    tools: &mut Tools,
    level: usize,
    divisor: i64,
) -> Result<(), AllocError> {
    weaken_open(trail, tools, Moment::EndOf { level }, divisor)?;
    weaken_spare(tools, divisor)
}

/// Weakens literals of the row to multiples of the divisor while the divided degree stays.
fn weaken_spare(tools: &mut Tools, divisor: i64) -> Result<(), AllocError> {
    for k in 0..tools.plane.counts.len() {
        if let Some((lit, coef)) = tools.plane.counts.term(k) {
            let less = rest(coef, divisor);
            if less <= rest(tools.plane.degree.saturating_sub(1), divisor) {
                weaken(tools, lit, less)?;
            }
        }
    }
    Ok(())
}
