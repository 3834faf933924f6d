//! A floor that is searched.
ghost use Rattle.std.specs.Prelude.{◌≡◌, ◌≤◌, IfOk, IfSome, Some};
ghost use Rattle.bound_rows.specs.Bounded.{IsCounted};
ghost use Rattle.bound_rows.specs.BoundRows.{bound_rows, bound_vars};
ghost use Rattle.floors.specs.Floors.{IsFloor};
ghost use Rattle.refutation.specs.Writable.{HasShortLines};
ghost use Rattle.planes.specs.Refuted.{IsRefutation};

use crate::bytes::can_be_read;
use crate::floor::Floor;
use crate::plane_start::start_of;
use bound_rows::{BoundSystem, bound_system};
use break_counts::has_short_lines;
use league::League;
use planes::refute;
use refutation::Log;
use robin_watch::Watch;
use std::alloc::{AllocError, Global};

/// Searches for a log that proves that no schedule that a league accepts costs less than a bound, and learns at most so
/// many rows. `terms` is how many terms the league's bound rows have, as `bound_terms` of `bound_rows` counts them. None
/// where it finds no such log, or one whose text can't be written, or read: that it finds one isn't promised.
///
/// # Errors
/// Only where memory runs out.
pub fn plane_floor<W: Watch>(
    alloc: Global,
    league: &League,
    bound: u64,
    terms: u64,
    limit: u64,
    watch: &W,
) -> Result<Option<Floor>, AllocError>
    requires some { 1 ≤ bound }
    requires counted { IsCounted league.now terms }
    ensures { IfOk result (λ found. IfSome found (λ floor. IsFloor league.now floor × (floor.bound ≡ bound))) }
{
    let system = bound_system(alloc, league, bound - 1, terms)?;
    let found = readable(alloc, league, &system, limit, watch)?;
    Ok(floor_with(bound, found))
}

/// The floor that a log proves, if there is one whose text can be written.
fn floor_with(bound: u64, found: Option<Log>) -> Option<Floor>
    ensures { IfSome result (λ floor. (found ≡ Some floor.log) × HasShortLines floor.log × (floor.bound ≡ bound)) }
{
    let log = found?;
    if has_short_lines(&log) {
        Some(Floor { bound, log })
    } else {
        None
    }
}

/// A log that refutes bound rows, if a search finds one that is short enough to be read: first with the rows of venues, and
/// where the log is too long, without them.
fn readable<W: Watch>(
    alloc: Global,
    league: &League,
    system: &BoundSystem,
    limit: u64,
    watch: &W,
) -> Result<Option<Log>, AllocError>
    ensures { IfOk result (λ found. IfSome found (IsRefutation
        (bound_rows system.now.league system.now.bound) (bound_vars system.now.league))) }
{
    let first = searched(alloc, league, system, limit, true, watch)?;
    if !is_long(&first) {
        return Ok(first);
    }
    let second = searched(alloc, league, system, limit, false, watch)?;
    if is_long(&second) {
        return Ok(None);
    }
    Ok(second)
}

/// Whether a log is found whose text is too long to be read.
fn is_long(found: &Option<Log>) -> bool {
    match found {
        Some(log) => !can_be_read(log),
        None => false,
    }
}

/// A log that refutes bound rows, if a search finds one, which begins with the rows of venues or without them.
fn searched<W: Watch>(
    alloc: Global,
    league: &League,
    system: &BoundSystem,
    limit: u64,
    venues: bool,
    watch: &W,
) -> Result<Option<Log>, AllocError>
    ensures { IfOk result (λ found. IfSome found (IsRefutation
        (bound_rows system.now.league system.now.bound) (bound_vars system.now.league))) }
{
    let rows = system.rows();
    let start = start_of(alloc, league, rows.len() as u64, venues)?;
    refute(alloc, rows, system.vars(), start, limit, watch)
}
