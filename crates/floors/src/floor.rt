//! The floor of a league.
ghost use Rattle.std.specs.Prelude.{◌≡◌, ◌+◌, ◌-◌, ◌≤◌, IfOk, IfSome, Ok};
ghost use Rattle.league.specs.Instance.{Instance};
ghost use Rattle.refutation.specs.Verdict.{verdict_of};
ghost use Rattle.bound_rows.specs.BoundRows.{bound_rows, bound_vars};
ghost use Rattle.bound_rows.specs.Bounded.{IsCounted};
ghost use Rattle.bound_rows.specs.Faithful.{IsLowerBound};
ghost use Rattle.floors.specs.Floors.{IsFloor};

use crate::laws::least_cost;
use crate::log::log_of;
use bound_rows::{BoundSystem, bound_system};
use break_counts::has_short_lines;
use league::League;
use refutation::{Log, Verdict};
use refutation_check::check;
use std::alloc::{AllocError, Global};

/// A number below which no schedule that a league accepts costs, and the log that proves it over the bound rows of one
/// less. At 0 nothing is to be proved, and the log is empty.
#[derive(Drop)]
pub struct Floor {
    /// In units of cost, from 0.
    pub bound: u64,
    pub log: Log,
}

/// The floor of a league that laws give, by counting alone. How large it is isn't promised. `terms` is how many terms
/// the league's bound rows have, as `bound_terms` of `bound_rows` counts them.
///
/// The log is checked before it is given; were it not accepted, the floor would be 0.
///
/// # Errors
/// Only where memory runs out.
pub fn floor_of(alloc: Global, league: &League, terms: u64) -> Result<Floor, AllocError>
    requires { IsCounted league.now terms }
    ensures { IfOk result (IsFloor league.now) }
{
    let bound = least_cost(alloc, league)?;
    if bound == 0 {
        return Ok(no_floor(alloc));
    }
    let found = proved_floor(alloc, league, bound, terms)?;
    match found {
        Some(floor) => Ok(floor),
        None => Ok(no_floor(alloc)),
    }
}

/// The floor of any league.
fn no_floor(alloc: Global) -> Floor
    ensures { (league : Instance) → IsFloor league result }
{
    Floor {
        bound: 0,
        log: Log::new(alloc),
    }
}

/// A floor, if the log that laws give for it is accepted and its text can be written.
///
/// # Errors
/// Only where memory runs out.
fn proved_floor(
    alloc: Global,
    league: &League,
    bound: u64,
    terms: u64,
) -> Result<Option<Floor>, AllocError>
    requires some { 1 ≤ bound }
    requires counted { IsCounted league.now terms }
    ensures { IfOk result (λ found. IfSome found (IsFloor league.now)) }
{
    let system = bound_system(alloc, league, bound - 1, terms)?;
    floor_over(alloc, league, &system, bound)
}

/// This floor over its bound rows, if the log that laws give is accepted and its text can be written.
///
/// # Errors
/// Only where memory runs out.
fn floor_over(
    alloc: Global,
    league: &League,
    system: &BoundSystem,
    bound: u64,
) -> Result<Option<Floor>, AllocError>
    requires some { 1 ≤ bound }
    requires system { system.now ≡ record { league = league.now; bound = bound - 1 } }
    ensures { IfOk result (λ found. IfSome found (IsFloor league.now)) }
{
    let log = log_of(alloc, league, system.rows())?;
    let verdict = verdict_on(alloc, system, &log)?;
    if verdict == Verdict::Accepted && log.names_rows() && has_short_lines(&log) {
        Ok(Some(Floor { bound, log }))
    } else {
        Ok(None)
    }
}

/// The verdict on a log over bound rows. If it is accepted, each schedule that the league accepts costs more than the
/// bound.
fn verdict_on(alloc: Global, system: &BoundSystem, log: &Log) -> Result<Verdict, AllocError>
    ensures verdict { IfOk result (λ verdict. verdict
        ≡ verdict_of (bound_rows system.now.league system.now.bound) (bound_vars system.now.league) log.now) }
    ensures least { result ≡ Ok Verdict.Accepted → IsLowerBound system.now.league (system.now.bound + 1) }
{
    let verdict = check(alloc, system.rows(), system.vars(), log)?;
    Ok(verdict)
}
