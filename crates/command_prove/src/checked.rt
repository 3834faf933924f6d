//! Logs over bound rows.
ghost use Rattle.std.specs.Prelude.{◌≡◌, ◌-◌, ◌≤◌, IfOk, IsErrOf, OnOk, Ok};
ghost use Rattle.bound_rows.specs.BoundRows.{bound_rows, bound_vars};
ghost use Rattle.bound_rows.specs.Faithful.{IsLowerBound};
ghost use Rattle.bound_rows.specs.Bounded.{IsCounted};
ghost use Rattle.refutation.specs.Verdict.{verdict_of};
ghost use Rattle.refutation_check.specs.Room.{KeepsRoom, PassesRoom};

use bound_rows::bound_system;
use league::League;
use refutation::{Log, Verdict};
use refutation_check::{StepsFault, check_within};
use std::alloc::Global;

/// The verdict on a log over the bound rows of one less than the bound. `terms` is how many terms the league's bound
/// rows have, as `bound_terms` of `bound_rows` counts them.
///
/// If the log is accepted, every schedule that the league accepts has an objective of at least the bound.
///
/// # Errors
/// `Full` exactly where some first steps take more bytes than the limit, unless `Mem`, where memory runs out.
pub fn check_bound(
    alloc: Global,
    league: &League,
    bound: u64,
    log: &Log,
    terms: u64,
    limit: Option<u128>,
) -> Result<Verdict, StepsFault>
    requires some { 1 ≤ bound }
    requires counted { IsCounted league.now terms }
    ensures verdict { IfOk result (λ verdict.
        verdict ≡ verdict_of (bound_rows league.now (bound - 1)) (bound_vars league.now) log.now) }
    ensures holds { result ≡ Ok Verdict.Accepted → IsLowerBound league.now bound }
    ensures within { OnOk result
        (KeepsRoom (bound_rows league.now (bound - 1)) (bound_vars league.now) limit log.now) }
    ensures full { IsErrOf result StepsFault.Full →
        PassesRoom (bound_rows league.now (bound - 1)) (bound_vars league.now) limit log.now }
{
    let system = bound_system(alloc, league, bound - 1, terms)?;
    check_within(alloc, system.rows(), system.vars(), log, limit)
}
