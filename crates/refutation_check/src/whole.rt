//! Whole logs, checked.
ghost use Rattle.std.specs.Prelude.{◌≡◌, ◌<◌, length, false, true, IfOk, IfSome, IsErrOf, OnErr, OnOk, Ok};
ghost use Rattle.std.specs.Prelude.{slice_get};
ghost use Rattle.std.specs.List.{fold};
ghost use Rattle.refutation.specs.Verdict.{verdict_of};
ghost use Rattle.refutation_check.specs.Judged.{after_step};
ghost use Rattle.refutation_check.specs.Room.{has_room, KeepsRoom, PassesRoom, StopsInTime};
ghost use Rattle.refutation_check.specs.Soundness.{HaveNoSolution};
ghost use Rattle.refutation_check.specs.Within.{AreWithin};

use crate::checker::Checker;
use crate::fault::StepsFault;
use crate::last::LastNames;
use crate::lean::judge_all;
use refutation::{Log, StepKind, Verdict};
use rows::RowStore;
use std::alloc::{AllocError, Global};

/// The verdict on a log over rows of variables up to `vars`. Where it is accepted, no values meet all rows.
///
/// # Errors
/// Only where memory runs out.
pub fn check(alloc: Global, rows: &RowStore, vars: u32, log: &Log) -> Result<Verdict, AllocError>
    requires { AreWithin vars rows.now }
    ensures verdict { IfOk result (λ verdict. verdict ≡ verdict_of rows.now vars log.now) }
    ensures refuted { result ≡ Ok Verdict.Accepted → HaveNoSolution rows.now }
{
    match check_within(alloc, rows, vars, log, None) {
        Ok(verdict) => Ok(verdict),
        Err(_) => Err(AllocError),
    }
}

/// The verdict of `check` on a log, if its steps take no more bytes than there is room for, as `has_room` of a checker counts them.
///
/// # Errors
/// `Full` exactly where some first steps take more, unless `Mem`, where memory runs out.
pub fn check_within(
    alloc: Global,
    rows: &RowStore,
    vars: u32,
    log: &Log,
    room: Option<u128>,
) -> Result<Verdict, StepsFault>
    requires { AreWithin vars rows.now }
    ensures verdict { IfOk result (λ verdict. verdict ≡ verdict_of rows.now vars log.now) }
    ensures refuted { result ≡ Ok Verdict.Accepted → HaveNoSolution rows.now }
    ensures within { OnOk result (KeepsRoom rows.now vars room log.now) }
    ensures full { IsErrOf result StepsFault.Full → PassesRoom rows.now vars room log.now }
{
    let mut checker = Checker::new(alloc, rows, vars)?;
    let names = LastNames::of(alloc, rows.len(), log)?;
    judge_all(&mut checker, log, &names, room)?;
    Ok(checker.verdict())
}

/// Gives a checker all steps of a log, in order, unless its steps take more bytes than there is room for.
///
/// # Errors
/// `Full` exactly where they take more, unless `Mem`, where memory runs out. Then the checker has judged some first of
/// these steps, and none behind the first with which they take more.
pub fn give_all(checker: &mut Checker<'_>, log: &Log, room: Option<u128>) -> Result<(), StepsFault>
    ensures ok { OnOk result (checker.new ≡ fold after_step checker.old log.now) }
    ensures within { OnOk result (has_room room checker.old ≡ true → has_room room checker.new ≡ true) }
    ensures full { IsErrOf result StepsFault.Full → has_room room checker.new ≡ false }
    ensures err { OnErr result (StopsInTime room checker.old log.now checker.new) }
{
    for k in 0..log.len() {
        give_step(checker, log, k)?;
        if !checker.has_room(room) {
            return Err(StepsFault::Full);
        }
    }
    Ok(())
}

/// Gives a checker the step at a place.
pub(crate) fn give_step(checker: &mut Checker<'_>, log: &Log, k: usize) -> Result<(), AllocError>
    requires { k < length log.now }
    ensures ok { OnOk result (IfSome (slice_get log.now k) (λ step. checker.new ≡ after_step checker.old step)) }
    ensures err { OnErr result (checker.new ≡ checker.old) }
{
    match log.kind(k) {
        StepKind::Clause => checker.step(log.clause(k), log.hints(k)),
        StepKind::Linear => checker.linear(log.parts(k), log.divisor(k)),
    }
}
