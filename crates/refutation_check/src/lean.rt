//! A whole log, judged while the rows of steps that no later step names are let go.
ghost use Rattle.std.specs.Prelude.{◌≡◌, ◌<◌, ◌+◌, List, drop, length, true, IfSome, IsErrOf, OnOk};
ghost use Rattle.std.specs.List.{fold};
ghost use Rattle.refutation.specs.Steps.{Step};
ghost use Rattle.refutation_check.specs.Forgotten.{AreLast, IsLean, NoneNames, PassesSome};
ghost use Rattle.refutation_check.specs.Judged.{Judged, after_step, verdict_so_far};
ghost use Rattle.refutation_check.specs.Room.{has_room};

use crate::checker::Checker;
use crate::fault::StepsFault;
use crate::last::{LastNames, name_at, name_count};
use crate::whole::give_step;
use refutation::Log;
use std::alloc::AllocError;

/// Gives a checker all steps of a log, in order, unless they take more bytes than there is room for. The rows that no
/// later step names are let go, but for that of the last step; they count as if they were kept.
///
/// # Errors
/// `Full` exactly where they take more, unless `Mem`, where memory runs out.
pub(crate) fn judge_all(
    checker: &mut Checker<'_>,
    log: &Log,
    names: &LastNames,
    room: Option<u128>,
) -> Result<(), StepsFault>
    requires before { names.now.before ≡ length checker.old.rows }
    requires last { AreLast names.now.before log.now names.now.last.items }
    ensures verdict { OnOk result (verdict_so_far checker.new ≡ verdict_so_far (fold after_step checker.old log.now)) }
    ensures within { OnOk result (has_room room checker.old ≡ true
        → has_room room (fold after_step checker.old log.now) ≡ true) }
    ensures full { IsErrOf result StepsFault.Full → PassesSome room checker.old log.now }
{
    let mut freed = 0;
    for k in 0..log.len() {
        give_step(checker, log, k)?;
        if !checker.has_room_beside(freed, room) {
            return Err(StepsFault::Full);
        }
        let_go(checker, &mut freed, names, log, k)?;
    }
    Ok(())
}

/// Lets the rows go of which the step at a place is the last that names them, and that of the step before, if no step
/// behind it names it.
///
/// # Errors
/// Only where the rows that were let go took more bytes than can be counted.
fn let_go(
    checker: &mut Checker<'_>,
    freed: &mut u128,
    names: &LastNames,
    log: &Log,
    k: usize,
) -> Result<(), AllocError>
    requires before { names.now.before ≡ length checker.old.rows }
    requires last { AreLast names.now.before log.now names.now.last.items }
    requires there { k < length log.now }
    ensures rows { OnOk result (checker.new.rows ≡ checker.old.rows) }
    ensures lean { OnOk result ((full : Judged) → IsLean full checker.old freed.old (drop (k + 1) log.now)
        → IsLean full checker.new freed.new (drop (k + 1) log.now)) }
{
    for place in 0..name_count(log, k) {
        let_row_go(checker, freed, names.over(name_at(log, k, place), k))?;
    }
    if k == 0 {
        return Ok(());
    }
    let_row_go(checker, freed, names.over_place(k - 1, k))
}

/// Lets the row of the step at a place go, if there is one.
///
/// # Errors
/// Only where the rows that were let go took more bytes than can be counted.
fn let_row_go(
    checker: &mut Checker<'_>,
    freed: &mut u128,
    over: Option<usize>,
) -> Result<(), AllocError>
    ensures rows { OnOk result (checker.new.rows ≡ checker.old.rows) }
    ensures lean { OnOk result ((full : Judged) → (later : List Step)
        → IfSome over (λ place. NoneNames (length checker.old.rows + place + 1) later)
        → IsLean full checker.old freed.old later → IsLean full checker.new freed.new later) }
{
    let Some(place) = over else {
        return Ok(());
    };
    let Some(more) = freed.checked_add(checker.forget(place)) else {
        return Err(AllocError);
    };
    *freed = more;
    Ok(())
}
