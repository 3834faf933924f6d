//! The answers of `prove` where it is asked for a floor.
ghost use Rattle.std.specs.Prelude.{◌≡◌, [], Ok, IfOk};
ghost use Rattle.std.specs.List.{All};
ghost use Rattle.answers.specs.SeenReply.{answer_of};
ghost use Rattle.answers.specs.declared.status.Status.TheVariants as statuses;
ghost use Rattle.refutation.specs.Steps.{NamesRows};
ghost use Rattle.refutation.specs.Writable.{HasShortLines};
ghost use Rattle.bound_rows.specs.Bounded.{IsCounted};
ghost use Rattle.bounds.specs.Certificates.{certificate_of};
ghost use Rattle.bounds.specs.Certificates as certificates;
ghost use Rattle.command_prove.specs.Floor.{reached_text};
ghost use Rattle.command_prove.specs.Told.{CanBeWritten, TellsFloor, TellsMissed};

use crate::prove_replies::{better_reply, floor_text, spent_reply};
use answers::{Reply, Status};
use bounds::{Counted, Proved};
use floors::best_floor;
use league::League;
use refutation::Log;
use robin_watch::Watch;
use std::alloc::{AllocError, Global};

/// What is sought beside a schedule.
#[derive(Clone, Copy, Debug)]
pub(crate) struct Sought {
    /// What is counted of the schedule and its league.
    pub(crate) counted: Counted,
    /// The number that no schedule is to cost less than.
    pub(crate) bound: u64,
}

/// A schedule's objective, and a certificate of a floor.
fn reached_reply(alloc: Global, cost: u128, bound: u64, log: &Log) -> Result<Reply, AllocError>
    requires { All NamesRows log.now }
    ensures status { IfOk result (λ reply. (answer_of reply).status ≡ statuses.Yes) }
    ensures text { IfOk result (λ reply. (answer_of reply).text ≡ reached_text cost bound log.now) }

    // What is written of the floor reads back, if none of its lines is too long.
    ensures reads_back { IfOk result (λ _. HasShortLines log.now → (bound ≡ 0 → log.now ≡ [])
        → certificate_of (certificates.certificate_text bound log.now) ≡ Ok (record { bound = bound; log = log.now })) }
{
    let text = floor_text(alloc, cost, bound, log)?;
    Ok(Reply {
        status: Status::Yes,
        text,
    })
}

/// What is written where the budget is spent: the league's floor is found. Where it is no less than the number that is
/// sought, its certificate is written behind the schedule's objective, and else the log too.
fn missed_reply<W: Watch>(
    alloc: Global,
    league: &League,
    sought: Sought,
    log: &Log,
    conflicts: Option<u64>,
    watch: &W,
) -> Result<Reply, AllocError>
    requires counted { IsCounted league.now sought.counted.terms }
    requires log { All NamesRows log.now }
    ensures { IfOk result (λ reply. TellsMissed league.now sought.counted.cost sought.bound log.now (answer_of reply)) }
{
    let bound = u128::from(sought.bound);
    let floor = best_floor(alloc, league, bound, sought.counted.terms, conflicts, watch)?;
    if sought.bound <= floor.bound {
        return reached_reply(alloc, sought.counted.cost, floor.bound, &floor.log);
    }
    spent_reply(alloc, sought.counted.cost, &floor, log)
}

/// What is shown of a floor that is sought.
pub(crate) fn floor_reply<W: Watch>(
    alloc: Global,
    league: &League,
    sought: Sought,
    proved: &Proved,
    conflicts: Option<u64>,
    watch: &W,
) -> Result<Reply, AllocError>
    requires counted { IsCounted league.now sought.counted.terms }
    requires written { CanBeWritten proved.now }
    ensures { IfOk result (λ reply.
        TellsFloor league.now sought.counted.cost sought.bound proved.now (answer_of reply)) }
{
    match proved {
        Proved::Least { objective, log } => {
            reached_reply(alloc, sought.counted.cost, *objective, log)
        }
        Proved::Better {
            schedule,
            objective,
        } => better_reply(alloc, schedule, *objective),
        Proved::Spent { log } => missed_reply(alloc, league, sought, log, conflicts, watch),
    }
}
