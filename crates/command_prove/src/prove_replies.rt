//! The answers of `prove`.
ghost use Rattle.std.specs.Prelude.{◌≡◌, [], Some, Ok, IfOk};
ghost use Rattle.std.specs.List.{All};
ghost use Rattle.robinx.specs.Texts as solutions;
ghost use Rattle.answers.specs.SeenReply.{answer_of};
ghost use Rattle.answers.specs.declared.status.Status.TheVariants as statuses;
ghost use Rattle.refutation.specs.Steps.{NamesRows};
ghost use Rattle.refutation.specs.Writable.{HasShortLines};
ghost use Rattle.bound_rows.specs.Bounded.{IsCounted};
ghost use Rattle.bounds.specs.Certificates.{certificate_of};
ghost use Rattle.bounds.specs.Certificates as certificates;
ghost use Rattle.refutation.specs.Logs.{log_of};
ghost use Rattle.refutation.specs.Texts as logs;
ghost use Rattle.command_prove.specs.Floor.{reached_text};
ghost use Rattle.command_prove.specs.Prove.{spent_text};
ghost use Rattle.command_prove.specs.Told.{CanBeWritten, Tells, TellsFloored, TellsLeast};

use answers::{Reply, Status};
use bounds::{Counted, Proved, certificate_text};
use floors::{Floor, best_floor};
use league::{League, Schedule};
use refutation::{Log, log_text};
use robin_watch::Watch;
use robinx::solution_text;
use std::alloc::{AllocError, Global};

/// A certificate of the least objective.
fn least_reply(alloc: Global, objective: u64, log: &Log) -> Result<Reply, AllocError>
    requires { All NamesRows log.now }
    ensures { IfOk result (λ reply. TellsLeast objective log.now (answer_of reply)) }
{
    let text = certificate_text(alloc, objective, log)?;
    Ok(Reply {
        status: Status::Yes,
        text,
    })
}

/// A better schedule, with its objective.
pub(crate) fn better_reply(
    alloc: Global,
    schedule: &Schedule,
    objective: u64,
) -> Result<Reply, AllocError>
    ensures status { IfOk result (λ reply. (answer_of reply).status ≡ statuses.Better) }
    ensures text { IfOk result (λ reply. (answer_of reply).text
        ≡ solutions.solution_text schedule.now (Some (0, objective))) }
{
    let text = solution_text(alloc, schedule, Some((0, u128::from(objective))))?;
    Ok(Reply {
        status: Status::Better,
        text,
    })
}

/// A schedule's objective, and a certificate of a floor.
pub(crate) fn floor_text(
    alloc: Global,
    cost: u128,
    bound: u64,
    log: &Log,
) -> Result<Vec<u8>, AllocError>
    requires { All NamesRows log.now }
    ensures text { IfOk result (λ text. text.items ≡ reached_text cost bound log.now) }

    // What is written of the floor reads back, if none of its lines is too long.
    ensures reads_back { IfOk result (λ _. HasShortLines log.now → (bound ≡ 0 → log.now ≡ [])
        → certificate_of (certificates.certificate_text bound log.now) ≡ Ok (record { bound = bound; log = log.now })) }
{
    let line = format!(in alloc; "objective {cost}\n")?;
    let certificate = certificate_text(alloc, bound, log)?;
    let mut text = line.into_bytes();
    text.extend_from_slice(&certificate)?;
    Ok(text)
}

/// A schedule's objective, a certificate of a floor, and a log that is spent.
pub(crate) fn spent_reply(
    alloc: Global,
    cost: u128,
    floor: &Floor,
    log: &Log,
) -> Result<Reply, AllocError>
    requires named { All NamesRows floor.now.log }
    requires short { HasShortLines floor.now.log }
    requires nothing { floor.now.bound ≡ 0 → floor.now.log ≡ [] }
    requires log { All NamesRows log.now }
    ensures status { IfOk result (λ reply. (answer_of reply).status ≡ statuses.Spent) }
    ensures text { IfOk result (λ reply. (answer_of reply).text
        ≡ spent_text cost floor.now.bound floor.now.log log.now) }

    // What is written of the floor reads back, and of the log if none of its lines is too long.
    ensures floor_reads_back { IfOk result (λ _.
        certificate_of (certificates.certificate_text floor.now.bound floor.now.log)
        ≡ Ok (record { bound = floor.now.bound; log = floor.now.log })) }
    ensures reads_back { IfOk result (λ _. HasShortLines log.now → log_of (logs.log_text log.now) ≡ Ok log.now) }
{
    let mut text = floor_text(alloc, cost, floor.bound, &floor.log)?;
    text.extend_from_slice(&log_text(alloc, log)?)?;
    Ok(Reply {
        status: Status::Spent,
        text,
    })
}

/// What is written where the budget is spent: the league's floor is found. Its certificate is written alone if it shows
/// that the schedule's objective is the least, and else between this and the log.
fn floored_reply<W: Watch>(
    alloc: Global,
    league: &League,
    counted: Counted,
    log: &Log,
    conflicts: Option<u64>,
    watch: &W,
) -> Result<Reply, AllocError>
    requires counted { IsCounted league.now counted.terms }
    requires log { All NamesRows log.now }
    ensures { IfOk result (λ reply. TellsFloored league.now counted.cost log.now (answer_of reply)) }
{
    let floor = best_floor(alloc, league, counted.cost, counted.terms, conflicts, watch)?;
    // No accepted schedule costs less than the floor: one that costs no more costs just as much.
    if counted.cost <= u128::from(floor.bound) {
        return least_reply(alloc, floor.bound, &floor.log);
    }
    spent_reply(alloc, counted.cost, &floor, log)
}

/// What is shown of an accepted schedule.
pub(crate) fn proof_reply<W: Watch>(
    alloc: Global,
    league: &League,
    counted: Counted,
    proved: &Proved,
    conflicts: Option<u64>,
    watch: &W,
) -> Result<Reply, AllocError>
    requires counted { IsCounted league.now counted.terms }
    requires written { CanBeWritten proved.now }
    ensures { IfOk result (λ reply. Tells league.now counted.cost proved.now (answer_of reply)) }
{
    match proved {
        Proved::Least { objective, log } => least_reply(alloc, *objective, log),
        Proved::Better {
            schedule,
            objective,
        } => better_reply(alloc, schedule, *objective),
        Proved::Spent { log } => floored_reply(alloc, league, counted, log, conflicts, watch),
    }
}
