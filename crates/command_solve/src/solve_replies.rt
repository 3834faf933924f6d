//! The answers of `solve`.
ghost use Rattle.std.specs.Prelude.{◌≡◌, ◌≤◌, ◌++◌, length, IfOk, Ok, Some};
ghost use Rattle.std.specs.List.{All};
ghost use Rattle.league.specs.Accepted as costs;
ghost use Rattle.league.specs.Counts.{counts_of};
ghost use Rattle.league.specs.Instance.{IsGame, IsInstance};
ghost use Rattle.robinx.specs.Texts as solutions;
ghost use Rattle.answers.specs.SeenReply.{answer_of};
ghost use Rattle.answers.specs.declared.status.Status.TheVariants.{Yes};
ghost use Rattle.refutation.specs.Logs.{log_of};
ghost use Rattle.refutation.specs.Steps.{NamesRows};
ghost use Rattle.refutation.specs.Texts as logs;
ghost use Rattle.refutation.specs.Writable.{HasShortLines};
ghost use Rattle.solve.specs.Solutions.{IsSomeSolution};
ghost use Rattle.command_solve.specs.Solve.{descent_text};
ghost use Rattle.command_solve.specs.Written.{IsWritten};

use crate::schedules::{first_objective, schedule_text};
use answers::{Reply, Status};
use descent::Descent;
use league::{League, Schedule};
use refutation::{Log, log_text};
use solve::Solved;
use std::alloc::{AllocError, Global};

/// A schedule that is accepted, with its objective, and the descent that led to it.
fn schedule_reply(
    alloc: Global,
    league: &League,
    schedule: &Schedule,
    objective: u128,
    descent: &Descent,
) -> Result<Reply, AllocError>
    requires fit { All (IsGame league.now.n) descent.now.first }
    requires few { length descent.now.first ≤ 10000 }
    ensures status { IfOk result (λ reply. (answer_of reply).status ≡ Yes) }
    ensures text { IfOk result (λ reply. (answer_of reply).text
        ≡ solutions.solution_text schedule.now (Some (0, objective))
        ++ descent_text (costs.objective league.now (counts_of descent.now.first)) descent.now) }
{
    let first = first_objective(alloc, league, descent)?;
    let text = schedule_text(alloc, schedule, objective, first, descent)?;
    Ok(Reply {
        status: Status::Yes,
        text,
    })
}

/// A log, as the answer of this status.
pub(crate) fn log_reply(alloc: Global, status: Status, log: &Log) -> Result<Reply, AllocError>
    requires named { All NamesRows log.now }
    requires short { HasShortLines log.now }
    ensures status { IfOk result (λ reply. (answer_of reply).status ≡ status) }
    ensures text { IfOk result (λ reply. (answer_of reply).text ≡ logs.log_text log.now) }
    ensures reads_back { IfOk result (λ reply. log_of (answer_of reply).text ≡ Ok log.now) }
{
    let text = log_text(alloc, log)?;
    Ok(Reply { status, text })
}

/// What is found of a league, written.
pub(crate) fn found_reply(
    alloc: Global,
    league: &League,
    solved: &Solved,
) -> Result<Reply, AllocError>
    requires solution { IsSomeSolution league.now solved.now }
    ensures written { IfOk result (λ reply. IsWritten league.now solved.now (answer_of reply)) }
    ensures instance { IsInstance league.now }
{
    let _n = league.n();
    match solved {
        Solved::Schedule {
            schedule,
            objective,
            descent,
        } => schedule_reply(alloc, league, schedule, *objective, descent),
        Solved::Refuted(log) => log_reply(alloc, Status::Refuted, log),
        Solved::Spent { log, patterns: _ } => log_reply(alloc, Status::Spent, log),
    }
}
