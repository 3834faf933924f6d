//! The answers of `resume`.
ghost use Rattle.std.specs.Prelude.{◌≡◌, ℕ, false, IfOk, Ok, Option, Some};
ghost use Rattle.std.specs.List.{All};
ghost use Rattle.league.specs.Accepted.{IsAccepted};
ghost use Rattle.league.specs.Counts.{counts_of};
ghost use Rattle.robinx.specs.Texts as solutions;
ghost use Rattle.answers.specs.SeenReply.{answer_of};
ghost use Rattle.answers.specs.declared.status.Status.TheVariants.{Refuted, Yes};
ghost use Rattle.clause_search.specs.News.{IsTidy};
ghost use Rattle.refutation.specs.Logs.{log_of};
ghost use Rattle.refutation.specs.Steps.{NamesRows, is_linear};
ghost use Rattle.refutation.specs.Texts as logs;
ghost use Rattle.refutation.specs.Writable.{HasShortLines};
ghost use Rattle.resume.specs.Answers.{IsPlan, IsResumed};
ghost use Rattle.command_resume.specs.Resumed.{IsFound};

use answers::{Reply, Status};
use clause_search::tidy_text;
use league::{League, Schedule};
use refutation::{Log, log_text};
use resume::Resumed;
use robinx::solution_text;
use std::alloc::{AllocError, Global};

/// A schedule that is accepted, with its objective.
fn schedule_reply(alloc: Global, schedule: &Schedule, objective: u128) -> Result<Reply, AllocError>
    ensures status { IfOk result (λ reply. (answer_of reply).status ≡ Yes) }
    ensures text { IfOk result (λ reply. (answer_of reply).text
        ≡ solutions.solution_text schedule.now (Some (0, objective))) }
{
    let text = solution_text(alloc, schedule, Some((0, objective)))?;
    Ok(Reply {
        status: Status::Yes,
        text,
    })
}

/// A log, as the answer of this status.
pub(crate) fn log_reply(alloc: Global, status: Status, log: &Log) -> Result<Reply, AllocError>
    requires tidy { All (IsTidy 130960) log.now }
    requires clauses { All (λ step. is_linear step ≡ false) log.now }
    ensures status { IfOk result (λ reply. (answer_of reply).status ≡ status) }
    ensures text { IfOk result (λ reply. (answer_of reply).text ≡ logs.log_text log.now) }
    ensures reads_back { IfOk result (λ reply. log_of (answer_of reply).text ≡ Ok log.now) }
{
    let text = tidy_text(alloc, log)?;
    Ok(Reply { status, text })
}

/// A log of a league that is counted out.
pub(crate) fn counted_reply(alloc: Global, log: &Log) -> Result<Reply, AllocError>
    requires named { All NamesRows log.now }
    requires short { HasShortLines log.now }
    ensures status { IfOk result (λ reply. (answer_of reply).status ≡ Refuted) }
    ensures text { IfOk result (λ reply. (answer_of reply).text ≡ logs.log_text log.now) }
    ensures reads_back { IfOk result (λ reply. log_of (answer_of reply).text ≡ Ok log.now) }
{
    let text = log_text(alloc, log)?;
    Ok(Reply {
        status: Status::Refuted,
        text,
    })
}

/// What is found of a league whose first k slots are played, whatever the budget within which it was found.
pub(crate) fn found_reply(
    alloc: Global,
    league: &League,
    played: &Schedule,
    k: u16,
    resumed: &Resumed,
) -> Result<Reply, AllocError>
    requires resumed { (conflicts : Option ℕ) × IsResumed league.now played.now k conflicts resumed.now }
    requires plan { IsAccepted league.now (counts_of played.now) → IsPlan played.now resumed.now }
    ensures { (conflicts : Option ℕ) → IsResumed league.now played.now k conflicts resumed.now
        → IfOk result (λ reply. IsFound league.now played.now k conflicts (answer_of reply)) }
{
    // For its contract: the variables of a league are few, and so are the games of a season.
    let _n = league.n();
    match resumed {
        Resumed::Schedule {
            schedule,
            objective,
        } => schedule_reply(alloc, schedule, *objective),
        Resumed::Refuted { log } => log_reply(alloc, Status::Refuted, log),
        Resumed::Spent { log } => log_reply(alloc, Status::Spent, log),
    }
}
