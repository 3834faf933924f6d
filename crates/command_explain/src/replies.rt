//! The answers of `explain`.
ghost use Rattle.std.specs.Prelude.{true, ◌≡◌, ◌++◌, length, IfOk, Ok, Some};
ghost use Rattle.std.specs.List.{All};
ghost use Rattle.league.specs.Accepted.{IsAccepted};
ghost use Rattle.league.specs.Counts.{counts_of};
ghost use Rattle.circle_method.specs.Circle.{double_games};
ghost use Rattle.encoding.specs.Variables.{var_count};
ghost use Rattle.robinx.specs.Texts as solutions;
ghost use Rattle.answers.specs.SeenReply.{answer_of};
ghost use Rattle.answers.specs.declared.status.Status.TheVariants as statuses;
ghost use Rattle.refutation.specs.Logs.{log_of};
ghost use Rattle.refutation.specs.Texts as logs;
ghost use Rattle.solve.specs.Solutions.{IsWritable};
ghost use Rattle.venue_counts.specs.VenueCounts.{are_crowded, are_short};
ghost use Rattle.break_counts.specs.BreakCounts.{are_few};
ghost use Rattle.explain.specs.Conflicts.{HasConflict, HasSchedule, IsAmple, IsDecided, IsExplanation};
ghost use Rattle.explain.specs.Conflicts.{IsIrreducibleIfDecided};
ghost use Rattle.command_explain.specs.Explained.{IsFound};
ghost use Rattle.command_explain.specs.Texts as texts;
ghost use Rattle.command_explain.specs.Texts.{IsWritableCase, LogReadsBack};

use crate::texts::conflict_text;
use answers::{Reply, Status};
use explain::{Cases, Explained, Members};
use league::{League, Schedule};
use refutation::{Log, log_text};
use robin_watch::Watch;
use robinx::solution_text;
use std::alloc::{AllocError, Global};

/// A schedule that is accepted, with its objective.
fn schedule_reply(alloc: Global, schedule: &Schedule, objective: u128) -> Result<Reply, AllocError>
    ensures status { IfOk result (λ reply. (answer_of reply).status ≡ statuses.Yes) }
    ensures text { IfOk result (λ reply. (answer_of reply).text
        ≡ solutions.solution_text schedule.now (Some (0, objective))) }
{
    let text = solution_text(alloc, schedule, Some((0, objective)))?;
    Ok(Reply {
        status: Status::Yes,
        text,
    })
}

/// A conflict.
fn conflict_reply(
    alloc: Global,
    members: &Members,
    log: &Log,
    cases: &Cases,
) -> Result<Reply, AllocError>
    requires each { length cases.now ≡ length members.now }
    requires log { IsWritable log.now }
    requires writable { All IsWritableCase cases.now }
    ensures status { IfOk result (λ reply. (answer_of reply).status ≡ statuses.Refuted) }
    ensures text { IfOk result (λ reply. (answer_of reply).text
        ≡ texts.conflict_text members.now log.now cases.now) }
    ensures log_reads_back { IfOk result (λ reply. log_of (texts.log_text log.now) ≡ Ok log.now) }
    ensures cases_read_back { IfOk result (λ reply. All LogReadsBack cases.now) }
{
    let text = conflict_text(alloc, members, log, cases)?;
    Ok(Reply {
        status: Status::Refuted,
        text,
    })
}

/// A log that is spent.
fn spent_reply(alloc: Global, log: &Log) -> Result<Reply, AllocError>
    requires writable { IsWritable log.now }
    ensures status { IfOk result (λ reply. (answer_of reply).status ≡ statuses.Spent) }
    ensures text { IfOk result (λ reply. (answer_of reply).text ≡ logs.log_text log.now) }
    ensures reads_back { IfOk result (λ reply. log_of (answer_of reply).text ≡ Ok log.now) }
{
    let text = log_text(alloc, log)?;
    Ok(Reply {
        status: Status::Spent,
        text,
    })
}

/// What is found of a league within a budget of conflicts, in a run that the watch may end.
pub(crate) fn found_reply<W: Watch>(
    alloc: Global,
    league: &League,
    conflicts: Option<u64>,
    explained: &Explained,
    watch: &W,
) -> Result<Reply, AllocError>
    requires explanation { IsExplanation league.now conflicts (W.may_stop watch.now) explained.now }
    requires irreducible { IsIrreducibleIfDecided league.now explained.now }
    requires decided { (W.may_stop watch.now → ⊥) → IsAmple (var_count league.now) conflicts
        → IsDecided explained.now }
    requires circle { IsAccepted league.now (counts_of (double_games league.now.n)) → HasSchedule explained.now }
    requires short { are_short league.now ≡ true → HasConflict explained.now }
    requires crowded { are_crowded league.now ≡ true → HasConflict explained.now }
    requires few { are_few league.now ≡ true → HasConflict explained.now }
    ensures { IfOk result (λ reply. IsFound league.now conflicts (W.may_stop watch.now) (answer_of reply)) }
{
    // For its contract: the games of a season are few.
    let _n = league.n();
    match explained {
        Explained::Met {
            schedule,
            objective,
        } => schedule_reply(alloc, schedule, *objective),
        Explained::Conflict {
            members,
            log,
            cases,
        } => conflict_reply(alloc, members, log, cases),
        Explained::Spent { log } => spent_reply(alloc, log),
    }
}
