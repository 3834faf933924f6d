//! The answers of `resume --near`.
ghost use Rattle.std.specs.Prelude.{◌≡◌, ◌++◌, ℕ, IfOk, Option, Some, string_bytes};
ghost use Rattle.robinx.specs.Texts as solutions;
ghost use Rattle.answers.specs.SeenReply.{answer_of};
ghost use Rattle.answers.specs.declared.status.Status.TheVariants.{Yes};
ghost use Rattle.resume.specs.Answers.{IsResumed};
ghost use Rattle.resume.specs.Near as changes;
ghost use Rattle.command_resume.specs.Near as near;
ghost use Rattle.command_resume.specs.NearWritten.{IsWritten};

use crate::replies::log_reply;
use answers::{Reply, Status};
use league::{League, Schedule};
use resume::{Neared, Resumed, changed_games, open_games};
use robinx::solution_text;
use std::alloc::{AllocError, Global};

/// The comment that says how many games are changed, of how many that are still to come, and whether the season is
/// settled.
fn near_line(
    alloc: Global,
    changed: usize,
    games: usize,
    settled: bool,
) -> Result<String, AllocError>
    ensures { IfOk result (λ line. string_bytes line ≡ near.near_line changed games settled) }
{
    if settled {
        format!(in alloc; "<!-- changed={changed} of={games} settled=yes -->\n")
    } else {
        format!(in alloc; "<!-- changed={changed} of={games} settled=no -->\n")
    }
}

/// The text of a schedule with its objective, and that comment behind it.
fn near_text(
    alloc: Global,
    schedule: &Schedule,
    objective: u128,
    changed: usize,
    games: usize,
    settled: bool,
) -> Result<Vec<u8>, AllocError>
    ensures { IfOk result (λ text. text.items
        ≡ solutions.solution_text schedule.now (Some (0, objective)) ++ near.near_line changed games settled) }
{
    let mut text = solution_text(alloc, schedule, Some((0, objective)))?;
    let line = near_line(alloc, changed, games, settled)?;
    text.extend_from_slice(line.as_bytes())?;
    Ok(text)
}

/// A schedule that is accepted, with its objective, how many games to come it changes, and whether it is settled.
fn schedule_reply(
    alloc: Global,
    played: &Schedule,
    k: u16,
    schedule: &Schedule,
    objective: u128,
    settled: bool,
) -> Result<Reply, AllocError>
    ensures status { IfOk result (λ reply. (answer_of reply).status ≡ Yes) }
    ensures text { IfOk result (λ reply. (answer_of reply).text
        ≡ solutions.solution_text schedule.now (Some (0, objective))
        ++ near.near_line (changes.changed k played.now schedule.now) (changes.open_games k played.now) settled) }
{
    let changed = changed_games(played.games(), k, schedule.games());
    let games = open_games(played.games(), k);
    let text = near_text(alloc, schedule, objective, changed, games, settled)?;
    Ok(Reply {
        status: Status::Yes,
        text,
    })
}

/// What is found near the old plan, whatever the budget within which it was found.
pub(crate) fn near_reply(
    alloc: Global,
    league: &League,
    played: &Schedule,
    k: u16,
    neared: &Neared,
) -> Result<Reply, AllocError>
    requires resumed { (conflicts : Option ℕ) × IsResumed league.now played.now k conflicts neared.now.answer }
    ensures { IfOk result (λ reply. IsWritten played.now k neared.now.settled neared.now.answer (answer_of reply)) }
{
    // For its contract: the variables of a league are few, and so are the games of a season.
    let _n = league.n();
    match &neared.answer {
        Resumed::Schedule {
            schedule,
            objective,
        } => schedule_reply(alloc, played, k, schedule, *objective, neared.settled),
        Resumed::Refuted { log } => log_reply(alloc, Status::Refuted, log),
        Resumed::Spent { log } => log_reply(alloc, Status::Spent, log),
    }
}
