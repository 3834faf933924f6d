//! The stages of `validate`.
ghost use Rattle.std.specs.Prelude.{◌≡◌, ◌+◌, ◌≤◌, ℕ, List, codes, length};
ghost use Rattle.robin_io.specs.Outside.{store_between};
ghost use Rattle.robinx.specs.Pieces.{pieces};
ghost use Rattle.robinx.specs.SolutionFile.{solution_of};
ghost use Rattle.answers.specs.SeenReply.{Answers};
ghost use Rattle.answers.specs.Stages.{says};
ghost use Rattle.command_check.specs.Validate.{IsJudgement, validated};

use crate::judging::judge;
use answers::{NoValue, Reply, file, league_in, schedule_in};
use league::League;
use robin_io::Shelf;
use robinx::{INSTANCE_LIMIT, SOLUTION_LIMIT};
use std::alloc::{AllocError, Global};

/// Judges what a solution file says by the league.
fn judge_file(alloc: Global, name: &str, bytes: &[u8], league: &League) -> Result<Reply, NoValue>
    requires { length bytes.now ≤ SOLUTION_LIMIT }
    ensures { Answers
        (says (codes "solution") (solution_of league.now.n (pieces bytes.now)) (IsJudgement league.now))
        result }
{
    let schedule = schedule_in(alloc, name, bytes, league)?;
    Ok(judge(alloc, league, &schedule)?)
}

/// Judges the schedule of one file by the league of the other.
///
/// # Errors
/// Where a file is refused, with the reply that says why, and where memory runs out.
pub fn validate<S: Shelf>(
    alloc: Global,
    shelf: &mut S,
    instance: &str,
    solution: &str,
) -> Result<Reply, NoValue>
    ensures answer { Answers (validated (store_between S.Shelf shelf.old shelf.new)
        instance.now solution.now) result }
    ensures taken { S.taken shelf.new ≤ S.taken shelf.old + (INSTANCE_LIMIT + 1 + (SOLUTION_LIMIT + 1)) }
    ensures contents { (n : List ℕ) → S.contents shelf.new n ≡ S.contents shelf.old n }
{
    let first = file(alloc, shelf, "instance", instance, INSTANCE_LIMIT)?;
    let league = league_in(alloc, instance, &first)?;
    let second = file(alloc, shelf, "solution", solution, SOLUTION_LIMIT)?;
    judge_file(alloc, solution, &second, &league)
}
