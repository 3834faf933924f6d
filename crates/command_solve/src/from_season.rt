//! The stages of `solve` from a season that is given.
ghost use Rattle.std.specs.Prelude.{◌≡◌, ◌↔◌, ◌+◌, ◌≤◌, ℕ, List, IsTrue, codes, length};
ghost use Rattle.std.specs.List.{All};
ghost use Rattle.robin_io.specs.Outside.{store_between};
ghost use Rattle.league.specs.Counts.{counts_of};
ghost use Rattle.league.specs.Instance.{IsGame};
ghost use Rattle.league.specs.Structure.{IsRoundRobin};
ghost use Rattle.robinx.specs.Pieces.{pieces};
ghost use Rattle.robinx.specs.SolutionFile.{solution_of};
ghost use Rattle.answers.specs.SeenReply.{Answers};
ghost use Rattle.answers.specs.Stages.{says};
ghost use Rattle.command_check.specs.Check.{encodes};
ghost use Rattle.command_solve.specs.From.{IsBegun, IsFoundFrom, begun};

use crate::solve_replies::found_reply;
use answers::{NoValue, Reply, file, league_in, rows_refused, schedule_in};
use command_check::judge;
use encoding::EncodeFault;
use league::{League, Schedule, structure};
use robin_io::Shelf;
use robin_watch::{Budgets, Listener};
use robinx::{INSTANCE_LIMIT, SOLUTION_LIMIT};
use solve::solve_from;
use std::alloc::{AllocError, Global};

/// Finds a schedule of a league from a double round robin, or a log, and answers it.
fn found_from<W: Listener>(
    alloc: Global,
    league: &League,
    start: &Schedule,
    budgets: Budgets,
    watch: &W,
) -> Result<Reply, NoValue>
    requires fit { All (IsGame league.now.n) start.now }
    requires round_robin { IsRoundRobin league.now.n league.now.phased (counts_of start.now) }
    ensures { Answers (encodes league.now (IsFoundFrom league.now start.now budgets (W.may_stop watch.now))) result }
{
    match solve_from(alloc, league, start, budgets, watch) {
        Ok(solved) => Ok(found_reply(alloc, league, &solved)?),
        Err(EncodeFault::TooLarge { terms }) => Err(NoValue::Refused(rows_refused(alloc, terms)?)),
        Err(EncodeFault::Mem) => Err(NoValue::Memory),
    }
}

/// Begins at a schedule, where it is a double round robin of the league, and judges it where it is none.
fn begin_at<W: Listener>(
    alloc: Global,
    league: &League,
    start: &Schedule,
    budgets: Budgets,
    watch: &W,
) -> Result<Reply, NoValue>
    requires few { length start.now ≤ 10000 }
    requires fit { All (IsGame league.now.n) start.now }
    ensures { Answers (IsBegun league.now budgets (W.may_stop watch.now) start.now) result }
{
    if is_start(league, start) {
        return found_from(alloc, league, start, budgets, watch);
    }
    Ok(judge(alloc, league, start)?)
}

/// Whether a schedule is a double round robin of the league.
fn is_start(league: &League, schedule: &Schedule) -> bool
    requires few { length schedule.now ≤ 10000 }
    requires fit { All (IsGame league.now.n) schedule.now }
    ensures { IsTrue result ↔ IsRoundRobin league.now.n league.now.phased (counts_of schedule.now) }
{
    let wrongs = structure(league, schedule);
    wrongs.pairs_wrong == 0 && wrongs.cells_wrong == 0 && wrongs.phases_wrong == 0
}

/// Begins at what a solution file says.
fn begin_at_file<W: Listener>(
    alloc: Global,
    name: &str,
    bytes: &[u8],
    league: &League,
    budgets: Budgets,
    watch: &W,
) -> Result<Reply, NoValue>
    requires { length bytes.now ≤ SOLUTION_LIMIT }
    ensures { Answers
        (says (codes "solution") (solution_of league.now.n (pieces bytes.now)) (IsBegun league.now budgets (W.may_stop watch.now)))
        result }
{
    let start = schedule_in(alloc, name, bytes, league)?;
    begin_at(alloc, league, &start, budgets, watch)
}

/// Finds a schedule that the league of one file accepts, or a log that refutes the league, from the double round robin
/// of a solution file, within budgets, and until the watch ends the run. Where the league accepts the start, the answer
/// is a schedule that costs no more. A schedule that is no double round robin of the league is judged.
///
/// # Errors
/// Where a file is refused, with the reply that says why, and where memory runs out.
pub fn solve_from_file<S: Shelf, W: Listener>(
    alloc: Global,
    shelf: &mut S,
    instance: &str,
    solution: &str,
    budgets: Budgets,
    watch: &W,
) -> Result<Reply, NoValue>
    ensures answer { Answers (begun (store_between S.Shelf shelf.old shelf.new)
        instance.now solution.now budgets (W.may_stop watch.now)) result }
    ensures taken { S.taken shelf.new ≤ S.taken shelf.old + (INSTANCE_LIMIT + 1 + (SOLUTION_LIMIT + 1)) }
    ensures contents { (n : List ℕ) → S.contents shelf.new n ≡ S.contents shelf.old n }
{
    let first = file(alloc, shelf, "instance", instance, INSTANCE_LIMIT)?;
    let league = league_in(alloc, instance, &first)?;
    let second = file(alloc, shelf, "solution", solution, SOLUTION_LIMIT)?;
    begin_at_file(alloc, solution, &second, &league, budgets, watch)
}
