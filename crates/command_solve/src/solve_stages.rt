//! The stages of `solve`.
ghost use Rattle.std.specs.Prelude.{◌≡◌, ◌≤◌, ◌+◌, ℕ, List};
ghost use Rattle.robin_io.specs.Outside.{store_between};
ghost use Rattle.answers.specs.SeenReply.{Answers};
ghost use Rattle.command_check.specs.Check.{encodes};
ghost use Rattle.command_solve.specs.Solve.{IsFoundBy, solved};

use crate::solve_replies::found_reply;
use answers::{NoValue, Reply, file, league_in, rows_refused};
use encoding::EncodeFault;
use league::League;
use robin_io::Shelf;
use robin_watch::{Budgets, Listener};
use robinx::INSTANCE_LIMIT;
use solve::solve;
use std::alloc::{AllocError, Global};

/// Finds a schedule of a league, or a log, and answers it.
fn found_of<W: Listener>(
    alloc: Global,
    league: &League,
    budgets: Budgets,
    watch: &W,
) -> Result<Reply, NoValue>
    ensures { Answers (encodes league.now (IsFoundBy league.now budgets (W.may_stop watch.now))) result }
{
    match solve(alloc, league, budgets, watch) {
        Ok(solved) => Ok(found_reply(alloc, league, &solved)?),
        Err(EncodeFault::TooLarge { terms }) => Err(NoValue::Refused(rows_refused(alloc, terms)?)),
        Err(EncodeFault::Mem) => Err(NoValue::Memory),
    }
}

/// Finds a schedule that the league of a file accepts, with its objective and the descent that led to it, or a log that
/// refutes the league, within budgets, and until the watch ends the run. The log is the answer too where the budget of
/// conflicts is spent.
///
/// # Errors
/// Where a file is refused, with the reply that says why, and where memory runs out.
pub fn solve_file<S: Shelf, W: Listener>(
    alloc: Global,
    shelf: &mut S,
    instance: &str,
    budgets: Budgets,
    watch: &W,
) -> Result<Reply, NoValue>
    ensures answer { Answers (solved (store_between S.Shelf shelf.old shelf.new)
        instance.now budgets (W.may_stop watch.now)) result }
    ensures taken { S.taken shelf.new ≤ S.taken shelf.old + (INSTANCE_LIMIT + 1) }
    ensures contents { (n : List ℕ) → S.contents shelf.new n ≡ S.contents shelf.old n }
{
    let bytes = file(alloc, shelf, "instance", instance, INSTANCE_LIMIT)?;
    let league = league_in(alloc, instance, &bytes)?;
    found_of(alloc, &league, budgets, watch)
}
