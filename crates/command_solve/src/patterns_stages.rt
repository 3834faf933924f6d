//! The stages of `patterns`.
ghost use Rattle.std.specs.Prelude.{◌≡◌, ◌≤◌, ◌+◌, ℕ, List};
ghost use Rattle.robin_io.specs.Outside.{store_between};
ghost use Rattle.answers.specs.SeenReply.{Answers};
ghost use Rattle.command_check.specs.Check.{encodes};
ghost use Rattle.command_solve.specs.Patterns.{AreFound, patterned};

use crate::patterns_replies::found_reply;
use answers::{NoValue, Reply, file, league_in, rows_refused};
use encoding::{EncodeFault, encode};
use league::League;
use robin_io::Shelf;
use robinx::INSTANCE_LIMIT;
use std::alloc::{AllocError, Global};

/// Finds patterns of a league, or a log, and answers it.
fn found_of(alloc: Global, league: &League, conflicts: Option<u64>) -> Result<Reply, NoValue>
    ensures { Answers (encodes league.now (λ rows. AreFound league.now conflicts)) result }
{
    match encode(alloc, league) {
        Ok(encoding) => Ok(found_reply(alloc, league, &encoding, conflicts)?),
        Err(EncodeFault::TooLarge { terms }) => Err(NoValue::Refused(rows_refused(alloc, terms)?)),
        Err(EncodeFault::Mem) => Err(NoValue::Memory),
    }
}

/// Finds patterns that the pattern rows of the league of a file allow, or a log that refutes them, and so the league.
/// Where the league allows its teams too few breaks, the log counts them, whatever the budget: no season has patterns
/// that its pattern rows allow. With a budget the search learns at most so many clauses, and its log is the answer where it is spent.
///
/// # Errors
/// Where a file is refused, with the reply that says why, and where memory runs out.
pub fn patterns_file<S: Shelf>(
    alloc: Global,
    shelf: &mut S,
    instance: &str,
    conflicts: Option<u64>,
) -> Result<Reply, NoValue>
    ensures answer { Answers (patterned (store_between S.Shelf shelf.old shelf.new)
        instance.now conflicts) result }
    ensures taken { S.taken shelf.new ≤ S.taken shelf.old + (INSTANCE_LIMIT + 1) }
    ensures contents { (n : List ℕ) → S.contents shelf.new n ≡ S.contents shelf.old n }
{
    let bytes = file(alloc, shelf, "instance", instance, INSTANCE_LIMIT)?;
    let league = league_in(alloc, instance, &bytes)?;
    found_of(alloc, &league, conflicts)
}
