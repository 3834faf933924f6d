//! The stages of `rows`.
ghost use Rattle.std.specs.Prelude.{◌≡◌, ◌≤◌, ◌+◌, ℕ, List, IfOk};
ghost use Rattle.robin_io.specs.Outside.{store_between};
ghost use Rattle.answers.specs.SeenReply.{MatchStage};
ghost use Rattle.command_line.specs.declared.goal.Goal.TheVariants.{Accepted, AtMost, Least};
ghost use Rattle.command_rows.specs.Rowed.{AreRowsOf, league_rows, rowed, rows_answer, system_of};

use crate::prices::prices;
use crate::written::ReadyRows;
use answers::{NoValue, file, league_in, rows_refused};
use bound_rows::bound_system;
use command_line::Goal;
use command_prove::few_terms;
use encoding::{EncodeFault, encode};
use league::League;
use robin_io::Shelf;
use robinx::INSTANCE_LIMIT;
use std::alloc::Global;

/// The rows of a league.
fn rows_of_league(alloc: Global, league: &League) -> Result<ReadyRows, NoValue>
    ensures answer { MatchStage result
        (λ ready. league_rows Accepted league.now (rows_answer ready))
        (league_rows Accepted league.now) }
    ensures rows { IfOk result (λ ready. ready ≡ system_of Accepted league.now) }
{
    match encode(alloc, league) {
        Ok(encoding) => Ok(ReadyRows::of_league(alloc, encoding)?),
        Err(EncodeFault::TooLarge { terms }) => Err(NoValue::Refused(rows_refused(alloc, terms)?)),
        Err(EncodeFault::Mem) => Err(NoValue::Memory),
    }
}

/// The bound rows of a league.
fn rows_of_bound(alloc: Global, league: &League, bound: u64) -> Result<ReadyRows, NoValue>
    ensures answer { MatchStage result
        (λ ready. league_rows (AtMost bound) league.now (rows_answer ready))
        (league_rows (AtMost bound) league.now) }
    ensures rows { IfOk result (λ ready. ready ≡ system_of (AtMost bound) league.now) }
{
    let terms = few_terms(alloc, league)?;
    let system = bound_system(alloc, league, bound, terms)?;
    Ok(ReadyRows::of_bound(alloc, system)?)
}

/// The bound rows of a league without a bound, with what a season costs as a sum that is to be least.
fn rows_of_least(alloc: Global, league: &League) -> Result<ReadyRows, NoValue>
    ensures answer { MatchStage result
        (λ ready. league_rows Least league.now (rows_answer ready))
        (league_rows Least league.now) }
    ensures rows { IfOk result (λ ready. ready ≡ system_of Least league.now) }
{
    let terms = few_terms(alloc, league)?;
    let system = bound_system(alloc, league, u64::MAX, terms)?;
    let prices = prices(alloc, &system)?;
    Ok(ReadyRows::of_least(alloc, system, prices)?)
}

/// The rows of a league that ask for a season.
fn rows_of(alloc: Global, league: &League, goal: Goal) -> Result<ReadyRows, NoValue>
    ensures answer { MatchStage result
        (λ ready. league_rows goal league.now (rows_answer ready))
        (league_rows goal league.now) }
    ensures rows { IfOk result (λ ready. ready ≡ system_of goal league.now) }
{
    match goal {
        Goal::Accepted => rows_of_league(alloc, league),
        Goal::AtMost { bound } => rows_of_bound(alloc, league, bound),
        Goal::Least => rows_of_least(alloc, league),
    }
}

/// The rows of the league of a file that ask for a season, ready to be written.
///
/// # Errors
/// Where the file is refused or the rows have too many terms, with the reply that says why, and where memory runs out.
pub fn rows_file<S: Shelf>(
    alloc: Global,
    shelf: &mut S,
    instance: &str,
    goal: Goal,
) -> Result<ReadyRows, NoValue>
    ensures answer { let store = store_between S.Shelf shelf.old shelf.new in MatchStage result
        (λ ready. rowed store instance.now goal (rows_answer ready))
        (rowed store instance.now goal) }

    // They are those of the league that the file says.
    ensures rows { IfOk result (AreRowsOf (S.contents shelf.old instance.now) goal) }
    ensures taken { S.taken shelf.new ≤ S.taken shelf.old + (INSTANCE_LIMIT + 1) }
    ensures contents { (n : List ℕ) → S.contents shelf.new n ≡ S.contents shelf.old n }
{
    let bytes = file(alloc, shelf, "instance", instance, INSTANCE_LIMIT)?;
    let league = league_in(alloc, instance, &bytes)?;
    rows_of(alloc, &league, goal)
}
