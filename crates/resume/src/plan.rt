//! The old plan: whether it may stay as it is, and what the search decides first where it may not.
ghost use Rattle.std.specs.Prelude.{◌≡◌, ◌≤◌, ℕ, None, Ok, Option, length, IfOk, IfSome};
ghost use Rattle.std.specs.List.{All};
ghost use Rattle.std.specs.List.Sorted.{IsPermutation};
ghost use Rattle.league.specs.Accepted.{IsAccepted};
ghost use Rattle.league.specs.Counts.{counts_of};
ghost use Rattle.league.specs.Instance.{IsGame};
ghost use Rattle.league.specs.Order.{IsInOrder};
ghost use Rattle.encoding.specs.Variables as variables;
ghost use Rattle.resume.specs.Answers.{IsPlan, IsResumed};

use crate::resumed::Resumed;
use crate::system::copied;
use deviation::assess;
use encoding::x_at;
use league::{Game, League, Schedule};
use rows::Lit;
use std::alloc::{AllocError, Global};

/// The old plan in order, where the league accepts it as it is.
///
/// # Errors
/// Only where memory runs out.
pub(crate) fn old_plan(
    alloc: Global,
    league: &League,
    played: &Schedule,
) -> Result<Option<Resumed>, AllocError>
    requires few { length played.now ≤ 10000 }
    requires fit { All (IsGame league.now.n) played.now }
    ensures resumed { IfOk result (λ plan. IfSome plan (λ resumed. (k : ℕ) (limit : Option ℕ)
        → IsResumed league.now played.now k limit resumed)) }
    ensures plan { IfOk result (λ plan. IfSome plan (IsPlan played.now)) }
    ensures refused { result ≡ Ok None → IsAccepted league.now (counts_of played.now) → ⊥ }
{
    let assessment = assess(alloc, league, played)?;
    if !assessment.feasible {
        return Ok(None);
    }
    let schedule = in_order(alloc, played)?;
    Ok(Some(Resumed::Schedule {
        schedule,
        objective: assessment.objective,
    }))
}

/// The games of a schedule in order.
///
/// # Errors
/// Only where memory runs out.
fn in_order(alloc: Global, schedule: &Schedule) -> Result<Schedule, AllocError>
    ensures permutation { IfOk result (λ ordered. IsPermutation schedule.now ordered) }
    ensures in_order { IfOk result (λ ordered. IsInOrder ordered) }
{
    let mut ordered = copied(alloc, schedule.games())?;
    ordered.put_in_order();
    Ok(ordered)
}

/// The variables of the old plan's games: the search decides them first, to be true, and so ends near the plan.
///
/// # Errors
/// Only where memory runs out.
pub(crate) fn preferred(alloc: Global, n: u16, games: &[Game]) -> Result<Vec<Lit>, AllocError>
    requires teams { n ≤ 40 }
    requires fit { All (IsGame n) games.now }
    ensures { IfOk result (λ lits. All (λ l. l.var ≤ variables.x_count n) lits.items) }
{
    let mut lits = Vec::with_capacity(alloc, games.len())?;
    for game in games {
        lits.push(literal_of(n, *game))?;
    }
    Ok(lits)
}

/// The literal that is true where a game takes place.
fn literal_of(n: u16, game: Game) -> Lit
    requires teams { n ≤ 40 }
    requires fits { IsGame n game }
    ensures { result.var ≤ variables.x_count n }
{
    Lit::new(x_at(n, game.home.0, game.away.0, game.slot.0), true)
}
