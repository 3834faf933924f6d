//! Schedules that are judged.
ghost use Rattle.std.specs.Prelude.{IfOk, IfSome};
ghost use Rattle.std.specs.List.{All};
ghost use Rattle.league.specs.Counts.{counts_of};
ghost use Rattle.league.specs.Instance.{IsGame};
ghost use Rattle.league.specs.Order.{IsInOrder};
ghost use Rattle.resume.specs.Kept.{Keeps};
ghost use Rattle.resume.specs.Answers.{IsResumedSeason};

use deviation::assess;
use league::{League, Schedule};
use std::alloc::{AllocError, Global};

/// The most games that are judged.
pub(crate) const MOST_GAMES: usize = 10_000;

/// A schedule with its objective.
#[derive(Drop)]
pub(crate) struct Season {
    pub(crate) schedule: Schedule,
    pub(crate) objective: u128,
}

/// A schedule that keeps the games of another below slot k, with its objective, where the league accepts it.
///
/// # Errors
/// Only where memory runs out.
pub(crate) fn judged(
    alloc: Global,
    league: &League,
    start: &Schedule,
    k: u16,
    schedule: Schedule,
) -> Result<Option<Season>, AllocError>
    requires fit { All (IsGame league.now.n) schedule }
    requires keeps { Keeps (counts_of start.now) k (counts_of schedule) }
    requires in_order { IsInOrder schedule }
    ensures { IfOk result (λ found. IfSome found (λ season.
        IsResumedSeason league.now start.now k season.schedule season.objective)) }
{
    if schedule.len() > MOST_GAMES {
        return Ok(None);
    }
    let assessment = assess(alloc, league, &schedule)?;
    if !assessment.feasible {
        return Ok(None);
    }
    let objective = assessment.objective;
    Ok(Some(Season {
        schedule,
        objective,
    }))
}
