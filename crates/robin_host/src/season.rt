//! The text of an accepted season, as `solve` writes it but for its comments.
ghost use Rattle.std.specs.Prelude.{◌≡◌, IfOk};
ghost use Rattle.std.specs.List.Sorted.{IsPermutation};
ghost use Rattle.league.specs.Accepted as costs;
ghost use Rattle.league.specs.Accepted.{IsAccepted};
ghost use Rattle.league.specs.Counts.{counts_of};
ghost use Rattle.league.specs.Order.{IsInOrder};
ghost use Rattle.robin_host.specs.Season.{IsSeasonText};

use league::{Game, League, Schedule};
use robinx::solution_text;
use std::alloc::{AllocError, Global};

/// The text of a season that a league accepts.
#[derive(Drop)]
pub(crate) struct Season {
    text: Vec<u8>,
    ghost accepted: { ∥ IsSeasonText text.items ∥₁ },
}

/// A schedule of these games.
///
/// # Errors
/// Only where memory runs out.
fn listed(alloc: Global, games: &[Game]) -> Result<Schedule, AllocError>
    ensures { IfOk result (λ schedule. schedule ≡ games.now) }
{
    let mut schedule = Schedule::new(alloc);
    for game in games {
        schedule.push(*game)?;
    }
    Ok(schedule)
}

/// A schedule of these games, in order.
///
/// # Errors
/// Only where memory runs out.
fn ordered(alloc: Global, games: &[Game]) -> Result<Schedule, AllocError>
    ensures permutation { IfOk result (λ schedule. IsPermutation games.now schedule) }
    ensures in_order { IfOk result IsInOrder }
{
    let mut schedule = listed(alloc, games)?;
    schedule.put_in_order();
    Ok(schedule)
}

impl Season {
    /// The season of these games, with what it costs.
    ///
    /// # Errors
    /// Only where memory runs out.
    pub(crate) fn new(
        alloc: Global,
        league: &League,
        games: &[Game],
        objective: u128,
    ) -> Result<Season, AllocError>
        requires accepted { IsAccepted league.now (counts_of games.now) }
        requires cost { objective ≡ costs.objective league.now (counts_of games.now) }
    {
        let schedule = ordered(alloc, games)?;
        let text = solution_text(alloc, &schedule, Some((0, objective)))?;
        Ok(Season { text })
    }

    /// The text.
    pub(crate) fn text(&self) -> &[u8] {
        &self.text
    }
}
