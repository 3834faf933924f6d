//! The trait of a watch that hears of seasons.
ghost use Rattle.std.specs.Prelude.{◌≡◌};
ghost use Rattle.league.specs.Accepted as costs;
ghost use Rattle.league.specs.Accepted.{IsAccepted};
ghost use Rattle.league.specs.Counts.{counts_of};

use crate::doubles::{StopsAt, Unwatched};
use crate::watch::Watch;
use league::{Game, League};

/// A watch that hears of seasons too.
pub trait Listener: Watch {
    /// Hears of the season that a walk keeps after so many moves tried: the league accepts its games, and this is what
    /// they cost.
    fn tell_season(&self, league: &League, games: &[Game], objective: u128, tried: u64)
        requires accepted { IsAccepted league.now (counts_of games.now) }
        requires cost { objective ≡ costs.objective league.now (counts_of games.now) };
}

impl Listener for Unwatched {
    fn tell_season(&self, _league: &League, _games: &[Game], _objective: u128, _tried: u64) {}
}

impl Listener for StopsAt {
    fn tell_season(&self, _league: &League, _games: &[Game], _objective: u128, _tried: u64) {}
}
