//! The double circle schedule, in which the bounds of a made league are counted.
ghost use Rattle.std.specs.Prelude.{◌≡◌, ◌*◌, ◌-◌, ◌<◌, IfOk, IsTrue};
ghost use Rattle.std.specs.List.{All};
ghost use Rattle.circle_method.specs.Circle.{double_games};
ghost use Rattle.league.specs.Counts.{slot_count};
ghost use Rattle.league.specs.Instance.{IsTeamCount, is_one_side};
ghost use Rattle.patterns.specs.Pattern.{is_repeat};
ghost use Rattle.patterns.specs.PatternSet.{patterns_of};
ghost use Rattle.instance_gen.specs.Made as made;

use circle_method::double;
use league::{Game, League, Schedule, Side, SlotSet, TeamId};
use patterns::{PatternSet, breaks_of, of_schedule};
use std::alloc::{AllocError, Global};

/// The double circle schedule of n teams, and where each team plays in it.
#[derive(Drop)]
pub(crate) struct Circle {
    n: u16,
    schedule: Schedule,
    patterns: PatternSet,
    ghost teams: { IsTeamCount n },
    ghost games: { schedule ≡ double_games n },
    ghost venues: { patterns ≡ patterns_of n (made.circle n) },
}

impl Circle {
    /// The schedule of n teams.
    ///
    /// # Errors
    /// Only where memory runs out.
    pub(crate) fn new(alloc: Global, n: u16) -> Result<Circle, AllocError>
        requires teams { IsTeamCount n }
        ensures { IfOk result (λ circle. circle.n ≡ n) }
    {
        let schedule = double(alloc, n)?;
        let league = League::new(n, true, Vec::new(alloc));
        let patterns = of_schedule(alloc, &league, &schedule)?;
        Ok(Circle {
            n,
            schedule,
            patterns,
        })
    }

    /// The number of teams: even, from 2 to 40.
    pub(crate) fn n(&self) -> u16
        ensures n { result ≡ self.now.n }
        ensures teams { IsTeamCount result }
    {
        self.n
    }

    /// The game at a place of the list of games, from 0.
    pub(crate) fn game_at(&self, place: u16) -> Game
        requires { place < self.now.n * (self.now.n - 1) }
        ensures { result ≡ made.game_at self.now.n place }
    {
        self.schedule.get(place as usize)
    }

    /// The games of a team on a side, at home or away, in some slots.
    pub(crate) fn games_in(&self, team: TeamId, side: Side, slots: &SlotSet) -> u32
        requires team { team.0 < self.now.n }
        requires side { IsTrue (is_one_side side) }
        requires slots { All (λ s. s < slot_count self.now.n) slots.now }
        ensures { result ≡ made.circle_games self.now.n team.0 side slots.now }
    {
        let pattern = self.patterns.pattern(team);
        let numbers = slots.numbers();
        let mut games = 0u32;
        for slot in numbers {
            games += u32::from(is_same(pattern.side(*slot as usize), side));
        }
        games
    }

    /// All breaks of the season.
    pub(crate) fn breaks(&self) -> u32
        ensures { result ≡ made.circle_breaks self.now.n }
    {
        let mut breaks = 0u32;
        for team in 0..self.n {
            breaks += breaks_of(self.patterns.pattern(TeamId(team)));
        }
        breaks
    }
}

/// Whether a team that plays at this venue plays on the side.
fn is_same(venue: Side, side: Side) -> bool
    ensures { result ≡ is_repeat venue side }
{
    match (venue, side) {
        (Side::H, Side::H) | (Side::A, Side::A) => true,
        _ => false,
    }
}
