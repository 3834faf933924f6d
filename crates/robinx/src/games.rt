// What a solution file says.
ghost use Rattle.std.specs.Prelude.{◌≡◌, ◌≤◌, [], length, IfOk};
ghost use Rattle.std.specs.List.{All};
ghost use Rattle.robinx.specs.SolutionFile as solution;
ghost use Rattle.league.specs.Instance.{IsGame};
ghost use Rattle.robinx.specs.Answers.{Changes};

use crate::attribute::Attrs;
use crate::element::Element;
use crate::lists::{distinct, slot_in, team_in};
use crate::reads::Reads;
use crate::tag_fault::{FormKind, Stop};
use league::{Game, Schedule, SlotId, TeamId};
use std::alloc::Global;
use std::marker::Model;

/// The most games that a solution may have.
const MAX_GAMES: usize = 10_000;

/// The games that were read of a solution for a league of n teams.
#[derive(Drop)]
pub(crate) struct Games {
    n: u16,
    schedule: Schedule,
}

impl Model for Games {
    ghost use Rattle.std.specs.Prelude.{◌≤◌, length};
    ghost use Rattle.std.specs.List.{All};
    ghost use Rattle.league.specs.Instance.{IsGame};
    ghost use Rattle.robinx.specs.SolutionFile as solution;

    ghost Value = { solution.Games };

    ghost view = { λ g. record { n = g.n; games = g.schedule } };

    ghost invariant = { λ g. (g.n ≤ 40) × (length g.schedule ≤ 10000) × All (IsGame g.n) g.schedule };
}

/// A game: two different teams in a slot.
fn game_of(n: u16, tag: &Attrs) -> Result<Game, FormKind>
    requires { n ≤ 40 }
    ensures value { result ≡ solution.game_of n tag.now }
    ensures fits { IfOk result (IsGame n) }
{
    let home = team_in(tag, b"home", n)?;
    let away = team_in(tag, b"away", n)?;
    let slot = slot_in(tag, b"slot", n)?;
    distinct(home, away)?;
    Ok(Game {
        home: TeamId(home),
        away: TeamId(away),
        slot: SlotId(slot),
    })
}

impl Games {
    /// No games yet.
    pub(crate) fn new(alloc: Global, n: u16) -> Self
        requires { n ≤ 40 }
        ensures { result ≡ record { n = n; games = [] } }
    {
        Games {
            n,
            schedule: Schedule::new(alloc),
        }
    }

    /// The games in file order.
    pub(crate) fn into_schedule(self) -> Schedule
        ensures value { result ≡ self.games }
        ensures few { length self.games ≤ MAX_GAMES }
        ensures fit { All (IsGame self.n) self.games }
    {
        let Games { n: _, schedule } = self;
        schedule
    }

    fn take_game(&mut self, attrs: &Attrs) -> Result<(), Stop>
        ensures { Changes (solution.with_game attrs.now self.old) result self.new }
    {
        if self.schedule.len() >= MAX_GAMES {
            return Err(Stop::Form(FormKind::TooMany));
        }
        let game = game_of(self.n, attrs)?;
        self.schedule.push(game)?;
        Ok(())
    }
}

impl Reads for Games {
    ghost use Rattle.robinx.specs.SolutionFile as solution;

    ghost meaning = { solution.solution_meaning };

    fn started(&mut self, _alloc: Global, element: Element, attrs: &Attrs) -> Result<(), Stop> {
        match element {
            Element::ScheduledMatch => self.take_game(attrs),
            _ => Ok(()),
        }
    }

    fn ended(&mut self, _element: Element, _value: &[u8]) -> Result<(), Stop> {
        Ok(())
    }
}
