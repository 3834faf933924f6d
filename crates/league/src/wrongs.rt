//! Whether a schedule is a double round robin: how many of its pairs, cells and phases are wrong.
ghost use Rattle.std.specs.Prelude.{◌≡◌, ◌↔◌, ℕ, ◌+◌, ◌*◌, ◌-◌, ◌<◌, ◌≤◌, ◌++◌, ◌&&◌, ◌==◌, not, if◌then◌else◌, List};
ghost use Rattle.std.specs.Prelude.{[], ◌∷◌, length};
ghost use Rattle.std.specs.List.{All, count_by, range_with_len, sum_by};
ghost use Rattle.league.specs.Counts.{counts_of, teams_of, slots_of};
ghost use Rattle.league.specs.Instance.{IsGame, IsTeamCount};
ghost use Rattle.league.specs.Meetings.{meetings_of, pairs_of};
ghost use Rattle.league.specs.Structure.{IsPlayedOnce, isnt_one, pairs_wrong, cells_wrong, phases_wrong};
ghost use Rattle.league.specs.Grid.{entry};
ghost use Rattle.league.specs.Tables.{AreAtMost, AreTablesOf};
ghost use Rattle.league.specs.declared.game.Game.{Game};

use crate::game::Game;
use crate::grid::Grid;
use crate::league::{League, slot_count};
use crate::schedule::Schedule;

/// How far a schedule is from a double round robin. A schedule is one exactly where all three are 0.
#[derive(Clone, Copy, Debug, PartialEq, Eq)]
pub struct Wrongs {
    /// The ordered pairs of different teams that don't have exactly one game.
    pub pairs_wrong: u32,
    /// The teams and slots in which the team doesn't have exactly one game.
    pub cells_wrong: u32,
    /// The unordered pairs that don't have exactly one game in the first half, if the league is phased; else 0.
    pub phases_wrong: u32,
}

/// What a schedule of at most 10,000 games, all of this league, has wrong: nothing exactly where each two teams meet
/// once at each of their venues, each team plays once in each slot, and, in a phased league, each two teams meet once
/// in the first half. It takes no memory.
pub fn structure(league: &League, schedule: &Schedule) -> Wrongs
    requires few { length schedule.now ≤ 10000 }
    requires fit { All (IsGame league.now.n) schedule.now }
    ensures pairs { result.pairs_wrong ≡ pairs_wrong league.now.n (counts_of schedule.now) }
    ensures cells { result.cells_wrong ≡ cells_wrong league.now.n (counts_of schedule.now) }
    ensures phases { result.phases_wrong ≡ phases_wrong league.now.n league.now.phased (counts_of schedule.now) }
    ensures played_once { ((result.pairs_wrong ≡ 0) × (result.cells_wrong ≡ 0) × (result.phases_wrong ≡ 0))
        ↔ IsPlayedOnce league.now.n league.now.phased (counts_of schedule.now) }
{
    let n = league.n();
    let tables = Tables::of(n, schedule.games());
    Wrongs {
        pairs_wrong: tables.meetings.pairs_wrong(n),
        cells_wrong: tables.cells.cells_wrong(n),
        phases_wrong: tables.halves.phases_wrong(n, league.phased()),
    }
}

/// The games of a schedule, counted in three ways.
#[derive(Drop)]
struct Tables {
    /// By home team and away team.
    meetings: Grid,
    /// By team and slot.
    cells: Grid,
    /// By home team and away team, in the first half of the season.
    halves: Grid,
}

impl Tables {
    /// The tables of these games of a league of n teams.
    fn of(n: u16, games: &[Game]) -> Tables
        requires teams { IsTeamCount n }
        requires few { length games.now ≤ 10000 }
        requires fit { All (IsGame n) games.now }
        ensures { AreTablesOf n games.now result }
    {
        let mut tables = Tables {
            meetings: Grid::new(),
            cells: Grid::new(),
            halves: Grid::new(),
        };
        for game in games {
            tables.add(n, *game);
        }
        tables
    }

    /// Counts a game once more.
    fn add(&mut self, n: u16, game: Game)
        requires teams { IsTeamCount n }
        requires room { AreAtMost 20000 self.old }
        requires fits { IsGame n game }
        ensures counted { (games : List Game) →
            AreTablesOf n games self.old → AreTablesOf n (games ++ game ∷ []) self.new }
        ensures growth { (most : ℕ) → AreAtMost most self.old → AreAtMost (most + 2) self.new }
    {
        let home = game.home.0;
        let away = game.away.0;
        let slot = game.slot.0;
        self.meetings.add(home, away);
        self.cells.add(home, slot);
        self.cells.add(away, slot);
        if slot < n - 1 {
            self.halves.add(home, away);
        }
    }
}

impl Grid {
    /// How many numbers of two different of n teams aren't 1.
    fn pairs_wrong(&self, n: u16) -> u32
        requires { n ≤ 40 }
        ensures { result ≡ count_by (λ p. isnt_one (entry self.now p.0 p.1)) (meetings_of n) }
    {
        let mut wrong = 0;
        for home in 0..n {
            wrong += u32::from(self.pairs_wrong_at(home, n));
        }
        wrong
    }

    /// How many numbers in a row aren't 1, for n teams but the row's own.
    fn pairs_wrong_at(&self, home: u16, n: u16) -> u16
        requires home { home < n }
        requires n { n ≤ 40 }
        ensures { result ≡ count_by (λ away. not (away == home) && isnt_one (entry self.now home away)) (teams_of n) }
    {
        let mut wrong = 0;
        for away in 0..n {
            if away != home {
                wrong += u16::from(self.at(home, away) != 1);
            }
        }
        wrong
    }

    /// How many numbers of a team of n and a slot aren't 1.
    fn cells_wrong(&self, n: u16) -> u32
        requires teams { IsTeamCount n }
        ensures { result ≡ sum_by (λ i. count_by (λ s. isnt_one (entry self.now i s)) (slots_of n)) (teams_of n) }
    {
        let mut wrong = 0;
        for team in 0..n {
            wrong += u32::from(self.cells_wrong_at(team, n));
        }
        wrong
    }

    /// How many numbers in a row aren't 1, for the slots of n teams.
    fn cells_wrong_at(&self, team: u16, n: u16) -> u16
        requires team { team < n }
        requires teams { IsTeamCount n }
        ensures { result ≡ count_by (λ s. isnt_one (entry self.now team s)) (slots_of n) }
    {
        let mut wrong = 0;
        for slot in 0..slot_count(n) {
            wrong += u16::from(self.at(team, slot) != 1);
        }
        wrong
    }

    /// For how many pairs of n teams the two numbers, in either order, don't add up to 1: none without phases.
    fn phases_wrong(&self, n: u16, phased: bool) -> u32
        requires { n ≤ 40 }
        ensures { result ≡ (if phased
            then count_by (λ p. isnt_one (entry self.now p.0 p.1 + entry self.now p.1 p.0)) (pairs_of (teams_of n))
            else 0) }
    {
        if !phased {
            return 0;
        }
        let mut wrong = 0;
        for team in 0..n {
            wrong += u32::from(self.phases_wrong_at(team, n));
        }
        wrong
    }

    /// For how many pairs of a team and a later one the two numbers, in either order, don't add up to 1.
    fn phases_wrong_at(&self, team: u16, n: u16) -> u16
        requires team { team < n }
        requires at_most { n ≤ 40 }
        ensures { result ≡ count_by (λ j. isnt_one (entry self.now team j + entry self.now j team))
            (range_with_len (team + 1) (n - (team + 1))) }
    {
        let mut wrong = 0;
        for later in team + 1..n {
            let games = u32::from(self.at(team, later)) + u32::from(self.at(later, team));
            wrong += u16::from(games != 1);
        }
        wrong
    }
}
