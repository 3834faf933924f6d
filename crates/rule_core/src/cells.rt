//! How often each game is played, kept while games come and go.
ghost use Rattle.std.specs.Prelude.{◌≡◌, ℕ, ◌<◌, ◌≤◌, ◌+◌, ◌^◌, ◌||◌, nat_lt, true, if◌then◌else◌, [], ◌∷◌};
ghost use Rattle.std.specs.Prelude.{IfOk, IfSome, IfNone};
ghost use Rattle.std.specs.Int.{bit_at};
ghost use Rattle.std.specs.List.{All, sum};
ghost use Rattle.league.specs.Capacity.{meetings_with};
ghost use Rattle.league.specs.Counts as counts;
ghost use Rattle.league.specs.Counts.{counts_of, one_more};
ghost use Rattle.league.specs.Instance.{IsGame, IsTeamCount};
ghost use Rattle.league.specs.Meetings.{games_of};
ghost use Rattle.league.specs.Venues.{away_games, home_games};
ghost use Rattle.league.specs.declared.class.Side.TheVariants.{A, H};
ghost use Rattle.rule_core.specs.Places.{hosts, visits};
ghost use Rattle.rule_core.specs.Table.{table_counts};

use crate::counters::Counters;
use crate::keep::{keep, let_go};
use crate::listed::Listed;
use crate::place::{Place, once_if, read_place};
use crate::spare::{GAMES_IN_SLOT, copies, copies_at_home, copies_away};
use league::{Game, SlotId, TeamId, slot_count};
use std::alloc::{AllocError, Global};
use std::marker::Model;

/// The counts of at most 10,000 games of a league, seen as the number of teams with the list of the counts, by home
/// team, then away team, then slot.
///
/// Each team has one place in each slot. A game stands in the places of its two teams, if both were free when it came,
/// and else it is a spare one, which is counted by slot, home team and away team. These counts reach no further than
/// the last slot that has a spare game, so that a round robin has none, but there is room for all from the start.
/// Beside them the home games and the away games of each team in each slot are counted, and the slots in which there
/// are any are marked.
pub struct Cells {
    n: u16,
    games: u32,
    /// What each team does in each slot, by team, then slot.
    places: Vec<Place>,
    /// How often each game doesn't stand in its places, by slot, home team and away team, up to the last slot with such
    /// a game.
    spare: Vec<u16>,
    /// The home games, by team and slot.
    homes: Counters,
    /// The away games, by team and slot.
    aways: Counters,
}

impl Drop for Cells {
    fn drop(self) {
        let Cells {
            n: _,
            games: _,
            places: _,
            spare: _,
            homes: _,
            aways: _,
        } = self;
    }
}

impl Model for Cells {
    ghost use Rattle.std.specs.Prelude.{◌*◌, ◌≤◌, vec_capacity};
    ghost use Rattle.league.specs.Counts.{slot_count};
    ghost use Rattle.rule_core.specs.Table.{Table};
    ghost use Rattle.rule_core.specs.Tables.{AreKept, HasMarks, kept_counts, listed};

    ghost Value = { Table };

    ghost view = { λ c. record { n = c.n; list = listed c.n (kept_counts c.n c.places.items c.spare.items) } };

    ghost invariant = { λ c. AreKept c.n c.games c.places.items c.spare.items c.homes c.aways
        × (slot_count c.n * 1600 ≤ vec_capacity c.spare) × HasMarks c.n c.homes × HasMarks c.n c.aways };
}

impl Cells {
    /// The counts of no games, in a league of n teams.
    ///
    /// # Errors
    /// Only where memory runs out.
    pub fn new(alloc: Global, n: u16) -> Result<Cells, AllocError>
        requires teams { IsTeamCount n }
        ensures n { IfOk result (λ cells. cells.n ≡ n) }
        ensures counts { IfOk result (λ cells. table_counts cells ≡ counts_of []) }
        ensures total { IfOk result (λ cells. sum cells.list ≡ 0) }
    {
        let teams = n as usize;
        let slots = slot_count(n) as usize;
        Ok(Cells {
            n,
            games: 0,
            places: vec![in alloc; Place::Free; teams * slots]?,
            spare: Vec::with_capacity(alloc, slots * GAMES_IN_SLOT)?,
            homes: Counters::new(alloc, teams, slots)?,
            aways: Counters::new(alloc, teams, slots)?,
        })
    }

    /// The number of teams: even, from 2 to 40.
    pub fn n(&self) -> u16
        ensures n { result ≡ self.now.n }
        ensures teams { IsTeamCount result }
    {
        self.n
    }

    /// The number of slots of the season: 2(n - 1), at most 78.
    pub fn slots(&self) -> u16
        ensures slots { result ≡ counts.slot_count self.now.n }
        ensures at_most { result ≤ 78 }
    {
        slot_count(self.n)
    }

    /// The number of games, at most 10,000. They are games of the league's teams: of no other team is a game counted.
    pub fn games(&self) -> u32
        ensures total { result ≡ sum self.now.list }
        ensures at_most { result ≤ 10000 }
        ensures no_other { (i j s : ℕ) → self.now.n ≤ i → table_counts self.now i j s ≡ 0 }
    {
        self.games
    }

    /// How often the home team plays the away team in the slot. It is one look-up, and one more where spare games are
    /// counted in the slot.
    pub fn at(&self, home: TeamId, away: TeamId, slot: SlotId) -> u32
        requires home { home.0 < self.now.n }
        requires away { away.0 < self.now.n }
        requires slot { slot.0 < counts.slot_count self.now.n }
        ensures count { result ≡ table_counts self.now home.0 away.0 slot.0 }
        ensures at_most { result ≤ 10000 }
    {
        let place = read_place(&self.places, slot_count(self.n) as usize, home, slot);
        let placed = once_if(place.is_home_to(away));
        placed + copies(&self.spare, Game { home, away, slot })
    }

    /// How often two teams play each other in a slot, whichever is at home. It is one look-up, and two more where spare
    /// games are counted in the slot.
    pub fn between(&self, first: TeamId, second: TeamId, slot: SlotId) -> u32
        requires first { first.0 < self.now.n }
        requires second { second.0 < self.now.n }
        requires slot { slot.0 < counts.slot_count self.now.n }
        ensures games { result ≡ table_counts self.now first.0 second.0 slot.0
            + table_counts self.now second.0 first.0 slot.0 }
        ensures at_most { result ≤ 20000 }
    {
        let place = read_place(&self.places, slot_count(self.n) as usize, first, slot);
        let at_home = Game {
            home: first,
            away: second,
            slot,
        };
        let away = Game {
            home: second,
            away: first,
            slot,
        };
        place.games_with(second) + copies(&self.spare, at_home) + copies(&self.spare, away)
    }

    /// How often a team is at home in a slot. It is one look-up.
    pub fn home(&self, team: TeamId, slot: SlotId) -> u32
        requires team { team.0 < self.now.n }
        requires slot { slot.0 < counts.slot_count self.now.n }
        ensures count { result ≡ home_games self.now.n (table_counts self.now) team.0 slot.0 }
        ensures at_most { result ≤ 400000 }
    {
        self.homes.at(team.0 as usize, slot.0 as usize)
    }

    /// How often a team is away in a slot. It is one look-up.
    pub fn away(&self, team: TeamId, slot: SlotId) -> u32
        requires team { team.0 < self.now.n }
        requires slot { slot.0 < counts.slot_count self.now.n }
        ensures count { result ≡ away_games self.now.n (table_counts self.now) team.0 slot.0 }
        ensures at_most { result ≤ 400000 }
    {
        self.aways.at(team.0 as usize, slot.0 as usize)
    }

    /// The slots in which a team is at home, as bits: bit s, of worth 2^s, for slot s. It is one look-up.
    pub fn home_slots(&self, team: TeamId) -> u128
        requires team { team.0 < self.now.n }
        ensures slots { (s : ℕ) → s < counts.slot_count self.now.n → bit_at result s
            ≡ (if nat_lt 0 (home_games self.now.n (table_counts self.now) team.0 s) then 1 else 0) }
        ensures small { result < 2 ^ 78 }
    {
        self.homes.row_marks(team.0 as usize)
    }

    /// The slots in which a team is away, as bits: bit s, of worth 2^s, for slot s. It is one look-up.
    pub fn away_slots(&self, team: TeamId) -> u128
        requires team { team.0 < self.now.n }
        ensures slots { (s : ℕ) → s < counts.slot_count self.now.n → bit_at result s
            ≡ (if nat_lt 0 (away_games self.now.n (table_counts self.now) team.0 s) then 1 else 0) }
        ensures small { result < 2 ^ 78 }
    {
        self.aways.row_marks(team.0 as usize)
    }

    /// The games of a team at home to some others in a slot, itself left out. It is one look-up, unless the team has a
    /// spare home game in the slot.
    pub fn at_home_to(&self, team: TeamId, others: &Listed, slot: SlotId) -> u32
        requires team { team.0 < self.now.n }
        requires others { All (λ j. j < self.now.n) others.now }
        requires slot { slot.0 < counts.slot_count self.now.n }
        ensures games { result ≡ games_of (table_counts self.now) (meetings_with H team.0 others.now) (slot.0 ∷ []) }
        ensures at_most { result ≤ 780000 }
    {
        let numbers = others.numbers();
        let place = read_place(&self.places, slot_count(self.n) as usize, team, slot);
        let placed = place.games_at_home_to(others);
        if self.spare.is_empty() {
            return placed;
        }
        if self.home(team, slot) == place.home_games() {
            return placed;
        }
        placed + copies_at_home(&self.spare, team, numbers, slot)
    }

    /// The games of a team away at some others in a slot, itself left out. It is one look-up, unless the team has a
    /// spare away game in the slot.
    pub fn away_at(&self, team: TeamId, others: &Listed, slot: SlotId) -> u32
        requires team { team.0 < self.now.n }
        requires others { All (λ j. j < self.now.n) others.now }
        requires slot { slot.0 < counts.slot_count self.now.n }
        ensures games { result ≡ games_of (table_counts self.now) (meetings_with A team.0 others.now) (slot.0 ∷ []) }
        ensures at_most { result ≤ 780000 }
    {
        let numbers = others.numbers();
        let place = read_place(&self.places, slot_count(self.n) as usize, team, slot);
        let placed = place.games_away_at(others);
        if self.spare.is_empty() {
            return placed;
        }
        if self.away(team, slot) == place.away_games() {
            return placed;
        }
        placed + copies_away(&self.spare, team, numbers, slot)
    }

    /// What a team does in a slot, where its place tells that: a team that has a spare game in the slot gives None, and
    /// then its games are to be looked up one by one.
    pub fn place(&self, team: TeamId, slot: SlotId) -> Option<Place>
        requires team { team.0 < self.now.n }
        requires slot { slot.0 < counts.slot_count self.now.n }
        ensures home { IfSome result (λ place. (j : ℕ) → table_counts self.now team.0 j slot.0
            ≡ (if hosts place j then 1 else 0)) }
        ensures away { IfSome result (λ place. (j : ℕ) → table_counts self.now j team.0 slot.0
            ≡ (if visits place j then 1 else 0)) }
        ensures teams { IfSome result (λ place. (j : ℕ) → (hosts place j || visits place j) ≡ true → j < self.now.n) }
        ensures none { IfNone result (0 < home_games self.now.n (table_counts self.now) team.0 slot.0
            + away_games self.now.n (table_counts self.now) team.0 slot.0) }
    {
        let place = read_place(&self.places, slot_count(self.n) as usize, team, slot);
        let settled = self.home(team, slot) == place.home_games();
        if settled && self.away(team, slot) == place.away_games() {
            return Some(place);
        }
        None
    }

    /// Counts a game once more, where fewer than 10,000 are counted. It takes no memory.
    pub fn add(&mut self, game: Game)
        requires fits { IsGame self.old.n game }
        requires room { sum self.old.list < 10000 }
        ensures n { self.new.n ≡ self.old.n }
        ensures counts { table_counts self.new ≡ one_more (table_counts self.old) game }
        ensures total { sum self.new.list ≡ sum self.old.list + 1 }
    {
        let slot = game.slot.0 as usize;
        self.homes.add(game.home.0 as usize, slot);
        self.aways.add(game.away.0 as usize, slot);
        keep(self.n, &mut self.places, &mut self.spare, game);
        self.games += 1;
    }

    /// Counts a game once less, where it is counted at least once. It takes no memory.
    pub fn remove(&mut self, game: Game)
        requires fits { IsGame self.old.n game }
        requires there { 0 < table_counts self.old game.home.0 game.away.0 game.slot.0 }
        ensures n { self.new.n ≡ self.old.n }
        ensures counts { one_more (table_counts self.new) game ≡ table_counts self.old }
        ensures total { sum self.new.list + 1 ≡ sum self.old.list }
    {
        let slot = game.slot.0 as usize;
        self.homes.take(game.home.0 as usize, slot);
        self.aways.take(game.away.0 as usize, slot);
        let_go(self.n, &mut self.places, &mut self.spare, game);
        self.games -= 1;
    }
}
