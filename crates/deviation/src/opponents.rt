//! Some teams and the others against which their games are counted, as CA2, CA3 and CA4 do.
ghost use Rattle.std.specs.Prelude.{◌≡◌, ◌≢◌, ℕ, ◌<◌, ◌≤◌, ◌+◌, [], ◌∷◌, length, slice_index, IfOk, IsTrue};
ghost use Rattle.std.specs.List.{All, range_with_len};
ghost use Rattle.league.specs.Capacity.{meetings_with};
ghost use Rattle.league.specs.Counts.{slot_count};
ghost use Rattle.league.specs.Instance.{are_teams};
ghost use Rattle.league.specs.Meetings.{games_of};
ghost use Rattle.rule_core.specs.Keys.{keys_where, with_keys};
ghost use Rattle.rule_core.specs.Table.{table_counts};
ghost use Rattle.rule_core.specs.Touched.{plays_against};

use league::{Game, Side, SlotId, TeamId, TeamSet};
use rule_core::{Cells, Keys, Listed};
use std::alloc::{AllocError, Global};

/// Some teams, and the others against which their games are counted: at home, away, or both.
#[derive(Drop)]
pub(crate) struct Opponents {
    pub(crate) teams1: Listed,
    pub(crate) teams2: Listed,
    pub(crate) side: Side,
}

impl Opponents {
    /// Opponents of these sets of teams in a league of n teams.
    pub(crate) fn of(
        alloc: Global,
        n: u16,
        teams1: &TeamSet,
        teams2: &TeamSet,
        side: Side,
    ) -> Result<Opponents, AllocError>
        requires at_most { n ≤ 40 }
        requires teams1 { IsTrue (are_teams n teams1.now) }
        requires teams2 { IsTrue (are_teams n teams2.now) }
        ensures teams1 { IfOk result (λ opponents. opponents.teams1 ≡ teams1.now) }
        ensures teams2 { IfOk result (λ opponents. opponents.teams2 ≡ teams2.now) }
        ensures side { IfOk result (λ opponents. opponents.side ≡ side) }
    {
        Ok(Opponents {
            teams1: Listed::of_teams(alloc, n, teams1)?,
            teams2: Listed::of_teams(alloc, n, teams2)?,
            side,
        })
    }

    /// Adds the keys of the teams of a game that play on the side against one of the others.
    pub(crate) fn touched(&self, game: Game, keys: &mut Keys)
        requires differ { game.home.0 ≢ game.away.0 }
        requires spare { length keys.old.list + 2 ≤ keys.old.room }
        ensures { keys.new
            ≡ with_keys keys.old (keys_where (plays_against self.now.side self.now.teams2 game) self.now.teams1) }
    {
        let home = game.home.0;
        let away = game.away.0;
        match self.side {
            Side::H => {
                if self.teams2.has(away) {
                    self.teams1.push_key(home, keys);
                }
            }
            Side::A => {
                if self.teams2.has(home) {
                    self.teams1.push_key(away, keys);
                }
            }
            Side::Both => match (self.teams2.has(away), self.teams2.has(home)) {
                (true, true) => self.teams1.push_keys(home, away, keys),
                (true, false) => self.teams1.push_key(home, keys),
                (false, true) => self.teams1.push_key(away, keys),
                (false, false) => {}
            },
        }
    }

    /// The games of the team of a key against the others, itself left out, in some slots: one look-up for each slot, or
    /// two for both sides.
    pub(crate) fn games_in(&self, key: usize, cells: &Cells, slots: &[u16]) -> u64
        requires key { key < length self.now.teams1 }
        requires teams1 { All (λ t. t < cells.now.n) self.now.teams1 }
        requires teams2 { All (λ t. t < cells.now.n) self.now.teams2 }
        requires slots { All (λ s. s < slot_count cells.now.n) slots.now }
        requires few { length slots.now ≤ 78 }
        ensures { result ≡ games_of (table_counts cells.now)
            (meetings_with self.now.side (slice_index self.now.teams1 key) self.now.teams2) slots.now }
    {
        let mut games = 0;
        for slot in slots {
            games += self.games_at(key, cells, SlotId(*slot));
        }
        games
    }

    /// The games of the team of a key against the others, itself left out, before each slot of the season and before
    /// its end. Each slot is counted once.
    pub(crate) fn games_before(&self, key: usize, cells: &Cells) -> [u64; 79]
        requires key { key < length self.now.teams1 }
        requires teams1 { All (λ t. t < cells.now.n) self.now.teams1 }
        requires teams2 { All (λ t. t < cells.now.n) self.now.teams2 }
        ensures games { (t : ℕ) → t ≤ slot_count cells.now.n → slice_index result t
            ≡ games_of (table_counts cells.now)
            (meetings_with self.now.side (slice_index self.now.teams1 key) self.now.teams2) (range_with_len 0 t) }
        ensures at_most { (t : ℕ) → slice_index result t ≤ 121680000 }
    {
        let mut before = [0; 79];
        for slot in 0..cells.slots() {
            let next = slot as usize + 1;
            before[next] = before[slot as usize] + self.games_at(key, cells, SlotId(slot));
        }
        before
    }

    /// The games of the team of a key against the others, itself left out, in a slot.
    #[inline(always)]
    fn games_at(&self, key: usize, cells: &Cells, slot: SlotId) -> u64
        requires key { key < length self.now.teams1 }
        requires teams1 { All (λ t. t < cells.now.n) self.now.teams1 }
        requires teams2 { All (λ t. t < cells.now.n) self.now.teams2 }
        requires slot { slot.0 < slot_count cells.now.n }
        ensures games { result ≡ games_of (table_counts cells.now)
            (meetings_with self.now.side (slice_index self.now.teams1 key) self.now.teams2) (slot.0 ∷ []) }
        ensures at_most { result ≤ 1560000 }
    {
        let team = TeamId(self.teams1.get(key));
        u64::from(games_against(cells, self.side, team, &self.teams2, slot))
    }
}

/// The games of a team against some others, itself left out, in a slot: one look-up, or two for both sides.
#[inline(always)]
fn games_against(cells: &Cells, side: Side, team: TeamId, opponents: &Listed, slot: SlotId) -> u32
    requires team { team.0 < cells.now.n }
    requires opponents { All (λ j. j < cells.now.n) opponents.now }
    requires slot { slot.0 < slot_count cells.now.n }
    ensures games { result
        ≡ games_of (table_counts cells.now) (meetings_with side team.0 opponents.now) (slot.0 ∷ []) }
    ensures at_most { result ≤ 1560000 }
{
    match side {
        Side::H => cells.at_home_to(team, opponents, slot),
        Side::A => cells.away_at(team, opponents, slot),
        Side::Both => cells.at_home_to(team, opponents, slot)
            + cells.away_at(team, opponents, slot),
    }
}
