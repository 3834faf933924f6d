//! What the slots between the games of one team with each of some later teams lack, in one pass over its slots.
ghost use Rattle.std.specs.Prelude.{◌≡◌, ◌≢◌, ℕ, List, ◌<◌, ◌≤◌, ◌+◌, ◌*◌, ◌++◌, ◌∷◌, ◌||◌, true, length, map};
ghost use Rattle.std.specs.Prelude.{slice_index, vec_capacity, vec_len};
ghost use Rattle.std.specs.List.{All};
ghost use Rattle.std.specs.Ordering.{nat_cmp};
ghost use Rattle.league.specs.Counts.{Counts, slot_count};
ghost use Rattle.league.specs.Meetings.{pairs_of};
ghost use Rattle.league.specs.Separation.{se1_entry};
ghost use Rattle.league.specs.Sets.{IsAscending};
ghost use Rattle.rule_core.specs.Places.{hosts, visits};
ghost use Rattle.rule_core.specs.Table.{table_counts};
ghost use Rattle.deviation.specs.TeamGaps as specs;
ghost use Rattle.deviation.specs.TeamGaps.{AreSummed, IsKept, IsPlaceOf, IsSummed};

use crate::gaps::lacking_at;
use league::{SlotId, TeamId};
use rule_core::{Cells, Place};

/// What a team's games with each other team before some slot leave: the first slot after the last of them, or 0 where
/// there was none, and what the slots between them lack, summed. Games of teams that aren't asked for may be left out.
#[derive(Drop)]
pub(crate) struct TeamGaps {
    pub(crate) next: [u16; 40],
    pub(crate) totals: [u64; 40],
}

impl TeamGaps {
    /// Before all games.
    fn none() -> TeamGaps
        ensures kept { IsKept 0 result }
        ensures next { (j : ℕ) → slice_index result.next j ≡ 0 }
        ensures totals { (j : ℕ) → slice_index result.totals j ≡ 0 }
    {
        TeamGaps {
            next: [0; 40],
            totals: [0; 40],
        }
    }

    /// The gaps of all games of a team with some later teams.
    fn of_team(cells: &Cells, team: TeamId, later: &[u16], min: u32) -> TeamGaps
        requires team { team.0 < cells.now.n }
        requires few { cells.now.n ≤ 40 }
        requires later { All (λ t. t < cells.now.n) later.now }
        requires ascending { IsAscending nat_cmp (team.0 ∷ later.now) }
        ensures room { length result.totals ≡ 40 }
        ensures totals { All (λ j. slice_index result.totals j
            ≡ se1_entry cells.now.n (table_counts cells.now) min (team.0, j)) later.now }
    {
        let mut gaps = TeamGaps::none();
        for slot in 0..cells.slots() {
            gaps.add_slot(cells, team, later, slot, min);
        }
        gaps
    }

    /// What is lacking between all games with another team.
    fn total(&self, other: TeamId) -> u64
        requires other { other.0 < length self.now.totals }
        ensures { result ≡ slice_index self.now.totals other.0 }
    {
        self.totals[other.0 as usize]
    }

    /// With a slot more: one look-up, unless the team has several games in it.
    fn add_slot(&mut self, cells: &Cells, team: TeamId, later: &[u16], slot: u16, min: u32)
        requires team { team.0 < cells.now.n }
        requires few { cells.now.n ≤ 40 }
        requires later { All (λ t. t < cells.now.n) later.now }
        requires ascending { IsAscending nat_cmp (team.0 ∷ later.now) }
        requires slot { slot < slot_count cells.now.n }
        requires kept { IsKept slot self.old }
        requires summed { AreSummed cells.now.n (table_counts cells.now) min team.0 slot later.now self.old }
        ensures kept { IsKept (slot + 1) self.new }
        ensures summed { AreSummed cells.now.n (table_counts cells.now) min team.0 (slot + 1) later.now self.new }
    {
        match cells.place(team, SlotId(slot)) {
            Some(place) => self.add_place(place, team, slot, min),
            None => self.add_each(cells, team, later, slot, min),
        }
    }

    /// With the game of a slot that stands in the team's place, if there is one.
    fn add_place(&mut self, place: Place, team: TeamId, slot: u16, min: u32)
        requires slot { slot < 78 }
        requires teams { (j : ℕ) → (hosts place j || visits place j) ≡ true → j < 40 }
        requires kept { IsKept slot self.old }
        ensures kept { IsKept (slot + 1) self.new }
        ensures summed { (n : ℕ) (m : Counts) (later : List ℕ) → slot < slot_count n → IsPlaceOf m team.0 slot place
            → IsAscending nat_cmp (team.0 ∷ later) → AreSummed n m min team.0 slot later self.old
            → AreSummed n m min team.0 (slot + 1) later self.new }
    {
        match place {
            Place::Free => {}
            Place::Home(other) => self.add_game(team, other, slot, min),
            Place::Away(other) => self.add_game(team, other, slot, min),
        }
    }

    /// With one game in a slot against another team, where that is a later one.
    fn add_game(&mut self, team: TeamId, other: TeamId, slot: u16, min: u32)
        requires other { other.0 < 40 }
        requires slot { slot < 78 }
        requires kept { IsKept slot self.old }
        ensures kept { IsKept (slot + 1) self.new }
        ensures summed { (n : ℕ) (m : Counts) → slot < slot_count n
            → 1 ≡ m team.0 other.0 slot + m other.0 team.0 slot → team.0 < other.0
            → IsSummed n m min team.0 slot self.old other.0 → IsSummed n m min team.0 (slot + 1) self.new other.0 }
        ensures others { (j : ℕ) → j ≢ other.0 → (slice_index self.new.next j ≡ slice_index self.old.next j)
            × (slice_index self.new.totals j ≡ slice_index self.old.totals j) }
    {
        if other.0 > team.0 {
            self.add_games(other, slot, 1, min);
        }
    }

    /// With the games of a slot, looked up for each later team.
    fn add_each(&mut self, cells: &Cells, team: TeamId, later: &[u16], slot: u16, min: u32)
        requires team { team.0 < cells.now.n }
        requires few { cells.now.n ≤ 40 }
        requires later { All (λ t. t < cells.now.n) later.now }
        requires ascending { IsAscending nat_cmp (team.0 ∷ later.now) }
        requires slot { slot < slot_count cells.now.n }
        requires kept { IsKept slot self.old }
        requires summed { AreSummed cells.now.n (table_counts cells.now) min team.0 slot later.now self.old }
        ensures kept { IsKept (slot + 1) self.new }
        ensures summed { AreSummed cells.now.n (table_counts cells.now) min team.0 (slot + 1) later.now self.new }
    {
        for other in later {
            let games = cells.between(team, TeamId(*other), SlotId(slot));
            if games > 0 {
                self.add_games(TeamId(*other), slot, games, min);
            }
        }
    }

    /// With some games in a slot against another team.
    fn add_games(&mut self, other: TeamId, slot: u16, games: u32, min: u32)
        requires other { other.0 < 40 }
        requires slot { slot < 78 }
        requires some { 0 < games }
        requires few { games ≤ 20000 }
        requires kept { IsKept (slot + 1) self.old }
        requires next { slice_index self.old.next other.0 ≤ slot }
        requires total { slice_index self.old.totals other.0 ≤ 20000 * 4294967296 * slot }
        ensures kept { IsKept (slot + 1) self.new }
        ensures summed { (n : ℕ) (m : Counts) (i : ℕ) → slot < slot_count n
            → games ≡ m i other.0 slot + m other.0 i slot → IsSummed n m min i slot self.old other.0
            → IsSummed n m min i (slot + 1) self.new other.0 }
        ensures others { (j : ℕ) → j ≢ other.0 → (slice_index self.new.next j ≡ slice_index self.old.next j)
            × (slice_index self.new.totals j ≡ slice_index self.old.totals j) }
    {
        let place = other.0 as usize;
        let last = last_before(self.next[place]);
        let lacking = lacking_at(last, slot, games, min);
        self.totals[place] += lacking;
        self.next[place] = slot + 1;
    }
}

/// The slot before the first one after a game, if there was a game.
fn last_before(next: u16) -> Option<u16>
    ensures { result ≡ specs.last_before next }
{
    if next > 0 { Some(next - 1) } else { None }
}

/// Adds the entries of all pairs of some teams to a list that has room for them. The slots of each team but the last
/// are gone over once for all its pairs.
pub(crate) fn push_lacking(cells: &Cells, teams: &[u16], min: u32, entries: &mut Vec<u64>)
    requires teams { All (λ t. t < cells.now.n) teams.now }
    requires ascending { IsAscending nat_cmp teams.now }
    requires few { cells.now.n ≤ 40 }
    requires room { vec_len entries.old + length (pairs_of teams.now) ≤ vec_capacity entries.old }
    ensures entries { entries.new.items ≡ entries.old.items
        ++ map (se1_entry cells.now.n (table_counts cells.now) min) (pairs_of teams.now) }
{
    for (place, first) in teams.iter().enumerate() {
        push_team(cells, TeamId(*first), &teams[place + 1..], min, entries);
    }
}

/// Adds the entries of the pairs of a team with each of the later ones.
fn push_team(cells: &Cells, first: TeamId, later: &[u16], min: u32, entries: &mut Vec<u64>)
    requires first { first.0 < cells.now.n }
    requires later { All (λ t. t < cells.now.n) later.now }
    requires ascending { IsAscending nat_cmp (first.0 ∷ later.now) }
    requires few { cells.now.n ≤ 40 }
    requires room { vec_len entries.old + length later.now ≤ vec_capacity entries.old }
    ensures entries { entries.new.items ≡ entries.old.items
        ++ map (λ second. se1_entry cells.now.n (table_counts cells.now) min (first.0, second)) later.now }
    ensures pushed { vec_len entries.new ≡ vec_len entries.old + length later.now }
    ensures room { vec_capacity entries.new ≡ vec_capacity entries.old }
{
    if later.is_empty() {
        return;
    }
    let gaps = TeamGaps::of_team(cells, first, later, min);
    for second in later {
        entries.push_reserved(gaps.total(TeamId(*second)));
    }
}
