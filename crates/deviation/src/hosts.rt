//! The games of some teams with others, slot by slot and home team by home team: at most one look-up each.
ghost use Rattle.std.specs.Prelude.{◌≡◌, ℕ, ◌<◌, ◌≤◌, true, if◌then◌else◌, [], ◌∷◌, length};
ghost use Rattle.std.specs.List.{All, filter};
ghost use Rattle.league.specs.Capacity.{is_between};
ghost use Rattle.league.specs.Counts.{Counts, slot_count, teams_of};
ghost use Rattle.league.specs.Meetings.{games_of, meetings_of};
ghost use Rattle.rule_core.specs.Places.{hosts};
ghost use Rattle.rule_core.specs.Table.{table_counts};
ghost use Rattle.deviation.specs.Between.{can_host, counted, meetings_at_home};

use crate::opponents::Opponents;
use league::{SlotId, TeamId};
use rule_core::{Cells, Place};

impl Opponents {
    /// The games of the meetings of the teams with the others in some slots, by the teams that can be at home in them.
    pub(crate) fn games_of_hosts(&self, cells: &Cells, hosts: &[u16], slots: &[u16]) -> u64
        requires few { cells.now.n ≤ 40 }
        requires hosts { hosts.now
            ≡ filter (can_host self.now.side self.now.teams1 self.now.teams2) (teams_of cells.now.n) }
        requires slots { All (λ s. s < slot_count cells.now.n) slots.now }
        requires few_slots { length slots.now ≤ 78 }
        ensures { result ≡ games_of (table_counts cells.now)
            (filter (is_between self.now.side self.now.teams1 self.now.teams2) (meetings_of cells.now.n)) slots.now }
    {
        let mut games: u64 = 0;
        for slot in slots {
            games += self.games_in_slot(cells, hosts, SlotId(*slot));
        }
        games
    }

    /// The games of the meetings in one slot.
    fn games_in_slot(&self, cells: &Cells, hosts: &[u16], slot: SlotId) -> u64
        requires few { cells.now.n ≤ 40 }
        requires hosts { hosts.now
            ≡ filter (can_host self.now.side self.now.teams1 self.now.teams2) (teams_of cells.now.n) }
        requires slot { slot.0 < slot_count cells.now.n }
        ensures games { result ≡ games_of (table_counts cells.now)
            (filter (is_between self.now.side self.now.teams1 self.now.teams2) (meetings_of cells.now.n))
            (slot.0 ∷ []) }
        ensures at_most { result ≤ 16000000 }
    {
        let mut games: u64 = 0;
        for host in hosts {
            games += u64::from(self.games_at_home(cells, TeamId(*host), slot));
        }
        games
    }

    /// The games of the meetings of one home team in one slot.
    fn games_at_home(&self, cells: &Cells, host: TeamId, slot: SlotId) -> u32
        requires few { cells.now.n ≤ 40 }
        requires host { host.0 < cells.now.n }
        requires slot { slot.0 < slot_count cells.now.n }
        ensures games { result ≡ games_of (table_counts cells.now)
            (filter (is_between self.now.side self.now.teams1 self.now.teams2) (meetings_at_home cells.now.n host.0))
            (slot.0 ∷ []) }
        ensures at_most { result ≤ 400000 }
    {
        match cells.place(host, slot) {
            Some(place) => self.games_in_place(host, place),
            None => self.games_with_each(cells, host, slot),
        }
    }

    /// The game of a home team that stands in its place, where it is of these meetings.
    fn games_in_place(&self, host: TeamId, place: Place) -> u32
        ensures games { (n : ℕ) (m : Counts) (s : ℕ) → ((j : ℕ) → m host.0 j s ≡ (if hosts place j then 1 else 0))
            → ((j : ℕ) → hosts place j ≡ true → j < n) → result ≡ games_of m
            (filter (is_between self.now.side self.now.teams1 self.now.teams2) (meetings_at_home n host.0)) (s ∷ []) }
        ensures at_most { result ≤ 1 }
    {
        match place {
            Place::Home(guest) => self.one_game(host, guest),
            Place::Free => 0,
            Place::Away(_) => 0,
        }
    }

    /// One game, where it is of these meetings.
    fn one_game(&self, host: TeamId, guest: TeamId) -> u32
        ensures games { result ≡ counted self.now.side self.now.teams1 self.now.teams2 host.0 guest.0 }
        ensures at_most { result ≤ 1 }
    {
        if guest.0 != host.0 && self.meet(host, guest) {
            1
        } else {
            0
        }
    }

    /// The games of the meetings of one home team in one slot, looked up for each guest.
    fn games_with_each(&self, cells: &Cells, host: TeamId, slot: SlotId) -> u32
        requires few { cells.now.n ≤ 40 }
        requires host { host.0 < cells.now.n }
        requires slot { slot.0 < slot_count cells.now.n }
        ensures games { result ≡ games_of (table_counts cells.now)
            (filter (is_between self.now.side self.now.teams1 self.now.teams2) (meetings_at_home cells.now.n host.0))
            (slot.0 ∷ []) }
        ensures at_most { result ≤ 400000 }
    {
        let mut games: u32 = 0;
        for guest in 0..cells.n() {
            let played = cells.at(host, TeamId(guest), slot);
            if played > 0 {
                games += self.one_game(host, TeamId(guest)) * played;
            }
        }
        games
    }
}
