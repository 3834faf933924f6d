//! The games of many meetings, slot by slot and home team by home team: at most one look-up each.
ghost use Rattle.std.specs.Prelude.{◌≡◌, ℕ, ◌<◌, ◌≤◌, true, if◌then◌else◌, [], ◌∷◌, length};
ghost use Rattle.std.specs.List.{All, sum_by};
ghost use Rattle.league.specs.Counts.{Counts, slot_count, teams_of};
ghost use Rattle.league.specs.Meetings.{games_of};
ghost use Rattle.league.specs.Sets.{IsAscending, pair_cmp};
ghost use Rattle.rule_core.specs.Places.{hosts};
ghost use Rattle.rule_core.specs.Table.{table_counts};
ghost use Rattle.deviation.specs.BySlot.{listed, listed_games};

use league::{SlotId, TeamId};
use rule_core::{Cells, Meetings, Place};

/// The games of a set of meetings in some slots.
pub(crate) fn games_by_slot(meetings: &Meetings, cells: &Cells, slots: &[u16]) -> u64
    requires teams { cells.now.n ≡ meetings.now.n }
    requires few { cells.now.n ≤ 40 }
    requires ascending { IsAscending pair_cmp meetings.now.list }
    requires inside { All (λ p. (p.0 < cells.now.n) × (p.1 < cells.now.n)) meetings.now.list }
    requires slots { All (λ s. s < slot_count cells.now.n) slots.now }
    requires few_slots { length slots.now ≤ 78 }
    ensures { result ≡ games_of (table_counts cells.now) meetings.now.list slots.now }
{
    let mut games: u64 = 0;
    for slot in slots {
        games += games_in_slot(meetings, cells, SlotId(*slot));
    }
    games
}

/// The games of a set of meetings in one slot.
fn games_in_slot(meetings: &Meetings, cells: &Cells, slot: SlotId) -> u64
    requires teams { cells.now.n ≡ meetings.now.n }
    requires few { cells.now.n ≤ 40 }
    requires ascending { IsAscending pair_cmp meetings.now.list }
    requires inside { All (λ p. (p.0 < cells.now.n) × (p.1 < cells.now.n)) meetings.now.list }
    requires slot { slot.0 < slot_count cells.now.n }
    ensures games { result ≡ games_of (table_counts cells.now) meetings.now.list (slot.0 ∷ []) }
    ensures at_most { result ≤ 16000000 }
{
    let mut games: u64 = 0;
    for host in 0..cells.n() {
        games += u64::from(games_at_home(meetings, cells, TeamId(host), slot));
    }
    games
}

/// The games of the meetings of one home team in one slot.
fn games_at_home(meetings: &Meetings, cells: &Cells, host: TeamId, slot: SlotId) -> u32
    requires teams { cells.now.n ≡ meetings.now.n }
    requires few { cells.now.n ≤ 40 }
    requires host { host.0 < cells.now.n }
    requires slot { slot.0 < slot_count cells.now.n }
    ensures games { result ≡ listed_games cells.now.n (table_counts cells.now) meetings.now.list slot.0 host.0 }
    ensures at_most { result ≤ 400000 }
{
    match cells.place(host, slot) {
        Some(place) => games_in_place(meetings, host, place),
        None => games_with_each(meetings, cells, host, slot),
    }
}

/// The game of a home team that stands in its place, where it is of these meetings.
fn games_in_place(meetings: &Meetings, host: TeamId, place: Place) -> u32
    requires host { host.0 < meetings.now.n }
    requires guest { (j : ℕ) → hosts place j ≡ true → j < meetings.now.n }
    ensures games { (m : Counts) (s : ℕ) → ((j : ℕ) → m host.0 j s ≡ (if hosts place j then 1 else 0))
        → result ≡ listed_games meetings.now.n m meetings.now.list s host.0 }
    ensures at_most { result ≤ 1 }
{
    match place {
        Place::Home(guest) => one_game(meetings, host, guest),
        Place::Free => 0,
        Place::Away(_) => 0,
    }
}

/// One game, where it is of these meetings.
fn one_game(meetings: &Meetings, host: TeamId, guest: TeamId) -> u32
    requires host { host.0 < meetings.now.n }
    requires guest { guest.0 < meetings.now.n }
    ensures games { result ≡ listed meetings.now.list host.0 guest.0 }
    ensures at_most { result ≤ 1 }
{
    if meetings.has(host, guest) { 1 } else { 0 }
}

/// The games of the meetings of one home team in one slot, looked up for each guest.
fn games_with_each(meetings: &Meetings, cells: &Cells, host: TeamId, slot: SlotId) -> u32
    requires teams { cells.now.n ≡ meetings.now.n }
    requires few { cells.now.n ≤ 40 }
    requires host { host.0 < cells.now.n }
    requires slot { slot.0 < slot_count cells.now.n }
    ensures games { result ≡ listed_games cells.now.n (table_counts cells.now) meetings.now.list slot.0 host.0 }
    ensures at_most { result ≤ 400000 }
{
    let mut games: u32 = 0;
    for guest in 0..cells.n() {
        games += one_game(meetings, host, TeamId(guest)) * cells.at(host, TeamId(guest), slot);
    }
    games
}
