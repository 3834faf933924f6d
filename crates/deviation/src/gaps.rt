//! What the slots between the games of two teams lack.
ghost use Rattle.std.specs.Prelude.{◌≡◌, ◌<◌, ◌≤◌, ◌+◌, ◌*◌, ◌++◌, IfSome, replicate, if◌then◌else◌};
ghost use Rattle.std.specs.Option.{option_to_list};
ghost use Rattle.league.specs.Counts.{slot_count};
ghost use Rattle.league.specs.Separation.{lacking, se1_entry};
ghost use Rattle.rule_core.specs.Places.{hosts, visits};
ghost use Rattle.rule_core.specs.Table.{table_counts};

use league::{SlotId, TeamId};
use rule_core::{Cells, Place};

/// What the slots between neighbouring games of two teams lack of `min`, summed. It is one pass over the slots, with
/// one look-up each where no team has several games in a slot, and keeps the slot of the last game alone.
pub(crate) fn lacking(cells: &Cells, first: TeamId, second: TeamId, min: u32) -> u64
    requires first { first.0 < cells.now.n }
    requires second { second.0 < cells.now.n }
    ensures { result ≡ se1_entry cells.now.n (table_counts cells.now) min (first.0, second.0) }
{
    let mut total: u64 = 0;
    let mut last: Option<u16> = None;
    for slot in 0..cells.slots() {
        let games = games_at(cells, first, second, SlotId(slot));
        if games > 0 {
            total += lacking_at(last, slot, games, min);
            last = Some(slot);
        }
    }
    total
}

/// What is lacking between the last game before a slot, if there is one, and the games in it, and between these.
pub(crate) fn lacking_at(last: Option<u16>, slot: u16, games: u32, min: u32) -> u64
    requires last { IfSome last (λ before. before < slot) }
    requires some { 0 < games }
    requires few { games ≤ 20000 }
    ensures lacking { result ≡ lacking min (option_to_list last ++ replicate games slot) }
    ensures at_most { result ≤ 20000 * 4294967296 }
{
    let before = match last {
        Some(before) => min.saturating_sub((slot - before - 1) as u32),
        None => 0,
    };
    before as u64 + (games - 1) as u64 * min as u64
}

/// How often two teams play each other in a slot: one look-up, unless the first has several games in it.
pub(crate) fn games_at(cells: &Cells, first: TeamId, second: TeamId, slot: SlotId) -> u32
    requires first { first.0 < cells.now.n }
    requires second { second.0 < cells.now.n }
    requires slot { slot.0 < slot_count cells.now.n }
    ensures games { result ≡ table_counts cells.now first.0 second.0 slot.0
        + table_counts cells.now second.0 first.0 slot.0 }
    ensures at_most { result ≤ 20000 }
{
    match cells.place(first, slot) {
        Some(place) => games_in(place, second),
        None => cells.at(first, second, slot) + cells.at(second, first, slot),
    }
}

/// How often a team in a place plays another: once or never.
fn games_in(place: Place, other: TeamId) -> u32
    ensures games { result ≡ (if hosts place other.0 then 1 else 0) + (if visits place other.0 then 1 else 0) }
    ensures at_most { result ≤ 1 }
{
    match place {
        Place::Free => 0,
        Place::Home(guest) => once_if(guest.0 == other.0),
        Place::Away(host) => once_if(host.0 == other.0),
    }
}

/// Once where it holds, and else never.
fn once_if(holds: bool) -> u32
    ensures once { result ≡ (if holds then 1 else 0) }
    ensures at_most { result ≤ 1 }
{
    if holds { 1 } else { 0 }
}
