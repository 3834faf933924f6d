//! By how much one team has played more home games than another.
ghost use Rattle.std.specs.Prelude.{◌≡◌, ◌<◌, ◌≤◌, ◌-◌, ◌*◌};
ghost use Rattle.std.specs.List.{All, range_with_len, sum_by};
ghost use Rattle.std.specs.Ordering.{nat_cmp};
ghost use Rattle.league.specs.Bounds.{difference, excess};
ghost use Rattle.league.specs.Counts.{slot_count};
ghost use Rattle.league.specs.Fairness.{fa2_entry};
ghost use Rattle.league.specs.Sets.{IsAscending};
ghost use Rattle.league.specs.Venues.{home_games};
ghost use Rattle.rule_core.specs.Table.{table_counts};

use league::{SlotId, TeamId};
use rule_core::Cells;

/// The largest difference of the home games that two teams have played after one of these slots, beyond a bound. The
/// games are added up from slot to slot, so that each slot is read once for each team.
pub(crate) fn largest_lead(
    cells: &Cells,
    first: TeamId,
    second: TeamId,
    intp: u32,
    slots: &[u16],
) -> u64
    requires first { first.0 < cells.now.n }
    requires second { second.0 < cells.now.n }
    requires few { cells.now.n ≤ 40 }
    requires ascending { IsAscending nat_cmp slots.now }
    requires slots { All (λ s. s < slot_count cells.now.n) slots.now }
    ensures { result ≡ fa2_entry cells.now.n (table_counts cells.now) intp slots.now (first.0, second.0) }
{
    let mut first_played: u32 = 0;
    let mut second_played: u32 = 0;
    let mut next: u16 = 0;
    let mut most: u32 = 0;
    for slot in slots {
        let end = *slot + 1;
        first_played += homes_in(cells, first, next, end);
        second_played += homes_in(cells, second, next, end);
        next = end;
        most = most.max(lead(first_played, second_played, intp));
    }
    u64::from(most)
}

/// The difference of two numbers of games, whichever is larger, beyond a bound.
fn lead(first: u32, second: u32, intp: u32) -> u32
    ensures { result ≡ excess (difference first second) intp }
{
    first.abs_diff(second).saturating_sub(intp)
}

/// The home games of a team from a slot on, up to another, which isn't counted. They are mostly those of one slot.
pub(crate) fn homes_in(cells: &Cells, team: TeamId, from: u16, end: u16) -> u32
    requires team { team.0 < cells.now.n }
    requires few { cells.now.n ≤ 40 }
    requires ordered { from ≤ end }
    requires end { end ≤ slot_count cells.now.n }
    ensures games { result
        ≡ sum_by (λ s. home_games cells.now.n (table_counts cells.now) team.0 s) (range_with_len from (end - from)) }
    ensures at_most { result ≤ 400000 * (end - from) }
{
    if from + 1 == end {
        return cells.home(team, SlotId(from));
    }
    homes_in_each(cells, team, from, end)
}

/// The home games of a team from a slot on, up to another, which isn't counted, slot by slot.
#[cold]
#[inline(never)]
fn homes_in_each(cells: &Cells, team: TeamId, from: u16, end: u16) -> u32
    requires team { team.0 < cells.now.n }
    requires few { cells.now.n ≤ 40 }
    requires ordered { from ≤ end }
    requires end { end ≤ slot_count cells.now.n }
    ensures games { result
        ≡ sum_by (λ s. home_games cells.now.n (table_counts cells.now) team.0 s) (range_with_len from (end - from)) }
    ensures at_most { result ≤ 400000 * (end - from) }
{
    let mut games: u32 = 0;
    for slot in from..end {
        games += cells.home(team, SlotId(slot));
    }
    games
}
