//! Sums of games that several classes take.
ghost use Rattle.std.specs.Prelude.{◌≡◌, ◌<◌, ◌≤◌, length};
ghost use Rattle.std.specs.List.{All, sum_by};
ghost use Rattle.league.specs.Counts.{slot_count};
ghost use Rattle.league.specs.Venues.{games_on};
ghost use Rattle.rule_core.specs.Table.{table_counts};

use league::{Side, SlotId, TeamId};
use rule_core::Cells;

/// The games of a team on a side, in some slots: as many look-ups as there are slots, or twice as many for both sides.
pub(crate) fn games_in(cells: &Cells, side: Side, team: TeamId, slots: &[u16]) -> u64
    requires team { team.0 < cells.now.n }
    requires slots { All (λ s. s < slot_count cells.now.n) slots.now }
    requires few { length slots.now ≤ 78 }
    ensures { result ≡ sum_by (λ s. games_on cells.now.n (table_counts cells.now) side team.0 s) slots.now }
{
    let mut games: u64 = 0;
    for slot in slots {
        games += u64::from(games_at(cells, side, team, SlotId(*slot)));
    }
    games
}

/// The games of a team on a side, in a slot.
fn games_at(cells: &Cells, side: Side, team: TeamId, slot: SlotId) -> u32
    requires team { team.0 < cells.now.n }
    requires slot { slot.0 < slot_count cells.now.n }
    ensures games { result ≡ games_on cells.now.n (table_counts cells.now) side team.0 slot.0 }
    ensures at_most { result ≤ 800000 }
{
    match side {
        Side::H => cells.home(team, slot),
        Side::A => cells.away(team, slot),
        Side::Both => cells.home(team, slot) + cells.away(team, slot),
    }
}
