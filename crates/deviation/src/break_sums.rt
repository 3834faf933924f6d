//! Sums of breaks.
ghost use Rattle.std.specs.Prelude.{◌≡◌, ℕ, ◌<◌, ◌≤◌, ◌^◌, nat_lt, if◌then◌else◌, length};
ghost use Rattle.std.specs.Int.{bit_at};
ghost use Rattle.std.specs.List.{All, sum_by};
ghost use Rattle.league.specs.Breaks as breaks;
ghost use Rattle.league.specs.Breaks.{breaks_among, twice_in_a_row};
ghost use Rattle.league.specs.Counts.{slot_count};
ghost use Rattle.league.specs.declared.class.Side.TheVariants.{A, H};
ghost use Rattle.rule_core.specs.Table.{table_counts};

use crate::scope::Scope;
use league::{Side, TeamId};
use rule_core::Cells;

/// The breaks of some teams on both sides, at the slots: two look-ups for each team.
pub(crate) fn all_breaks(cells: &Cells, teams: &[u16], scope: &Scope) -> u64
    requires teams { All (λ t. t < cells.now.n) teams.now }
    requires few_teams { length teams.now ≤ 78 }
    requires slots { All (λ s. s < slot_count cells.now.n) scope.now.slots }
    ensures { result ≡ breaks.all_breaks cells.now.n (table_counts cells.now) teams.now scope.now.slots }
{
    let mut breaks: u64 = 0;
    for team in teams {
        breaks += team_breaks(cells, Side::Both, TeamId(*team), scope);
    }
    breaks
}

/// The breaks of a team on a side, at the slots: one look-up, or two for both sides.
pub(crate) fn team_breaks(cells: &Cells, side: Side, team: TeamId, scope: &Scope) -> u64
    requires team { team.0 < cells.now.n }
    requires slots { All (λ s. s < slot_count cells.now.n) scope.now.slots }
    ensures breaks { result ≡ breaks_among cells.now.n (table_counts cells.now) side scope.now.slots team.0 }
    ensures at_most { result ≤ 156 }
{
    match side {
        Side::H => home_breaks(cells, team, scope),
        Side::A => away_breaks(cells, team, scope),
        Side::Both => home_breaks(cells, team, scope) + away_breaks(cells, team, scope),
    }
}

/// The home breaks of a team at the slots.
fn home_breaks(cells: &Cells, team: TeamId, scope: &Scope) -> u64
    requires team { team.0 < cells.now.n }
    requires slots { All (λ s. s < slot_count cells.now.n) scope.now.slots }
    ensures breaks { result ≡ breaks_among cells.now.n (table_counts cells.now) H scope.now.slots team.0 }
    ensures at_most { result ≤ 78 }
{
    breaks_of(cells.home_slots(team), scope)
}

/// The away breaks of a team at the slots.
fn away_breaks(cells: &Cells, team: TeamId, scope: &Scope) -> u64
    requires team { team.0 < cells.now.n }
    requires slots { All (λ s. s < slot_count cells.now.n) scope.now.slots }
    ensures breaks { result ≡ breaks_among cells.now.n (table_counts cells.now) A scope.now.slots team.0 }
    ensures at_most { result ≤ 78 }
{
    breaks_of(cells.away_slots(team), scope)
}

/// At how many of the slots there are games, as there are in the slot before: a bit of `played` is set for each slot
/// with games.
fn breaks_of(played: u128, scope: &Scope) -> u64
    requires small { played < 2 ^ 78 }
    ensures breaks { (season : ℕ) (games : ℕ → ℕ) → All (λ s. s < season) scope.now.slots
        → ((s : ℕ) → s < season → bit_at played s ≡ (if nat_lt 0 (games s) then 1 else 0))
        → result ≡ sum_by (λ s. if twice_in_a_row games s then 1 else 0) scope.now.slots }
    ensures at_most { result ≤ 78 }
{
    let twice = played & (played << 1);
    u64::from((twice & scope.bits).count_ones())
}
