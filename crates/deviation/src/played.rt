//! The home games that teams have played after each of some slots, and by how much one has played more.
ghost use Rattle.std.specs.Prelude.{◌≡◌, ◌≢◌, ℕ, ◌<◌, ◌≤◌, length};
ghost use Rattle.std.specs.List.{All};
ghost use Rattle.std.specs.Ordering.{nat_cmp};
ghost use Rattle.league.specs.Bounds.{difference};
ghost use Rattle.league.specs.Counts.{Counts, slot_count};
ghost use Rattle.league.specs.Fairness.{fa2_entry};
ghost use Rattle.league.specs.Grid.{entry};
ghost use Rattle.league.specs.Sets.{IsAscending};
ghost use Rattle.rule_core.specs.Table.{table_counts};
ghost use Rattle.deviation.specs.Played.{IsPlayed};

use crate::leads::homes_in;
use league::TeamId;
use rule_core::Cells;

/// Writes the home games that each of some teams has played after each of these slots into its row of a table with 40
/// rows of 78 columns.
pub(crate) fn fill_played(cells: &Cells, teams: &[u16], slots: &[u16], played: &mut [u32; 3120])
    requires teams { All (λ t. t < cells.now.n) teams.now }
    requires few { cells.now.n ≤ 40 }
    requires ascending { IsAscending nat_cmp slots.now }
    requires slots { All (λ s. s < slot_count cells.now.n) slots.now }
    requires few_slots { length slots.now ≤ 78 }
    ensures played { All (λ t. IsPlayed cells.now.n (table_counts cells.now) slots.now played.new t) teams.now }
{
    for team in teams {
        fill_row(cells, TeamId(*team), slots, played);
    }
}

/// Writes the home games that a team has played after each of these slots into its row of the table.
fn fill_row(cells: &Cells, team: TeamId, slots: &[u16], played: &mut [u32; 3120])
    requires team { team.0 < cells.now.n }
    requires few { cells.now.n ≤ 40 }
    requires ascending { IsAscending nat_cmp slots.now }
    requires slots { All (λ s. s < slot_count cells.now.n) slots.now }
    requires few_slots { length slots.now ≤ 78 }
    ensures played { IsPlayed cells.now.n (table_counts cells.now) slots.now played.new team.0 }
    ensures others { (i q : ℕ) → i ≢ team.0 → entry played.new i q ≡ entry played.old i q }
{
    let mut games: u32 = 0;
    let mut next: u16 = 0;
    for (place, slot) in slots.iter().enumerate() {
        let end = *slot + 1;
        games += homes_in(cells, team, next, end);
        next = end;
        played[team.0 as usize * 78 + place] = games;
    }
}

/// The largest difference of the home games that two teams have played after one of these slots, beyond a bound, by
/// their rows of the table. The bound comes off once, after the largest.
pub(crate) fn lead_in_rows(
    played: &[u32; 3120],
    first: TeamId,
    second: TeamId,
    intp: u32,
    slots: &[u16],
) -> u64
    requires first { first.0 < 40 }
    requires second { second.0 < 40 }
    requires few_slots { length slots.now ≤ 78 }
    ensures { (n : ℕ) (m : Counts) → IsPlayed n m slots.now played.now first.0
        → IsPlayed n m slots.now played.now second.0 → result ≡ fa2_entry n m intp slots.now (first.0, second.0) }
{
    let mut most: u32 = 0;
    for place in 0..slots.len() {
        let first_played = played[first.0 as usize * 78 + place];
        let second_played = played[second.0 as usize * 78 + place];
        most = most.max(gap(first_played, second_played));
    }
    u64::from(most.saturating_sub(intp))
}

/// The difference of two numbers of games, whichever is larger.
fn gap(first: u32, second: u32) -> u32
    ensures { result ≡ difference first second }
{
    first.abs_diff(second)
}
