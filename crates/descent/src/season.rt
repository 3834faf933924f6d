//! The games of a double round robin that is given by its counts.
ghost use Rattle.std.specs.Prelude.{◌≡◌, ◌≢◌, ℕ, ◌+◌, ◌<◌, ◌≤◌, ◌&&◌, ◌==◌, if◌then◌else◌, nat_lt, Bool, IfOk, OnOk};
ghost use Rattle.std.specs.List.{All};
ghost use Rattle.league.specs.Counts.{counts_of};
ghost use Rattle.league.specs.Instance.{IsGame};
ghost use Rattle.league.specs.Order.{IsInOrder};
ghost use Rattle.league.specs.Structure.{IsRoundRobin};
ghost use Rattle.rule_core.specs.Table.{table_counts};
ghost use Rattle.descent.specs.Walks.{AreSingle};

use league::{Game, Schedule, SlotId, TeamId};
use rule_core::Cells;
use std::alloc::{AllocError, Global};

/// The games of a double round robin in order, each as often as it is counted.
///
/// # Errors
/// Only where memory runs out.
pub fn season_of(alloc: Global, phased: bool, cells: &Cells) -> Result<Schedule, AllocError>
    requires round_robin { IsRoundRobin cells.now.n phased (table_counts cells.now) }
    ensures counts { IfOk result (λ games. counts_of games ≡ table_counts cells.now) }
    ensures fit { IfOk result (λ games. All (IsGame cells.now.n) games) }
    ensures in_order { IfOk result IsInOrder }
{
    let _games = cells.games();
    let mut games = Schedule::new(alloc);
    for home in 0..cells.n() {
        add_home_games(&mut games, cells, TeamId(home))?;
    }
    games.put_in_order();
    Ok(games)
}

/// Adds the home games of a team.
fn add_home_games(games: &mut Schedule, cells: &Cells, home: TeamId) -> Result<(), AllocError>
    requires home { home.0 < cells.now.n }
    requires single { AreSingle (table_counts cells.now) }
    requires fit { All (IsGame cells.now.n) games.old }
    ensures counts { OnOk result ((i j s : ℕ) → counts_of games.new i j s
        ≡ counts_of games.old i j s + (if i == home.0 then table_counts cells.now i j s else 0)) }
    ensures fit { OnOk result (All (IsGame cells.now.n) games.new) }
{
    for away in 0..cells.n() {
        if away != home.0 {
            add_meeting(games, cells, home, TeamId(away))?;
        }
    }
    Ok(())
}

/// Adds the game of two teams at the first one's home.
fn add_meeting(
    games: &mut Schedule,
    cells: &Cells,
    home: TeamId,
    away: TeamId,
) -> Result<(), AllocError>
    requires home { home.0 < cells.now.n }
    requires away { away.0 < cells.now.n }
    requires differ { home.0 ≢ away.0 }
    requires single { AreSingle (table_counts cells.now) }
    requires fit { All (IsGame cells.now.n) games.old }
    ensures counts { OnOk result ((i j s : ℕ) → counts_of games.new i j s
        ≡ counts_of games.old i j s + (if (i == home.0) && (j == away.0) then table_counts cells.now i j s else 0)) }
    ensures fit { OnOk result (All (IsGame cells.now.n) games.new) }
{
    for slot in 0..cells.slots() {
        let in_slot = SlotId(slot);
        if cells.at(home, away, in_slot) == 1 {
            games.push(Game {
                home,
                away,
                slot: in_slot,
            })?;
        }
    }
    Ok(())
}
