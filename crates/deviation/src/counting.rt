//! The counts of a schedule.
ghost use Rattle.std.specs.Prelude.{◌≡◌, ◌≤◌, length, IfOk};
ghost use Rattle.std.specs.List.{All, sum};
ghost use Rattle.league.specs.Counts.{counts_of};
ghost use Rattle.league.specs.Instance.{IsGame, IsTeamCount};
ghost use Rattle.rule_core.specs.Table.{table_counts};

use league::Game;
use rule_core::Cells;
use std::alloc::{AllocError, Global};

/// The counts of at most 10,000 games of a league of n teams.
///
/// # Errors
/// Only where memory runs out.
pub fn counted(alloc: Global, n: u16, games: &[Game]) -> Result<Cells, AllocError>
    requires teams { IsTeamCount n }
    requires few { length games.now ≤ 10000 }
    requires fit { All (IsGame n) games.now }
    ensures n { IfOk result (λ cells. cells.n ≡ n) }
    ensures counts { IfOk result (λ cells. table_counts cells ≡ counts_of games.now) }
    ensures total { IfOk result (λ cells. sum cells.list ≡ length games.now) }
{
    let mut cells = Cells::new(alloc, n)?;
    for game in games {
        cells.add(*game);
    }
    Ok(cells)
}
