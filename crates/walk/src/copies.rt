//! The games of a board as a list, in room that is reserved once.
ghost use Rattle.std.specs.Prelude.{◌≡◌, ◌≢◌, ℕ, ◌+◌, ◌*◌, ◌<◌, ◌≤◌, ◌&&◌, ◌==◌, if◌then◌else◌, length, vec_capacity, IfOk};
ghost use Rattle.std.specs.List.{All};
ghost use Rattle.league.specs.Counts.{counts_of};
ghost use Rattle.league.specs.Instance.{IsGame};
ghost use Rattle.moves.specs.Round.{round_counts};
ghost use Rattle.walk.specs.Standing.{IsCopyOf};

use league::{Game, TeamId};
use moves::Board;
use std::alloc::{AllocError, Global};

/// A list with room for the games of a league of n teams.
///
/// # Errors
/// Only where memory runs out.
pub(crate) fn room_for_games(alloc: Global, n: u16) -> Result<Vec<Game>, AllocError>
    ensures { IfOk result (λ games. n * n ≤ vec_capacity games) }
{
    let games = Vec::with_capacity(alloc, n as usize * n as usize)?;
    Ok(games)
}

/// Makes a list the games of a board, each once. It takes no memory.
pub(crate) fn copy_games(board: &Board, games: &mut Vec<Game>)
    requires room { board.now.n * board.now.n ≤ vec_capacity games.old }
    ensures room { vec_capacity games.new ≡ vec_capacity games.old }
    ensures copy { IsCopyOf board.now.n board.now.phased (round_counts board.now) games.new.items }
{
    let _phased = board.phased();
    games.clear();
    for home in 0..board.n() {
        add_home_games(board, TeamId(home), games);
    }
}

/// Adds the home games of a team.
fn add_home_games(board: &Board, home: TeamId, games: &mut Vec<Game>)
    requires home { home.0 < board.now.n }
    requires room { length games.old.items + board.now.n ≤ vec_capacity games.old }
    requires fit { All (IsGame board.now.n) games.old.items }
    ensures room { vec_capacity games.new ≡ vec_capacity games.old }
    ensures few { length games.new.items ≤ length games.old.items + board.now.n }
    ensures fit { All (IsGame board.now.n) games.new.items }
    ensures counts { (i j s : ℕ) → counts_of games.new.items i j s
        ≡ counts_of games.old.items i j s + (if i == home.0 then round_counts board.now i j s else 0) }
{
    for away in 0..board.n() {
        if away != home.0 {
            add_game(board, home, TeamId(away), games);
        }
    }
}

/// Adds the game of two teams at the first one's home.
fn add_game(board: &Board, home: TeamId, away: TeamId, games: &mut Vec<Game>)
    requires home { home.0 < board.now.n }
    requires away { away.0 < board.now.n }
    requires differ { home.0 ≢ away.0 }
    requires room { length games.old.items < vec_capacity games.old }
    requires fit { All (IsGame board.now.n) games.old.items }
    ensures room { vec_capacity games.new ≡ vec_capacity games.old }
    ensures few { length games.new.items ≡ length games.old.items + 1 }
    ensures fit { All (IsGame board.now.n) games.new.items }
    ensures counts { (i j s : ℕ) → counts_of games.new.items i j s ≡ counts_of games.old.items i j s
        + (if (i == home.0) && (j == away.0) then round_counts board.now i j s else 0) }
{
    let slot = board.slot_of(home, away);
    games.push_reserved(Game { home, away, slot });
}
