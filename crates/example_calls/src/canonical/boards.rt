//! Moves on boards.
ghost use Rattle.std.specs.Prelude.{◌≡◌, ℕ, ◌≤◌, true};
ghost use Rattle.std.specs.List.{All};
ghost use Rattle.league.specs.Counts.{counts_of};
ghost use Rattle.league.specs.Instance.{IsGame};
ghost use Rattle.league.specs.Structure.{IsRoundRobin};
ghost use Rattle.moves.specs.Round.{edited, round_counts};

use crate::canonical::swaps::{is_of_league, step_of};
use league::Game;
use moves::{Board, Edit, Swap, edit_of};
use std::io;

/// Shows what is answered to a move, and the games that it takes out and puts in.
pub fn show_edit(rt: &HostRuntime, board: &Board, edit: &mut Edit, asked: &str) -> io::Result<()>
    requires { edit.old.n ≡ board.now.n }
{
    if !is_legal(board, step_of(asked), edit) {
        return println!(rt; "  not legal");
    }
    println!(rt; "  legal")?;
    show_games(rt, "  out ", edit.out())?;
    show_games(rt, "  into ", edit.into_games())
}

/// Shows games, each behind a front by home team, away team and slot.
pub fn show_games(rt: &HostRuntime, front: &str, games: &[Game]) -> io::Result<()> {
    for game in games {
        let (home, away, slot) = (game.home.0, game.away.0, game.slot.0);
        println!(rt; "{front}{home} {away} {slot}")?;
    }
    Ok(())
}

/// Whether a move is one of the board's league and legal. Then the edit is that of the move.
pub fn is_legal(board: &Board, step: Swap, edit: &mut Edit) -> bool
    requires { edit.old.n ≡ board.now.n }
    ensures n { edit.new.n ≡ board.now.n }
    ensures out_fit { result ≡ true → All (IsGame board.now.n) edit.new.out }
    ensures into_fit { result ≡ true → All (IsGame board.now.n) edit.new.into }
    ensures there { result ≡ true → (i j s : ℕ) → counts_of edit.new.out i j s ≤ round_counts board.now i j s }
    ensures round_robin { result ≡ true
        → IsRoundRobin board.now.n board.now.phased (edited (round_counts board.now) edit.new) }
{
    if !is_of_league(board.n(), step) {
        return false;
    }
    edit_of(&step, board, edit)
}

/// Makes a move where it is legal, and says whether it did.
pub fn make(board: &mut Board, step: Swap, edit: &mut Edit) -> bool
    requires { edit.old.n ≡ board.old.n }
    ensures n { board.new.n ≡ board.old.n }
    ensures edit_n { edit.new.n ≡ board.old.n }
{
    if !is_legal(board, step, edit) {
        return false;
    }
    board.apply(edit);
    true
}
