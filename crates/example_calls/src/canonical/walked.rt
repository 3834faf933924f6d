//! All moves on boards some moves away from the canonical ones, each compared with a count of the whole season.
ghost use Rattle.std.specs.Prelude.{◌≡◌};

use crate::canonical::boards::make;
use crate::canonical::counting::{is_round_robin, season_of};
use crate::telling::number_in;
use descent::all_moves;
use league::{League, Schedule};
use moves::{Board, Edit, Swap};
use std::alloc::{AllocError, Global};
use std::io;

/// Shows how many moves there are on a board so many moves away, how many are legal, and how many of these go astray.
pub fn show(
    rt: &HostRuntime,
    league: &League,
    board: &mut Board,
    edit: &mut Edit,
    asked: &str,
) -> io::Result<()>
    requires { edit.old.n ≡ board.old.n }
{
    let moves = all_moves(rt.alloc(), board.n())?;
    walk(board, edit, &moves, number_in(asked).0);
    let season = season_of(rt.alloc(), board)?;
    try_all(rt, league, board, edit, &season, &moves)
}

/// Makes so many moves: at step k the first legal one that stands at a place of the list or later, if there is one.
fn walk(board: &mut Board, edit: &mut Edit, moves: &[Swap], away: usize)
    requires { edit.old.n ≡ board.old.n }
    ensures { edit.new.n ≡ board.new.n }
{
    for k in 0..away {
        let start = k.saturating_mul(53).checked_rem(moves.len()).unwrap_or(0);
        make_first(board, edit, &moves[start.min(moves.len())..]);
    }
}

/// Makes the first legal move of a list, if there is one.
fn make_first(board: &mut Board, edit: &mut Edit, moves: &[Swap])
    requires { edit.old.n ≡ board.old.n }
    ensures { edit.new.n ≡ board.new.n }
{
    for step in moves {
        if make(board, *step, edit) {
            return;
        }
    }
}

/// Tries all moves on the board of a season.
fn try_all(
    rt: &HostRuntime,
    league: &League,
    board: &mut Board,
    edit: &mut Edit,
    season: &Schedule,
    moves: &[Swap],
) -> io::Result<()>
    requires { edit.old.n ≡ board.old.n }
{
    let (mut legal, mut astray) = (0u64, 0u64);
    for step in moves {
        if make(board, *step, edit) {
            let is_good = leads_back(rt.alloc(), league, board, edit, season, *step)?;
            legal = legal.saturating_add(is_good as u64);
            astray = astray.saturating_add(!is_good as u64);
        }
    }
    println!(rt; "  {} moves, {legal} legal, {astray} astray", moves.len())
}

/// Whether the season after a move that was made is a double round robin, and the same move leads back to the season.
fn leads_back(
    alloc: Global,
    league: &League,
    board: &mut Board,
    edit: &mut Edit,
    season: &Schedule,
    step: Swap,
) -> Result<bool, AllocError>
    requires { edit.old.n ≡ board.old.n }
    ensures { edit.new.n ≡ board.new.n }
{
    let is_counted = is_round_robin(alloc, league, season, edit)?;
    let is_made = make(board, step, edit);
    let again = season_of(alloc, board)?;
    Ok(is_counted && is_made && again.games() == season.games())
}
