//! Moves of a league's canonical season, and tallies beside them.
//!
//! - `edit MOVE`, as `edit HomeSwap 0 3`, shows whether a move is legal, and the games that it takes out and puts in.
//! - `walked N` tries all moves on the board N moves away from that of the season, each twice, and holds the season
//!   after it against a count of the whole season.
//! - `weigh MOVE` shows what a tally keeps before a move, what it weighs, what it keeps after the move, and after it was
//!   taken back. `moves` says of each legal move whether a tally weighs and keeps what a fresh count of the season gives.
//! - `descend N` goes down by at most N moves, each of which keeps the two phases.
pub mod boards;
mod counting;
mod swaps;
mod tallied;
mod tried;
mod walked;

use circle_method::double;
use league::League;
use moves::{Board, Edit};
use std::io;

/// Shows something of a league, on its board or beside its tally.
pub fn show(rt: &HostRuntime, league: &League, kind: &str, asked: &str) -> io::Result<()> {
    let season = double(rt.alloc(), league.n())?;
    let mut board = Board::new(rt.alloc(), league.n(), league.phased(), &season)?;
    let mut edit = Edit::new(rt.alloc(), league.n())?;
    match kind {
        "edit" => boards::show_edit(rt, &board, &mut edit, asked),
        "walked" => walked::show(rt, league, &mut board, &mut edit, asked),
        "descend" => tallied::show_descent(rt, league, &season, asked),
        _ => tallied::show_moves(rt, league, &season, &board, &mut edit, asked),
    }
}
