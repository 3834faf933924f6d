//! Rows of leagues of four teams, as the rules give them, a league whose rows have too many terms, and a season read
//! back from its shadow. A variable is shown by its name, with its teams and slot, and a row as its sum and what that
//! is at least.
//!
//! - `size` shows how many variables and rows there are, `row N` and `variable N` show one of them. `conflicts` shows
//!   which rows are in conflict alone.
//! - `breaks of SEASON` shows which breaks a season's shadow has, `games of SEASON` which games are decoded from it. The
//!   season `nothing` makes no variable true.
mod lines;
mod seasons;

use encoding::{Encoding, encode};
use league::League;
use std::io;

/// Shows something of the encoding of a league, or why there is none.
pub fn show(rt: &HostRuntime, league: &League, kind: &str, asked: &str) -> io::Result<()> {
    match encode(rt.alloc(), league) {
        Ok(encoding) => show_of(rt, &encoding, kind, asked),
        Err(fault) => println!(rt; "{fault}"),
    }
}

/// Shows something of an encoding: a row or a variable by its number, and whatever is named otherwise.
fn show_of(rt: &HostRuntime, encoding: &Encoding, kind: &str, asked: &str) -> io::Result<()> {
    match kind {
        "size" => lines::show_size(rt, encoding),
        "row" => lines::show_row(rt, encoding, asked.parse::<usize>().unwrap_or(0)),
        "variable" => lines::show_variable(rt, encoding, asked.parse::<u32>().unwrap_or(0)),
        "conflicts" => lines::show_conflicts(rt, encoding),
        _ => seasons::show(rt, encoding, kind, asked),
    }
}
