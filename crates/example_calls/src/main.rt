//! Worked calls of lower crates, whose transcript is compared with the file `stdout`: what no clause says of them (that
//! they succeed where memory is ample, what the machine does, and what is printed), and what is worked out by hand or
//! counted afresh.
//!
//! Each line of standard input is written, and then what it asks for: first lines of devices (`devices`), then of moves
//! (`canonical`), of leagues' rows (`encoded`), and of rows and searches (`searches`). `FILE: WHAT` asks for something of
//! the league of a file of `data`, of moves or of its rows. Another line begins with what it asks for. Any other line is
//! a title.
//!
//! Behind the first word `|` stands for LF, and `FRONT*N*PIECE*BACK` for a piece that stands N times between a front and
//! a back.
#![tactic(auto)]

mod canonical;
mod devices;
mod encoded;
mod leagues;
mod searches;
mod telling;

use decoding::laws::faithful;
use moves::laws::{least_sets, undo};
use std::io;
use telling::text_of;

/// Follows the lines of standard input.
fn main(rt: HostRuntime) -> io::Result<()> {
    faithful();
    least_sets();
    undo();
    for line in rt.lines(rt.alloc()) {
        follow(&rt, line?.as_str())?;
    }
    Ok(())
}

/// Writes a line, and shows what it asks for.
fn follow(rt: &HostRuntime, line: &str) -> io::Result<()> {
    println!(rt; "{line}")?;
    let (name, words) = line.split_once(' ').unwrap_or((line, ""));
    let asked = text_of(rt.alloc(), words)?;
    call(rt, name, asked.as_str())
}

/// Shows what is asked of a league, of rows and searches, or of a device.
fn call(rt: &HostRuntime, name: &str, asked: &str) -> io::Result<()> {
    if let Some(file) = name.strip_suffix(':') {
        return leagues::show(rt, file, asked);
    }
    match name {
        "rows" => searches::show_rows(rt),
        "search" | "planes" => searches::show(rt, name, asked),
        _ => devices::follow(rt, name, asked),
    }
}
