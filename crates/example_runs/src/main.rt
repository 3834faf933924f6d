//! The examples of the whole program, and their transcript, which is compared with the file `stdout`.
//!
//! A line of standard input is the words of a command, one space between two; an empty line has no words. It is run
//! over the files of the folder `data`, and the transcript has the command, its text, its exit status and what a person
//! is told beside it. A line that begins with `# ` is a title.
//!
//! What is shown of an answer:
//! - `COMMAND > NAME` shows the status alone and writes the text into a file, which later lines name.
//! - `COMMAND | N` shows the first N lines and the status, `COMMAND | words` the lines that begin with a small letter,
//!   `COMMAND | lines` how many lines there are.
//! - Behind `solve`, `| judged` shows what the answer comes to where `validate` or `check` looks at it, and `| true`
//!   only that it is what its status says. Behind `prove`, `| least` goes on from each better season to the least
//!   objective.
//! - `COMMAND @ CALL` runs the command over a store in memory that fails at this call. `COMMAND @ 0 PUT PIECE` writes
//!   into a sink that fails at this put and takes at most so many bytes a put.
//! - `fronts LEAGUE SEASON` shows what `validate` answers to each front of the league's file.
//! - `first-plan LEAGUE` shows the plan that `resume` finds before it is made better.
//!
//! Files that lines make of others:
//! - `join A N*B C > NAME`: texts one behind the other, a text with a number so many times.
//! - `cut NAME after FIRST to LAST > PIECE`: the lines of a text behind the first with FIRST, up to the next
//!   that ends with LAST.
//!
//! After the lines comes what no command shows: the bytes of a counter of steps, and a season with its score.
//!
//! Beside the runs stand worked examples of definitions, the facts of `proofs/`, a file a topic, with the reasoning by
//! hand beside each: of rows, encodings, logs, search, moves, parts, bounds and played seasons, and of what answers mean
//! and write. The values were computed by hand, each checked against the definition. A definition that says something
//! else doesn't pass.
#![tactic(auto)]

mod answered;
mod ended;
mod files;
mod line;
mod plans;

use league::{Game, Schedule, SlotId, TeamId};
use robinx::solution_text;
use rule_core::{Plain, Steps};
use std::io;
use std::mem::size_of;

/// Follows the lines of standard input, and then shows the other examples.
fn main(rt: HostRuntime) -> io::Result<()> {
    for line in rt.lines(rt.alloc()) {
        line::follow(&rt, line?.as_str())?;
    }
    println!(rt;
        "bytes of a counter of steps: {}",
        size_of::<Steps<Plain>>()
    )?;
    show_scored(&rt)
}

/// Shows a season of two games of forty teams, not in order, with a score that needs 128 bits.
fn show_scored(rt: &HostRuntime) -> io::Result<()> {
    let mut season = Schedule::new(rt.alloc());
    for (home, away, slot) in [(39, 0, 77), (1, 2, 0)] {
        season.push(Game {
            home: TeamId(home),
            away: TeamId(away),
            slot: SlotId(slot),
        })?;
    }
    let text = solution_text(rt.alloc(), &season, Some((3, u128::MAX)))?;
    let text = str::from_utf8(&text).unwrap_or("no text");
    print!(rt; "a season with its score\n{text}")
}
