//! The leagues of files.
use crate::{canonical, encoded};
use league::League;
use robinx::{INSTANCE_LIMIT, read_instance};
use std::{fs, io};

/// Shows something of the league of a file: moves of its season, or its rows.
pub fn show(rt: &HostRuntime, file: &str, asked: &str) -> io::Result<()> {
    let bytes = fs::read(rt, file)?;
    let few = bytes.len().min(INSTANCE_LIMIT);
    match read_instance(rt.alloc(), &bytes[..few]) {
        Ok(league) => show_of(rt, &league, asked),
        Err(_) => println!(rt; "no league"),
    }
}

/// Shows something of a league.
fn show_of(rt: &HostRuntime, league: &League, asked: &str) -> io::Result<()> {
    let (kind, words) = asked.split_once(' ').unwrap_or((asked, ""));
    match kind {
        "edit" | "walked" | "weigh" | "moves" | "descend" => {
            canonical::show(rt, league, kind, words)
        }
        _ => encoded::show(rt, league, kind, words),
    }
}
