//! Files that are put together, cut out of others, and cut short.
use crate::ended::{Ended, run_words};
use std::alloc::AllocError;
use std::{fs, io};

/// Writes a file of the texts of files one behind the other, `A N*B C`: that of a name with a number so many times.
pub fn join(rt: &HostRuntime, names: &str, made: &str) -> io::Result<()> {
    let mut text = String::new(rt.alloc());
    push_files(rt, names, &mut text)?;
    fs::write(rt, made, text.as_str())
}

/// Adds the texts of files to a text.
fn push_files(rt: &HostRuntime, names: &str, text: &mut String) -> io::Result<()> {
    for name in names.split(' ') {
        let (count, name) = name.split_once('*').unwrap_or(("1", name));
        let piece = fs::read_to_string(rt, name)?;
        push_times(text, piece.as_str(), count)?;
    }
    Ok(())
}

/// Adds a piece to a text, so many times.
fn push_times(text: &mut String, piece: &str, count: &str) -> Result<(), AllocError> {
    for _ in 0..count.parse::<u32>().unwrap_or(0) {
        text.push_str(piece)?;
    }
    Ok(())
}

/// Writes a file of lines of another, `NAME after FIRST to LAST`: those behind the first line with FIRST, up to the next
/// that ends with LAST.
pub fn cut(rt: &HostRuntime, asked: &str, made: &str) -> io::Result<()> {
    let (name, ends) = asked.split_once(" after ").unwrap_or((asked, ""));
    let (first, last) = ends.split_once(" to ").unwrap_or((ends, ""));
    let text = fs::read_to_string(rt, name)?;
    let lines = lines_between(text.as_str(), first, last);
    let piece = format!(in rt.alloc(); "{lines}{last}\n")?;
    fs::write(rt, made, piece.as_str())
}

/// What lies behind the first line with a mark, before the next end.
fn lines_between<'t>(text: &'t str, mark: &str, end: &str) -> &'t str {
    let (_, rest) = text.split_once(mark).unwrap_or((text, ""));
    let (_, rest) = rest.split_once('\n').unwrap_or((rest, ""));
    let (lines, _) = rest.split_once(end).unwrap_or(("", rest));
    lines
}

/// Shows what `validate` answers to each front of a league's file but the whole, where it isn't what it answers to the
/// front before it. Without its last line feed the file says the same.
pub fn show_fronts(rt: &HostRuntime, files: &str) -> io::Result<()> {
    let (league, season) = files.split_once(' ').unwrap_or((files, ""));
    let bytes = fs::read(rt, league)?;
    let mut last = String::new(rt.alloc());
    follow_fronts(rt, season, &bytes, &mut last)
}

/// Shows what is answered to each front of these bytes, where it isn't the last answer.
fn follow_fronts(
    rt: &HostRuntime,
    season: &str,
    bytes: &[u8],
    last: &mut String,
) -> io::Result<()> {
    for len in 0..bytes.len() {
        fs::write(rt, "front", &bytes[..len])?;
        show_front(rt, season, len, last)?;
    }
    Ok(())
}

/// Shows what is answered to the front that is written, if it isn't the last answer, and keeps it as the last.
fn show_front(rt: &HostRuntime, season: &str, len: usize, last: &mut String) -> io::Result<()> {
    let ended = run_words(rt, "validate", "front", season)?;
    show_changed(rt, &ended, len, last)
}

/// Shows an answer to a front of so many bytes, if it isn't the last answer, and keeps it as the last.
fn show_changed(rt: &HostRuntime, ended: &Ended, len: usize, last: &mut String) -> io::Result<()> {
    if ended.text() == last.as_str() {
        return Ok(());
    }
    println!(rt; "the front of {len} bytes")?;
    ended.show(rt)?;
    last.clear();
    Ok(last.push_str(ended.text())?)
}
