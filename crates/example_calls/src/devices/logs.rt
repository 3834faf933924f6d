//! Logs that are read in pieces, and logs that are built step by step.
use crate::telling::{number_in, words_of};
use refutation::{Log, LogFault, LogFeed, Part, log_text};
use rows::Lit;
use std::alloc::Global;
use std::io;

/// Reads a log in pieces of a size, and writes it back or says how many steps it has, or says its fault.
pub fn show(rt: &HostRuntime, asked: &str, is_written_back: bool) -> io::Result<()> {
    let (size, text) = number_in(asked);
    let mut log = Log::new(rt.alloc());
    match read_in_pieces(rt.alloc(), text.as_bytes(), size, &mut log) {
        Ok(()) if is_written_back => write_back(rt, &log),
        Ok(()) => println!(rt; "steps {}", log.len()),
        Err(fault) => println!(rt; "{fault}"),
    }
}

/// Adds the steps of the log that a text writes, fed in pieces of so many bytes, where it has fewer than a million lines.
fn read_in_pieces(
    alloc: Global,
    text: &[u8],
    size: usize,
    steps: &mut Log,
) -> Result<(), LogFault> {
    let mut reader = LogFeed::new(alloc);
    let mut rest = text;
    for _ in 0..text.len() {
        if rest.is_empty() {
            break;
        }
        let (piece, behind) = rest.split_at(size.min(rest.len()));
        if reader.line() < 1_000_000 {
            reader.feed(piece, steps)?;
        }
        rest = behind;
    }
    reader.finish()
}

/// Writes the text of a log to the transcript, where its hints and parts name rows.
pub fn write_back(rt: &HostRuntime, log: &Log) -> io::Result<()> {
    if !log.names_rows() {
        return println!(rt; "a step names row 0");
    }
    let text = log_text(rt.alloc(), log)?;
    rt.print(words_of(&text))
}

/// Writes logs that are built: of both kinds, and of clauses alone.
pub fn show_built(rt: &HostRuntime) -> io::Result<()> {
    let mut both = Log::new(rt.alloc());
    let mut clauses = Log::new(rt.alloc());
    build(rt, &mut both, &mut clauses)
}

/// Builds two logs, and writes them: of a clause, a sum and the empty clause; of the empty clause alone, and then with
/// one more step, whose hint is no row's number.
fn build(rt: &HostRuntime, both: &mut Log, clauses: &mut Log) -> io::Result<()> {
    let part = Part {
        factor: 20,
        row: 153,
    };
    both.push(&[Lit::new(2, false), Lit::new(3, true)], &[4])?;
    both.push_linear(&[part], 3)?;
    both.push(&[], &[157])?;
    write_back(rt, both)?;
    clauses.push(&[], &[153, 154, 155, 133])?;
    write_back(rt, clauses)?;
    clauses.push(&[], &[1, 0])?;
    write_back(rt, clauses)
}
