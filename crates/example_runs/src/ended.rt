//! Runs of commands, over the files of the machine and over devices that fail.
use answers::code;
use robin_io::{HostShelf, HostSink, MemShelf, MemSink, Shelf, put_all};
use robin_run::run;
use robin_watch::Unwatched;
use std::alloc::{AllocError, Global};
use std::{fs, io};

/// The room of a sink.
const ROOM: usize = 4_000_000;

/// What a run wrote, the status that it ended with, and what a person was told.
pub struct Ended {
    out: MemSink,
    pub status: u8,
    told: MemSink,
}

/// The parts of a run's end are let go together.
impl Drop for Ended {
    fn drop(self) {
        let Ended {
            out: _,
            status: _,
            told: _,
        } = self;
    }
}

impl Ended {
    /// What the run wrote.
    pub fn text(&self) -> &str {
        str::from_utf8(self.out.written()).unwrap_or("no text")
    }

    /// Shows what the run wrote, the status, and what a person was told.
    pub fn show(&self, rt: &HostRuntime) -> io::Result<()> {
        print_bytes(rt, self.out.written());
        self.show_status(rt)?;
        print_bytes(rt, self.told.written());
        Ok(())
    }

    /// Shows the status.
    pub fn show_status(&self, rt: &HostRuntime) -> io::Result<()> {
        println!(rt; "status {}", self.status)
    }
}

/// Writes bytes to the transcript. What can't be written is missed there.
fn print_bytes(rt: &HostRuntime, bytes: &[u8]) {
    let mut out = HostSink::new(io::writer(rt));
    let _ = put_all(&mut out, bytes);
}

/// The words of a line.
fn words_of(alloc: Global, line: &str) -> Result<Vec<String>, AllocError> {
    let mut words = Vec::new(alloc);
    if line.is_empty() {
        return Ok(words);
    }
    for word in line.split(' ') {
        words.push(String::from_str(alloc, word)?)?;
    }
    Ok(words)
}

/// An empty sink that fails at this put, and takes at most a piece a put.
fn sink(alloc: Global, put: u64, piece: usize) -> Result<MemSink, AllocError> {
    let mut sink = MemSink::new(alloc, ROOM, piece.max(1))?;
    sink.fail_at(put)?;
    Ok(sink)
}

/// Runs the command of a line over a store, into a sink. No other call of this program runs a command.
fn run_over(
    alloc: Global,
    line: &str,
    shelf: &mut impl Shelf,
    put: u64,
    piece: usize,
) -> Result<Ended, AllocError> {
    let words = words_of(alloc, line)?;
    let mut out = sink(alloc, put, piece)?;
    let mut told = sink(alloc, 0, ROOM)?;
    let status = code(run(alloc, &words, shelf, &mut out, &mut told, &Unwatched));
    Ok(Ended { out, status, told })
}

/// Runs the command of a line over the files of the machine.
pub fn run_line(rt: &HostRuntime, line: &str) -> Result<Ended, AllocError> {
    run_over(rt.alloc(), line, &mut HostShelf::new(rt), 0, ROOM)
}

/// Runs a command over the files of the machine: this word, an instance file, and other words behind it.
pub fn run_words(
    rt: &HostRuntime,
    word: &str,
    instance: &str,
    others: &str,
) -> Result<Ended, AllocError> {
    let line = format!(in rt.alloc(); "{word} {instance} {others}")?;
    run_line(rt, line.as_str())
}

/// Runs the command of a line on devices, `CALL` or `CALL PUT PIECE`: over a store in memory of the files that it names,
/// which fails at this call, and into a sink that fails at this put. None has the number 0.
pub fn run_failing(rt: &HostRuntime, line: &str, devices: &str) -> Result<Ended, AllocError> {
    let (call, sink) = devices.split_once(' ').unwrap_or((devices, ""));
    let (put, piece) = sink.split_once(' ').unwrap_or((sink, ""));
    let mut shelf = MemShelf::new(rt.alloc());
    fill(rt, line, number_in(call), &mut shelf)?;
    let piece = piece.parse::<usize>().unwrap_or(ROOM);
    run_over(rt.alloc(), line, &mut shelf, number_in(put), piece)
}

/// A number, or 0.
pub fn number_in(text: &str) -> u64 {
    text.parse::<u64>().unwrap_or(0)
}

/// Puts the files of the machine that a line names into a store, which fails at this call.
fn fill(rt: &HostRuntime, line: &str, call: u64, shelf: &mut MemShelf) -> Result<(), AllocError> {
    shelf.fail_at(call)?;
    for word in line.split(' ') {
        if let Ok(bytes) = fs::read(rt, word) {
            shelf.add(word, &bytes)?;
        }
    }
    Ok(())
}
