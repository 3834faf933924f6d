//! Files and writers of the machine. A folder can be opened and not read, and `/dev/zero` has no end.
use crate::devices::stores::show_reading;
use crate::devices::{TEXT, outcome, pieces};
use crate::telling::words_of;
use robin_io::{Failed, HostShelf, HostSink, Shelf, put_all};
use std::{fs, io};

/// Shows what is asked of the machine.
pub fn follow(rt: &HostRuntime, device: &str, asked: &str) -> io::Result<()> {
    match device {
        "pieces-of" => pieces::show(rt, &fs::read(rt, asked)?),
        "file" | "starts" => show_on(rt, &mut HostShelf::new(rt), device, asked),
        "kept" => show_kept(rt, asked),
        "write" => fs::write(rt, asked, TEXT),
        "remove" => fs::remove_file(rt, asked),
        "writers" => show_writers(rt),
        _ => Ok(()),
    }
}

/// Reads a file of a store, or starts files.
fn show_on(rt: &HostRuntime, shelf: &mut impl Shelf, device: &str, asked: &str) -> io::Result<()> {
    match device {
        "file" => show_reading(rt, shelf, asked),
        _ => show_starts(rt, shelf, asked),
    }
}

/// Starts files, one after the other. A start opens a file to read it: it makes none, and changes none.
fn show_starts(rt: &HostRuntime, shelf: &mut impl Shelf, names: &str) -> io::Result<()> {
    for name in names.split(' ') {
        show_start(rt, name, shelf.start(name))?;
    }
    Ok(())
}

/// Shows what the start of a file gave, and what the machine itself reads of it.
fn show_start(rt: &HostRuntime, name: &str, done: Result<(), Failed>) -> io::Result<()> {
    let done = outcome(done);
    print!(rt; "the start of '{name}': {done}, then ")?;
    show_kept(rt, name)
}

/// Shows what the machine itself reads of a file.
fn show_kept(rt: &HostRuntime, name: &str) -> io::Result<()> {
    match fs::read(rt, name) {
        Ok(bytes) => println!(rt; "'{}'", words_of(&bytes)),
        Err(_) => println!(rt; "absent"),
    }
}

/// Writes to a writer that takes all, and to one that is full after 7 bytes.
fn show_writers(rt: &HostRuntime) -> io::Result<()> {
    let mut bytes = Vec::new(rt.alloc());
    let done = put_all(&mut HostSink::new(&mut bytes), TEXT);
    tell_written(rt, "that takes all", done, &bytes)?;
    let mut room = [0u8; 7];
    let done = put_all(&mut HostSink::new(room.as_mut_slice()), TEXT);
    tell_written(rt, "of 7 bytes", done, &room)
}

/// Tells what a writer has after a put.
fn tell_written(
    rt: &HostRuntime,
    which: &str,
    done: Result<(), Failed>,
    bytes: &[u8],
) -> io::Result<()> {
    let (done, words) = (outcome(done), words_of(bytes));
    println!(rt; "a writer {which}: {done}: {words}")
}
