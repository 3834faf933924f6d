//! Files of stores: up to the limit, above it, absent, and at each call that is planned to fail.
use crate::devices::TEXT;
use crate::telling::{number_in, words_of};
use robin_io::{MemShelf, Shelf, TakeFault, read_all};
use std::io;

/// Reads a file of a store in memory twice up to a limit.
pub fn show(rt: &HostRuntime, asked: &str) -> io::Result<()> {
    let mut shelf = MemShelf::new(rt.alloc());
    read_twice(rt, &mut shelf, asked)
}

/// Puts two files into a store, one of them twice, plans that a call fails, and reads a file twice. A reading takes three
/// calls: a start, a take of all the bytes, and a take that finds the end.
fn read_twice(rt: &HostRuntime, shelf: &mut MemShelf, asked: &str) -> io::Result<()> {
    let (call, file) = number_in(asked);
    shelf.add("a", b"old")?;
    shelf.add("b", b"")?;
    shelf.add("a", TEXT)?;
    shelf.fail_at(call as u64)?;
    show_reading(rt, shelf, file)?;
    show_reading(rt, shelf, file)
}

/// Shows what a reading of a file gives, whose name stands behind a limit.
pub fn show_reading(rt: &HostRuntime, shelf: &mut impl Shelf, file: &str) -> io::Result<()> {
    let (limit, name) = number_in(file);
    match read_all(rt.alloc(), shelf, name, limit.min(1_000_000)) {
        Ok(bytes) => println!(rt; "'{}'", words_of(&bytes)),
        Err(TakeFault::TooLong { limit }) => println!(rt; "TooLong {limit}"),
        Err(fault) => println!(rt; "{fault:?}"),
    }
}
