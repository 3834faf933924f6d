//! Decimal numbers, read and written.
use crate::telling::words_of;
use robin_io::{decimal, put_decimal};
use std::io;

/// Reads a number.
pub fn show_read(rt: &HostRuntime, text: &str) -> io::Result<()> {
    match decimal(text.as_bytes()) {
        Ok(number) => println!(rt; "{number}"),
        Err(fault) => println!(rt; "{fault:?}"),
    }
}

/// Writes a number.
pub fn show_written(rt: &HostRuntime, text: &str) -> io::Result<()> {
    let mut out = Vec::new(rt.alloc());
    put_decimal(&mut out, text.parse::<u128>().unwrap_or(1))?;
    rt.println(words_of(&out))
}
