//! What the devices and numbers of `robin_io`, the reader of pieces of `robinx` and the logs of `refutation` do.
//!
//! - `log SIZE TEXT` reads a log in pieces of so many bytes, and writes it back or says its fault. `steps SIZE TEXT`
//!   says only how many steps it has. `built` writes logs that are built step by step.
//! - `pieces TEXT` and `pieces-of FILE` show the pieces of a file, and then the line of its end or its first fault.
//!   `attribute NAME TEXT` shows an attribute of the first tag.
//! - `number TEXT` reads a number, `decimal N` writes one.
//! - `store CALL LIMIT NAME` reads a file of a store twice, where the call of this number fails. `sink ROOM PIECE PUT
//!   TEXT|TEXT` writes texts to a sink, of which a put takes at most so many bytes and that of this number fails.
//! - `file LIMIT NAME` reads a file of the machine. `starts NAME ..` starts files, `kept NAME` shows what the machine
//!   itself reads, `write NAME` and `remove NAME` make a file and remove it. `writers` writes to writers of the machine.
pub mod logs;
mod machine;
mod numbers;
mod pieces;
mod sinks;
mod stores;

use robin_io::Failed;
use std::io;

/// What is written and read.
const TEXT: &[u8] = b"seven bytes, and a few more";

/// Shows what is asked of a device. Of a title nothing is shown.
pub fn follow(rt: &HostRuntime, device: &str, asked: &str) -> io::Result<()> {
    match device {
        "log" => logs::show(rt, asked, true),
        "steps" => logs::show(rt, asked, false),
        "built" => logs::show_built(rt),
        "pieces" => pieces::show(rt, asked.as_bytes()),
        "attribute" => pieces::show_attribute(rt, asked),
        "number" => numbers::show_read(rt, asked),
        "decimal" => numbers::show_written(rt, asked),
        "store" => stores::show(rt, asked),
        "sink" => sinks::show(rt, asked),
        _ => machine::follow(rt, device, asked),
    }
}

/// What a call gave that tells no more than whether it failed.
fn outcome(done: Result<(), Failed>) -> &'static str {
    match done {
        Ok(()) => "Ok",
        Err(Failed) => "Failed",
    }
}
