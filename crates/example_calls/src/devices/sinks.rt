//! Sinks in memory: how many bytes they take, and puts that fail.
use crate::devices::outcome;
use crate::telling::{number_in, words_of};
use robin_io::{Failed, MemSink, Sink, put_all};
use std::io;

/// Writes texts to a sink, and shows how that went and what the sink has then.
pub fn show(rt: &HostRuntime, asked: &str) -> io::Result<()> {
    let (room, rest) = number_in(asked);
    let (piece, rest) = number_in(rest);
    let mut sink = MemSink::new(rt.alloc(), room, piece.max(1))?;
    put_texts(rt, &mut sink, rest)
}

/// Puts texts, one on each line, behind the number of the put that fails. Of no byte there is one put.
fn put_texts(rt: &HostRuntime, sink: &mut MemSink, asked: &str) -> io::Result<()> {
    let (put, texts) = number_in(asked);
    sink.fail_at(put as u64)?;
    for text in texts.split('\n') {
        let done = if text.is_empty() {
            counted(sink.put(b""))
        } else {
            outcome(put_all(sink, text.as_bytes()))
        };
        println!(rt; "{done}: {}", words_of(sink.written()))?;
    }
    Ok(())
}

/// What a put gave.
fn counted(put: Result<usize, Failed>) -> &'static str {
    match put {
        Ok(0) => "0 taken",
        Ok(_) => "some taken",
        Err(Failed) => "Failed",
    }
}
