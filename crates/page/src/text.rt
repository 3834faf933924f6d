//! The text of an answer.
ghost use Rattle.std.specs.Prelude.{◌≡◌, ◌++◌, ℕ, List, [], Some, length, take, IfOk, OnOk, OnErr};
ghost use Rattle.std.specs.Io.KnownBytes.{Appends};
ghost use Rattle.robin_io.specs.Counts.{HasOneCause};
ghost use Rattle.page.specs.SinkFields.{faults_of, text_of};

use robin_io::{Failed, Sink};
use std::alloc::Global;

/// A text in memory, which takes all that is put while there is memory.
#[derive(Drop)]
pub struct PageSink {
    text: Vec<u8>,
    faults: u64,
}

impl PageSink {
    /// An empty text.
    pub fn new(alloc: Global) -> PageSink
        ensures text { text_of result ≡ [] }
        ensures faults { faults_of result ≡ 0 }
    {
        PageSink {
            text: Vec::new(alloc),
            faults: 0,
        }
    }

    /// The text.
    pub fn text(&self) -> &[u8]
        ensures { result.now ≡ text_of self.now }
    {
        &self.text
    }

    /// How often memory ran out.
    pub fn faults(&self) -> u64
        ensures { result ≡ faults_of self.now }
    {
        self.faults
    }
}

impl Sink for PageSink {
    ghost written = { λ s. Some (text_of s) };

    ghost faults = { faults_of };

    fn put(&mut self, piece: &[u8]) -> Result<usize, Failed>
        ensures all { IfOk result (λ k. k ≡ length piece.now) }
        ensures bytes { OnOk result (text_of self.new ≡ text_of self.old ++ piece.now) }
        ensures err { OnErr result (text_of self.new ≡ text_of self.old) }
        ensures cause { HasOneCause (faults_of self.old) (faults_of self.new) result }
        ensures none { OnOk result (faults_of self.new ≡ faults_of self.old) }
    {
        match self.text.extend_from_slice(piece) {
            Ok(()) => Ok(piece.len()),
            Err(_) => {
                self.faults = self.faults.saturating_add(1);
                Err(Failed)
            }
        }
    }
}
