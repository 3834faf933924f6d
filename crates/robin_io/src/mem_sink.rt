// A sink in memory, with room for so many bytes.
ghost use Rattle.std.specs.Prelude.{◌≡◌, ◌+◌, ◌-◌, ◌<◌, ◌≤◌, ◌↔◌, ◌⊎◌, List, [], ◌∷◌, ◌++◌, ℕ, Some};
ghost use Rattle.std.specs.Prelude.{length, take, min, Contains, IfOk, OnOk, OnErr, IsErr, MatchResult};
ghost use Rattle.std.specs.Io.KnownBytes.{Appends};
ghost use Rattle.robin_io.specs.Counts.{raised, HasOneCause};

use crate::plan::Plan;
use crate::{Failed, Sink};
use std::alloc::{AllocError, Global};
use std::marker::Model;

/// A sink in memory. It has room for so many bytes in all, and a put takes at most a piece of them.
/// A put fails where it was planned to, or where a piece that isn't empty meets a full room.
#[derive(Drop)]
pub struct MemSink {
    bytes: Vec<u8>,
    len: usize,
    piece: usize,
    faults: u64,
    plan: Plan,
}

impl Model for MemSink {
    ghost use Rattle.std.specs.Prelude.{◌<◌, ◌≤◌, vec_len};
    ghost use Rattle.robin_io.specs.SinkView.{SinkView};

    ghost Value = { SinkView };

    ghost use Rattle.robin_io.specs.SinkFields.{sink_view};

    ghost view = { sink_view };

    ghost invariant = { λ s. (s.len ≤ vec_len s.bytes) × (0 < s.piece) };
}

impl MemSink {
    /// An empty sink with this room, of which a put takes at most `piece` bytes, at least 1. Puts take no memory.
    ///
    /// # Errors
    /// Only where memory runs out.
    pub fn new(alloc: Global, room: usize, piece: usize) -> Result<MemSink, AllocError>
        requires { 1 ≤ piece }
        ensures empty { IfOk result (λ s. s.written ≡ []) }
        ensures room { IfOk result (λ s. s.room ≡ room) }
        ensures piece { IfOk result (λ s. s.piece ≡ piece) }
        ensures faults { IfOk result (λ s. s.faults ≡ 0) }
        ensures plan { IfOk result (λ s. s.plan ≡ []) }
        ensures calls { IfOk result (λ s. s.calls ≡ 0) }
    {
        Ok(MemSink {
            bytes: vec![in alloc; 0u8; room]?,
            len: 0,
            piece,
            faults: 0,
            plan: Plan::new(alloc),
        })
    }

    /// Plans that the put of this number fails. All puts are counted from 1, the refused ones too,
    /// and the number stays at the greatest `u64`. So 0 and the number of an earlier put plan nothing.
    ///
    /// # Errors
    /// Only where memory runs out: then nothing changes.
    pub fn fail_at(&mut self, call: u64) -> Result<(), AllocError>
        ensures ok { OnOk result (self.new ≡ record self.old { plan = self.old.plan ++ call ∷ [] }) }
        ensures err { OnErr result (self.new ≡ self.old) }
    {
        self.plan.add(call)
    }

    /// The bytes so far.
    pub fn written(&self) -> &[u8]
        ensures { result.now ≡ self.now.written }
    {
        &self.bytes[..self.len]
    }
}

impl Sink for MemSink {
    ghost written = { λ s. Some s.written };

    ghost faults = { λ s. s.faults };

    ghost calls = { λ s. s.calls };

    // The clauses of the trait, and then what exactly this sink takes.
    fn put(&mut self, piece: &[u8]) -> Result<usize, Failed>
        ensures most { IfOk result (λ k. k ≤ length piece.now) }
        ensures some { IfOk result (λ k. 0 < length piece.now → 0 < k) }
        ensures bytes { IfOk result (λ k.
            Appends (Some self.old.written) (Some self.new.written) (take k piece.now)) }
        ensures err { OnErr result (Some self.new.written ≡ Some self.old.written) }
        ensures cause { HasOneCause self.old.faults self.new.faults result }

        ensures exact { IfOk result (λ k. k ≡ min (min self.old.piece (length piece.now)) self.old.room) }
        ensures failed { IsErr result
            ↔ (Contains self.old.plan (raised self.old.calls 1) ⊎ ((0 < length piece.now) × (self.old.room ≡ 0))) }
        ensures room { IfOk result (λ k. self.new.room + k ≡ self.old.room) }
        ensures room_err { OnErr result (self.new.room ≡ self.old.room) }
        ensures piece { self.new.piece ≡ self.old.piece }
        ensures plan { self.new.plan ≡ self.old.plan }
        ensures calls { self.new.calls ≡ raised self.old.calls 1 }
        ensures faults { MatchResult result
            (λ _. self.new.faults ≡ self.old.faults) (λ _. self.new.faults ≡ raised self.old.faults 1) }
    {
        let is_planned = self.plan.next_fails();
        let room = self.bytes.len() - self.len;
        if is_planned || (room == 0 && !piece.is_empty()) {
            self.faults = self.faults.saturating_add(1);
            return Err(Failed);
        }
        let count = self.piece.min(piece.len()).min(room);
        self.bytes[self.len..self.len + count].copy_from_slice(&piece[..count]);
        self.len += count;
        Ok(count)
    }
}
