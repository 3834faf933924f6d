// Stores of named files, and the reading of a whole file.
ghost use Rattle.std.specs.Prelude.{◌≡◌, ◌+◌, ◌-◌, ◌^◌, ◌<◌, ◌≤◌, ℕ, List, Option, length, take, vec_len};
ghost use Rattle.std.specs.Prelude.{IfOk, OnOk, OnErr, IfSome, IsErrOf};
ghost use Rattle.std.specs.Io.KnownBytes.{Keeps, Consumes, IsAtEnd};
ghost use Rattle.robin_io.specs.Counts.{raised, Rose, HasCause};
ghost use Rattle.robin_io.specs.declared.shelf.TakeFault.TheVariants as fault;

use crate::Failed;
use std::alloc::{AllocError, Global};
use thiserror::Error;

/// A store of named files. The started file is read from front to end.
pub trait Shelf {
    /// The bytes of a file, where the store tells them.
    ghost contents: { Self → List ℕ → Option (List ℕ) };

    /// This file may be taken from.
    ghost started: { Self → List ℕ → Type 0 };

    /// The bytes of the started file that are not yet taken, where the store tells them.
    ghost left: { Self → Option (List ℕ) };

    /// How many bytes all takes have given, up to 2^64 - 1, its last value.
    ghost taken: { Self → ℕ };

    /// How often a file has failed, up to 2^64 - 1, its last value.
    ghost faults: { Self → List ℕ → ℕ };

    /// How many calls of `start` and `take` were counted. A store may count none.
    ghost calls: { Self → ℕ } = { λ _. 0 };

    /// Starts a file at its front. After `Failed` nothing is said of which file is started.
    fn start(&mut self, name: &str) -> Result<(), Failed>
        ensures contents { (n : List ℕ) → contents self.new n ≡ contents self.old n }
        ensures started { OnOk result (started self.new name.now) }
        ensures left { OnOk result (Keeps (contents self.old name.now) (left self.new)) }
        ensures taken { taken self.new ≡ taken self.old }
        ensures last { taken self.new ≤ 2 ^ 64 - 1 }
        ensures calls { calls self.new ≤ calls self.old + 1 }
        ensures cause { HasCause (faults self.old) (faults self.new) name.now result };

    /// Takes the next bytes of the started file to the front of the room, and says how many.
    /// Where the room is not empty, 0 says that the file is at its end. After `Failed` the room may hold any bytes.
    fn take(&mut self, name: &str, room: &mut [u8]) -> Result<usize, Failed>
        requires { started self.old name.now }
        ensures contents { (n : List ℕ) → contents self.new n ≡ contents self.old n }
        ensures started { started self.new name.now }
        ensures count { IfOk result (λ k. k ≤ length room.new) }
        ensures taken { IfOk result (λ k. taken self.new ≡ raised (taken self.old) k) }
        ensures bytes { IfOk result (λ k. Consumes (left self.old) (left self.new) (take k room.new)) }
        ensures end { IfOk result (λ k. k ≡ 0 → 0 < length room.new → IsAtEnd (left self.new)) }
        ensures err { OnErr result ((left self.new ≡ left self.old) × (taken self.new ≡ taken self.old)) }
        ensures calls { calls self.new ≤ calls self.old + 1 }
        ensures cause { HasCause (faults self.old) (faults self.new) name.now result };

    /// Why the last call failed that did, in words for a person, where the store knows it.
    fn reason(&self) -> Option<&'static str> {
        None
    }
}

/// Why a file could not be read whole.
#[derive(Clone, Copy, Debug, PartialEq, Eq, Error)]
pub enum TakeFault {
    /// The store failed.
    #[error("the file could not be read")]
    Failed,
    /// The file has more bytes than the limit.
    #[error("the file has more than {limit} bytes")]
    TooLong { limit: usize },
    /// Memory ran out.
    #[error("out of memory")]
    Mem,
}

impl From<Failed> for TakeFault {
    ghost from_gives = { λ _ e. e ≡ fault.Failed };

    fn from(_: Failed) -> Self {
        TakeFault::Failed
    }
}

impl From<AllocError> for TakeFault {
    ghost from_gives = { λ _ e. e ≡ fault.Mem };

    fn from(_: AllocError) -> Self {
        TakeFault::Mem
    }
}

/// How many bytes one take asks for at most.
const PIECE: usize = 8192;

/// Reads a whole file of at most `limit` bytes, and takes at most `limit + 1` of its bytes.
///
/// # Errors
/// `TooLong` exactly where more than the limit was taken, `Failed` only where the store failed at this name, `Mem`
/// where memory runs out.
pub fn read_all<S: Shelf>(
    alloc: Global,
    shelf: &mut S,
    name: &str,
    limit: usize,
) -> Result<Vec<u8>, TakeFault>
    requires { limit ≤ 268435456 }

    // What was read is the file.
    ensures found { IfOk result (λ bytes. IfSome (S.contents shelf.old name.now) (λ file. bytes.items ≡ file)) }
    ensures within { IfOk result (λ bytes. vec_len bytes ≤ limit) }
    ensures count { IfOk result (λ bytes. S.taken shelf.new ≡ raised (S.taken shelf.old) (vec_len bytes)) }
    ensures end { OnOk result (IsAtEnd (S.left shelf.new)) }
    ensures started { OnOk result (S.started shelf.new name.now) }

    // One start, and of the takes each but the last gives a byte.
    ensures calls { IfOk result (λ bytes. S.calls shelf.new ≤ S.calls shelf.old + (vec_len bytes + 2)) }
    ensures most_calls { S.calls shelf.new ≤ S.calls shelf.old + (limit + 2) }

    // Each refusal's cause. A file is too long exactly where more than `limit` bytes were taken.
    ensures failed { IsErrOf result TakeFault.Failed →
        Rose (S.faults shelf.old name.now) (S.faults shelf.new name.now) }
    ensures too_long { (l : ℕ) → IsErrOf result (TakeFault.TooLong l) →
        (l ≡ limit) × (raised (S.taken shelf.old) (limit + 1) ≤ S.taken shelf.new)
        × IfSome (S.contents shelf.old name.now) (λ file. limit < length file) }
    ensures not_too_long { (IsErrOf result (TakeFault.TooLong limit) → ⊥) →
        S.taken shelf.new ≤ S.taken shelf.old + limit }

    // What holds whatever the answer is.
    ensures risen { S.taken shelf.old ≤ S.taken shelf.new }
    ensures most { S.taken shelf.new ≤ S.taken shelf.old + (limit + 1) }
    ensures last { S.taken shelf.new ≤ 2 ^ 64 - 1 }
    ensures contents { (n : List ℕ) → S.contents shelf.new n ≡ S.contents shelf.old n }
    ensures later { (n : List ℕ) → S.faults shelf.old n ≤ S.faults shelf.new n }
{
    shelf.start(name)?;
    let mut bytes = Vec::new(alloc);
    let mut room = [0u8; PIECE];
    'pieces: loop {
        let most = PIECE.min(limit + 1 - bytes.len());
        let count = shelf.take(name, &mut room[..most])?;
        if count == 0 {
            return Ok(bytes);
        }
        // Before the push, so that memory is asked for bytes within the limit alone.
        if count > limit - bytes.len() {
            return Err(TakeFault::TooLong { limit });
        }
        bytes.extend_from_slice(&room[..count])?;
    }
}
