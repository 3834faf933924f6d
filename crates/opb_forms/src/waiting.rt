//! Bytes that wait to be written.
ghost use Rattle.std.specs.Prelude.{◌≡◌, ◌+◌, ◌≤◌, ◌++◌, [], length, decimal, IfOk};

use itoa::Buffer;
use std::alloc::{AllocError, Global};
use std::marker::Model;

/// How many bytes wait at most.
pub(crate) const ROOM: usize = 65_536;

/// At most 65,536 bytes that wait to be written, seen as their list.
#[derive(Drop)]
pub struct Waiting {
    bytes: Vec<u8>,
    len: usize,
}

impl Model for Waiting {
    ghost use Rattle.std.specs.Prelude.{◌≡◌, ◌≤◌, ℕ, List, vec_len};
    ghost use Rattle.opb_forms.specs.SeenWaiting.{bytes_of};

    ghost Value = { List ℕ };

    ghost view = { bytes_of };

    ghost invariant = { λ w. (w.len ≤ 65536) × (vec_len w.bytes ≡ 65536) };
}

impl Waiting {
    /// No byte. What comes later takes no memory.
    ///
    /// # Errors
    /// Only where memory runs out.
    pub fn new(alloc: Global) -> Result<Waiting, AllocError>
        ensures { IfOk result (λ waiting. waiting ≡ []) }
    {
        Ok(Waiting {
            bytes: vec![in alloc; 0u8; ROOM]?,
            len: 0,
        })
    }

    /// How many bytes wait.
    pub(crate) fn len(&self) -> usize
        ensures len { result ≡ length self.now }
        ensures most { result ≤ 65536 }
    {
        self.len
    }

    /// The bytes that wait.
    pub(crate) fn bytes(&self) -> &[u8]
        ensures { result.now ≡ self.now }
    {
        &self.bytes[..self.len]
    }

    /// None of them any more.
    pub(crate) fn clear(&mut self)
        ensures { self.new ≡ [] }
    {
        self.len = 0;
    }

    /// Adds some bytes, for which there is room.
    pub(crate) fn add(&mut self, piece: &[u8])
        requires { length self.old + length piece.now ≤ 65536 }
        ensures { self.new ≡ self.old ++ piece.now }
    {
        let end = self.len + piece.len();
        self.bytes[self.len..end].copy_from_slice(piece);
        self.len = end;
    }

    /// Adds a number in decimal digits, at most 20.
    pub(crate) fn add_number(&mut self, number: u64)
        requires { length self.old + 20 ≤ 65536 }
        ensures text { self.new ≡ self.old ++ decimal number }
        ensures short { length (decimal number) ≤ 20 }
    {
        let mut digits = Buffer::new();
        self.add(digits.format(number).as_bytes());
    }
}
