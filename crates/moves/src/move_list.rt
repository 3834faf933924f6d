//! A list of moves with room for more, so that adding one takes no memory.
ghost use Rattle.std.specs.Prelude.{◌≡◌, ◌<◌, ◌≤◌, ◌-◌, ◌++◌, ◌==◌, [], ◌∷◌, length, slice_get, Some, OnOk, OnErr};

use crate::swap::Swap;
use std::alloc::{AllocError, Global};
use std::marker::Model;

/// A list of moves, and the number of moves, `spare`, that can be added before memory is asked for again.
#[derive(Drop)]
pub struct MoveList {
    moves: Vec<Swap>,
    spare: usize,
}

impl Model for MoveList {
    ghost use Rattle.std.specs.Prelude.{◌≤◌, ◌+◌, vec_len, vec_capacity};
    ghost use Rattle.moves.specs.MoveList.{Moves};

    ghost Value = { Moves };

    ghost view = { λ l. record { list = l.moves.items; spare = l.spare } };

    ghost invariant = { λ l. vec_len l.moves + l.spare ≤ vec_capacity l.moves };
}

impl MoveList {
    /// The list of no moves, with no room. It takes no memory.
    pub fn new(alloc: Global) -> MoveList
        ensures { result ≡ record { list = []; spare = 0 } }
    {
        MoveList {
            moves: Vec::new(alloc),
            spare: 0,
        }
    }

    /// Makes room for so many more moves, and gives up none.
    ///
    /// # Errors
    /// Only where memory runs out: then the list is as it was.
    pub fn reserve(&mut self, more: usize) -> Result<(), AllocError>
        ensures list { self.new.list ≡ self.old.list }
        ensures ok { OnOk result (more ≤ self.new.spare) }
        ensures kept { self.old.spare ≤ self.new.spare }
        ensures err { OnErr result (self.new ≡ self.old) }
    {
        if more > self.spare {
            self.moves.reserve(more)?;
            self.spare = more;
        }
        Ok(())
    }

    /// Adds a move at the end, where there is room. It takes no memory.
    pub fn push(&mut self, step: Swap)
        requires { 1 ≤ self.old.spare }
        ensures { self.new ≡ record { list = self.old.list ++ step ∷ []; spare = self.old.spare - 1 } }
    {
        self.moves.push_reserved(step);
        self.spare -= 1;
    }

    /// The number of moves.
    pub fn len(&self) -> usize
        ensures { result ≡ length self.now.list }
    {
        self.moves.len()
    }

    /// Whether there is no move.
    pub fn is_empty(&self) -> bool
        ensures { result ≡ (length self.now.list == 0) }
    {
        self.moves.is_empty()
    }

    /// The number of moves that can be added before memory is asked for again.
    pub fn spare(&self) -> usize
        ensures { result ≡ self.now.spare }
    {
        self.spare
    }

    /// The move at place k, from 0.
    pub fn get(&self, k: usize) -> Swap
        requires { k < length self.now.list }
        ensures { slice_get self.now.list k ≡ Some result }
    {
        self.moves[k]
    }
}
