//! The deviation vectors of a league's constraints.
ghost use Rattle.std.specs.Prelude.{◌≡◌, ◌<◌, length, slice_get, Some};

use std::marker::Model;

/// The deviation vectors of a league's constraints in file order, seen as a list of lists.
#[derive(Drop)]
pub struct Vectors {
    pub(crate) vectors: Vec<Vec<u64>>,
}

impl Model for Vectors {
    ghost use Rattle.std.specs.Prelude.{ℕ, List, map};

    ghost Value = { List (List ℕ) };

    ghost view = { λ v. map (λ entries. entries.items) v.vectors.items };
}

impl Vectors {
    /// The number of constraints.
    pub fn len(&self) -> usize
        ensures { result ≡ length self.now }
    {
        self.vectors.len()
    }

    /// The vector of the constraint at place k, from 0.
    pub fn vector(&self, k: usize) -> &[u64]
        requires { k < length self.now }
        ensures { slice_get self.now k ≡ Some result.now }
    {
        &self.vectors[k]
    }
}
