//! A set of keys with a fixed room, in which a key is found by one look-up.
ghost use Rattle.std.specs.Prelude.{◌≡◌, ◌<◌, ◌++◌, [], ◌∷◌, false, eqb, length, slice_get, Some, IfOk};
ghost use Rattle.std.specs.List.{IsDistinct};
ghost use Rattle.descent.specs.KeySet.{AreAdded, is_in};

use rule_core::Keys;
use std::alloc::{AllocError, Global};
use std::marker::Model;

/// Different keys below a bound, as a list in the order in which they came, with a mark for each key.
#[derive(Drop)]
pub(crate) struct KeySet {
    keys: Keys,
    marks: Vec<bool>,
}

impl Model for KeySet {
    ghost use Rattle.rule_core.specs.Keys.{KeyList};
    ghost use Rattle.descent.specs.KeySet.{AreMarked};

    ghost Value = { KeyList };

    ghost view = { λ s. s.keys };

    ghost invariant = { λ s. AreMarked s.keys s.marks.items };
}

impl KeySet {
    /// No keys, with room for each below a bound.
    pub(crate) fn new(alloc: Global, room: usize) -> Result<KeySet, AllocError>
        ensures { IfOk result (λ set. set ≡ record { list = []; room = room }) }
    {
        Ok(KeySet {
            keys: Keys::new(alloc, room)?,
            marks: vec![in alloc; false; room]?,
        })
    }

    /// The number of keys.
    pub(crate) fn len(&self) -> usize
        ensures len { result ≡ length self.now.list }
        ensures distinct { IsDistinct eqb self.now.list }
    {
        self.keys.len()
    }

    /// The key at place k, from 0, in the order in which they came.
    pub(crate) fn get(&self, k: usize) -> usize
        requires { k < length self.now.list }
        ensures { slice_get self.now.list k ≡ Some result }
    {
        self.keys.get(k)
    }

    /// Whether a key is in the set.
    fn has(&self, key: usize) -> bool
        requires { key < self.now.room }
        ensures { result ≡ is_in self.now.list key }
    {
        self.marks[key]
    }

    /// Adds a key that isn't in the set. It takes no memory.
    fn add(&mut self, key: usize)
        requires below { key < self.old.room }
        requires new { is_in self.old.list key ≡ false }
        ensures { self.new ≡ record { list = self.old.list ++ key ∷ []; room = self.old.room } }
    {
        self.keys.push(key);
        self.marks[key] = true;
    }

    /// Adds a key, unless it is in the set. It takes no memory.
    pub(crate) fn insert(&mut self, key: usize)
        requires { key < self.old.room }
        ensures { AreAdded (key ∷ []) self.old self.new }
    {
        if self.has(key) {
            return;
        }
        self.add(key);
    }

    /// Takes out all keys, at a step for each.
    pub(crate) fn clear(&mut self)
        ensures { self.new ≡ record { list = []; room = self.old.room } }
    {
        for place in 0..self.keys.len() {
            self.marks[self.keys.get(place)] = false;
        }
        self.keys.clear();
    }
}
