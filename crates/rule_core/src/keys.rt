//! A list of keys with a fixed room, so that adding a key takes no memory.
ghost use Rattle.std.specs.Prelude.{◌≡◌, ◌<◌, ◌≤◌, ◌+◌, ◌==◌, [], ◌∷◌, length, slice_get, Some, IfOk};
ghost use Rattle.std.specs.Option.{option_to_list};
ghost use Rattle.rule_core.specs.Keys.{with_keys};

use std::alloc::{AllocError, Global};
use std::marker::Model;

/// A list of keys of a rule's entries, and the number of keys that there is room for.
#[derive(Drop)]
pub struct Keys {
    keys: Vec<usize>,
    room: usize,
}

impl Model for Keys {
    ghost use Rattle.std.specs.Prelude.{◌≤◌, vec_len, vec_capacity};
    ghost use Rattle.rule_core.specs.Keys.{KeyList};

    ghost Value = { KeyList };

    ghost view = { λ k. record { list = k.keys.items; room = k.room } };

    ghost invariant = { λ k. (vec_len k.keys ≤ k.room) × (k.room ≤ vec_capacity k.keys) };
}

impl Keys {
    /// An empty list with room for so many keys.
    ///
    /// # Errors
    /// Only where memory runs out.
    pub fn new(alloc: Global, room: usize) -> Result<Keys, AllocError>
        ensures { IfOk result (λ keys. keys ≡ record { list = []; room = room }) }
    {
        Ok(Keys {
            keys: Vec::with_capacity(alloc, room)?,
            room,
        })
    }

    /// Takes out all keys.
    pub fn clear(&mut self)
        ensures { self.new ≡ record { list = []; room = self.old.room } }
    {
        self.keys.clear();
    }

    /// Adds a key at the end, where there is room. It takes no memory.
    pub fn push(&mut self, key: usize)
        requires { length self.old.list < self.old.room }
        ensures { self.new ≡ with_keys self.old (key ∷ []) }
    {
        self.keys.push_reserved(key);
    }

    /// Adds a key, if there is one. It takes no memory.
    pub(crate) fn push_some(&mut self, key: Option<usize>)
        requires { length self.old.list + 1 ≤ self.old.room }
        ensures { self.new ≡ with_keys self.old (option_to_list key) }
    {
        if let Some(key) = key {
            self.push(key);
        }
    }

    /// The number of keys.
    pub fn len(&self) -> usize
        ensures { result ≡ length self.now.list }
    {
        self.keys.len()
    }

    /// Whether there is no key.
    pub fn is_empty(&self) -> bool
        ensures { result ≡ (length self.now.list == 0) }
    {
        self.keys.is_empty()
    }

    /// The key at place k, from 0.
    pub fn get(&self, k: usize) -> usize
        requires { k < length self.now.list }
        ensures { slice_get self.now.list k ≡ Some result }
    {
        self.keys[k]
    }
}
