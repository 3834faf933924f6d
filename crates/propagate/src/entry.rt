//! What a trail is made of.
use rows::Lit;

/// A literal that was made true.
#[derive(Clone, Copy, Debug)]
pub struct Entry {
    pub lit: Lit,
    /// How many decisions there are up to it, itself counted.
    pub level: u32,
    /// The number of the row that forced it, from 1; None for a decision.
    pub reason: Option<u64>,
}

/// A row that no values of the free variables meet.
#[derive(Clone, Copy, Debug)]
pub struct Conflict {
    /// The row's number, from 1.
    pub row: u64,
}
