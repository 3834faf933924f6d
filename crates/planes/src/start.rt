//! With what a search begins.
use refutation::Log;
use rows::Lit;

/// The row of a step: at least so many of these literals are true. The step has this number behind the rows.
#[derive(Drop)]
pub struct Derived {
    pub lits: Vec<Lit>,
    pub degree: u64,
    pub number: u64,
}

/// Steps that come first in the log of a search, and rows of some of them, from which it reasons too. No clause asks that
/// these are the steps' rows: where they aren't, the search comes to no log.
#[derive(Drop)]
pub struct Start {
    pub steps: Log,
    pub derived: Vec<Derived>,
}
