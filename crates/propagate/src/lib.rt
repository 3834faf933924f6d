//! A trail over pseudo-Boolean rows: literals that are made true one after another, by decisions and by what the rows
//! force, and taken off again.
//!
//! A contract sees a `Trail` as its number of variables, its rows, with the added clauses behind them, and its entries
//! in their order. `specs/Trails.antt` says what these mean.
#![tactic(auto)]

mod calm;
mod clause;
mod clauses;
mod counters;
mod entry;
mod force;
mod hang;
mod link;
mod lists;
mod numbered;
mod path;
mod settle;
mod table;
mod trail;
mod walk;
mod watches;

pub use entry::{Conflict, Entry};
pub use trail::Trail;
