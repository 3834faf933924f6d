//! A search for a log that refutes rows, by cutting planes: it learns rows, and not only clauses. The analysis of a conflict
//! is that of RoundingSat (Elffers and Nordström 2018), which adds rows up and divides them.
//!
//! Nothing is believed of the search. It plans the steps of a log, and what it plans is checked before it is given. So it
//! owes no more than to be safe and to end, and most of what it keeps reads as absent where it isn't there. Its functions
//! still say how numbers are divided, what is taken off a literal, to which level a row jumps back, and that its
//! coefficients stay within a limit.
#![tactic(auto)]

mod answer;
mod axioms;
mod counts;
mod cut;
mod desk;
mod draft;
mod groups;
mod learn;
mod lists;
mod numbers;
mod order;
mod parts;
mod plane;
mod reason;
mod restarts;
mod round;
mod search;
mod start;
mod stock;
mod trail;
mod units;

pub use answer::refute;
pub use start::{Derived, Start};
