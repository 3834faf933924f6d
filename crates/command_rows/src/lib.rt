//! What `rows` and `values` answer: the rows of a league as a text in OPB, for solvers that read it; and the season
//! that a solver's values stand for, or the first row that they miss.
//!
//! A contract sees the answers by the stages of `specs/Rowed.antt` and `specs/Valued.antt`. The rows are made first;
//! the text is written as it is made. `specs/Least.antt` says what a least sum over the rows is.
#![tactic(auto)]

pub mod laws;
mod met;
mod prices;
mod rows_stages;
mod values_replies;
mod values_stages;
mod written;

pub use rows_stages::rows_file;
pub use values_stages::values_file;
pub use written::{ReadyRows, write_rows};
