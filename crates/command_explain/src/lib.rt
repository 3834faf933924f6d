//! What `part` and `explain` answer: the league of some hard constraints, or hard constraints that contradict each
//! other with a case for each.
//!
//! A contract sees the answers by the stages of `specs/Parted.antt` and `specs/Explained.antt`, and what is found by
//! the definitions of `explain` and `explain`.
#![tactic(auto)]

mod hints;
mod parted;
mod replies;
mod stages;
mod texts;

pub use parted::part_file;
pub use stages::explain_file;
