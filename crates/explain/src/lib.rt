//! Why a league's demands can't be met: hard constraints of it that no schedule meets together, shown by a log, and
//! for each of them a schedule that meets the others.
//!
//! `specs/Conflicts.antt` says what each answer promises. One conflict is shown, not all that a league has; it comes
//! out small, and need not be the smallest.
#![tactic(auto)]

mod attempt;
mod cases;
mod cores;
mod explained;
mod explainer;
mod fault;
mod hard;
mod maker;
mod member;
mod members;
mod names;
mod smaller;
mod used;

pub use cases::{Case, Cases};
pub use explained::Explained;
pub use explainer::explain;
pub use fault::PartFault;
pub use hard::{hard_numbers, is_hard_number};
pub use maker::{is_ascending, part};
pub use members::Members;
