//! A search that learns clauses: values that satisfy rows, or a log that refutes them. It is conflict-driven clause
//! learning, as in GRASP and Chaff, over pseudo-Boolean rows.
#![tactic(auto)]

mod analyze;
mod desk;
mod forget;
mod found;
mod kept;
mod learn;
mod levels;
mod mark;
mod names;
mod order;
mod pick;
mod restarts;
mod role;
mod text;
mod turn;
mod walk;

pub use found::Found;
pub use text::tidy_text;
pub use walk::{search, search_watched};
