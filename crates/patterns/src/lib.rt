//! Home-away patterns: where each team plays, slot by slot, and how many breaks that makes.
//!
//! A contract sees a `Pattern` as its list of sides, and a `PatternSet` as the list of its patterns, one for each team
//! in order of team.
#![tactic(auto)]

pub mod laws;
mod pattern;
mod pattern_set;

pub use pattern::{Pattern, breaks_of};
pub use pattern_set::{PatternSet, canonical, of_schedule};
