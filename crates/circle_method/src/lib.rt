//! The canonical schedules, by the circle method: a single and a double round robin of any even number of teams up to
//! 40.
//!
//! A contract sees a schedule as its list of games. `specs/Circle.antt` lists the games by a formula, and
//! `specs/Breaks.antt` says how few breaks they have.
#![tactic(auto)]

mod circle;

pub use circle::{double, single};
