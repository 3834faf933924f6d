//! Floors: numbers below which no schedule that a league accepts costs, each with a log that proves it.
//!
//! `floor_of` counts, without any search. Laws say what single soft constraints cost at least: the law of the fewest
//! breaks of BR1 and BR2, and that of the mean gap of SE1. Their costs are summed, and so are the rows that prove them.
//! `plane_floor` searches by cutting planes, and begins with the rows of venues and of the fewest breaks. What is found
//! is checked before it is given.
#![tactic(auto)]

mod best;
mod breaks;
mod bytes;
mod draft;
mod floor;
mod gaps;
mod groups;
mod laws;
mod log;
mod plane_search;
mod plane_start;
mod summands;
mod windows;

pub use best::best_floor;
pub use floor::{Floor, floor_of};
pub use plane_search::plane_floor;
