//! Made leagues: for each number of teams and each seed a league of all nine classes, with hard constraints that the
//! schedule of the circle method meets.
//!
//! A contract sees a made league as the one of `specs/Made.antt`, a formula over the words that the generator of the
//! seed gives.
#![tactic(auto)]

mod circle;
mod draws;
mod fixed;
mod kind;
mod made;
mod sets;

pub use made::make;
