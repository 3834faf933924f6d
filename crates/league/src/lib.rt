//! Leagues and schedules: teams, slots, games, constraints, and whether a schedule is a double round robin.
//!
//! A contract sees a set as a strictly ascending list, a `Schedule` as its list of games, and a `League` as the record
//! `Instance`. What a constraint demands of a schedule is defined in `specs/`, for all nine classes.
#![tactic(auto)]

mod ascending;
mod class;
mod game;
mod grid;
mod league;
mod pair_set;
mod schedule;
mod slot_set;
mod team_set;
mod wrongs;

pub use class::{Bounds, Class, ClassName, Constraint, Side, Span};
pub use game::{Game, SlotId, TeamId};
pub use grid::Grid;
pub use league::{League, is_team_count, slot_count};
pub use pair_set::PairSet;
pub use schedule::Schedule;
pub use slot_set::SlotSet;
pub use team_set::TeamSet;
pub use wrongs::{Wrongs, structure};
