//! What `show` answers: a season as a grid of teams by slots, with what is counted of each team below it, and with what
//! the season lacks and misses in words; or its games as comma-separated values (RFC 4180); or what a league demands.
//!
//! A contract sees the answer by the stages of `specs/Show.antt`, and the text by `specs/Grid.antt` and
//! `specs/Csv.antt` and by the definitions of `season_misses`.
#![tactic(auto)]

mod asked;
mod blocks;
mod cell;
mod columns;
mod csv;
mod form;
mod grid;
mod head;
mod judged;
mod laws;
mod season;
mod stages;
mod tallies;
mod texts;
mod widths;

pub use asked::demands;
pub use csv::season_csv;
pub use form::Form;
pub use grid::season_grid;
pub use laws::{blocks_hold_slots, cells_name_games, tallies_add_up};
pub use season::Season;
pub use stages::show;
