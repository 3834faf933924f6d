//! What the commands answer that make something: `solve` a schedule that a league accepts, a log that refutes it, or
//! one that is spent; `patterns` patterns that the pattern rows of a league allow, or such logs; `circle` the season of
//! the circle method; `make` the league that a number of teams and a seed make; and `trial` what `solve` says of that
//! league.
//!
//! A contract sees the answers of `solve` by the stages of `specs/Solve.antt` and `specs/From.antt`, and those of
//! `patterns` by `specs/Patterns.antt`. What is found is said by the definitions of `solve` and of `league_search`.
#![tactic(auto)]

mod comments;
mod from_season;
mod instance;
mod made;
mod pattern_lines;
mod patterns_replies;
mod patterns_stages;
mod schedules;
mod season;
mod solve_replies;
mod solve_stages;
mod summary;

pub use from_season::solve_from_file;
pub use instance::make_league;
pub use made::trial;
pub use patterns_stages::patterns_file;
pub use schedules::{first_objective, schedule_text};
pub use season::circle;
pub use solve_stages::solve_file;
