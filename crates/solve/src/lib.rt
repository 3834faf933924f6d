//! A schedule that a league accepts, or a proof that there is none.
//!
//! `specs/Solutions.antt` says what each answer promises.
#![tactic(auto)]

mod attempt;
mod by_planes;
mod circle;
mod counting;
mod from_season;
mod from_walk;
mod lower;
mod prefer;
mod share;
mod solved;
mod solver;
mod told;
mod tries;

pub use from_season::solve_from;
pub use lower::{Season, lowered, lowered_watched};
pub use solved::Solved;
pub use solver::solve;
pub use tries::Tried;
