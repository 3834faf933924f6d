//! A season of which the first slots are played: a schedule that the league accepts and that keeps the played games, or
//! a log that no such schedule is there, and its check.
//!
//! `specs/Answers.antt` says what each answer promises. A log is over the resume rows: the rows of the league, and for
//! each meeting in each of these slots a clause that says whether the game takes place. `specs/Kept.antt` has them, and
//! `specs/Resumable.antt` says what they mean: an accepted schedule that keeps the played games.
//!
//! `descend_near` betters a season by moves that leave the first slots alone. Each leads to a season that the league
//! accepts and that changes fewer games of an old plan, or as many at a lower cost. It says whether the season at its
//! end is settled: whether no single move that leaves these slots alone betters it. A watch may end it, and then this
//! isn't known.
#![tactic(auto)]

mod better;
mod bettered;
mod changed;
mod checked;
mod fixed;
mod freed;
mod ground;
mod judged;
mod kept;
mod kept_walk;
mod merge;
mod near;
mod nearest;
mod old_plan;
mod plan;
mod repair;
mod resumed;
mod resumer;
pub mod row_laws;
mod season;
mod size;
mod system;
mod unheard;
pub mod walk_laws;

pub use bettered::resume_lowered;
pub use changed::{changed_games, open_games};
pub use checked::{check_resume, checker_of};
pub use near::{Neared, PartSeason, nearer_answer, resume_near};
pub use nearest::{Nearest, descend_near, is_settled};
pub use old_plan::OldPlan;
pub use resumed::Resumed;
pub use resumer::resume;
pub use size::resume_size;
pub use system::{ResumeSystem, copied, resume_system, season_meetings};
