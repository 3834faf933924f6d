//! What a season misses, in words with the names of teams: each constraint that isn't met, by how much, and by which
//! games; and what the season lacks of a double round robin.
//!
//! `specs/Lines.antt` has the line of each class, `specs/Misses.antt` which constraints are told and in which order,
//! and `specs/Lacks.antt` the lines on the double round robin.
//!
//! `reasons` says why a constraint is missed: for each entry of its deviation vector that isn't 0, by how much, and by
//! which games of the schedule. `specs/Counting.antt` says which games count for an entry, class by class, and
//! `specs/Reasons.antt` what is said of an entry.
//!
//! `demand_words` says what a constraint demands: `each of Ajax and Brug: at most 2 home games in slots 0 to 2`.
//! `specs/Phrases.antt` defines the parts of a sentence, and `specs/Demands.antt` the sentence of each class.
#![tactic(auto)]

mod amounts;
mod apart;
mod bounded;
mod break_lines;
mod breaks;
mod classes;
mod counted_games;
mod cut;
mod demands;
mod game_test;
mod game_words;
mod gaps;
mod gravest;
mod label;
mod leads;
mod lines;
mod lists;
mod miss;
mod numbers;
mod pairs;
mod reason;
mod row;
mod season;
mod slots;
mod structure;
mod teams;
mod tests_of_games;
mod told;

pub use classes::reasons;
pub use demands::{constraint_words, demand_words};
pub use label::Label;
pub use lists::listed;
pub use pairs::pair_at;
pub use reason::{Break, BreakList, Cause, GameList, Reason};
pub use season::{Season, TeamGames};
pub use structure::lacks;
pub use told::{Told, misses};
