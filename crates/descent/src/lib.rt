//! A descent: moves that lower what a schedule costs, one after another, until none is left that does. And a tally:
//! kept deviations, with which each move is weighed.
//!
//! `descend` starts from the games of a tally. Each of its moves is legal and lowers the score, the infeasibility first
//! and then the objective, both of them kept by the tally; so it leads from one double round robin to the next. It says
//! whether the games at its end are settled: whether no legal move at all lowers their score. A watch may end it.
//!
//! A `Tally` is seen as its weighted rules and the counts of its games. What it keeps, the deviation vectors, the
//! infeasibility and the objective, is at every moment what these rules give on these counts. An edit evaluates each
//! key that its games touch once, and takes no memory; and so does a look at what an edit would cost, which leaves all
//! as it is (`Tally::weigh`). Where the rules are those of a league's constraints, as `league_tally` makes them, the
//! kept values are the league's own (`tally_laws`).
#![tactic(auto)]

mod bench;
mod by_team;
mod change;
mod descent;
mod exchange;
mod find;
mod keep;
mod kept;
mod key_set;
pub mod laws;
mod league_rules;
mod look;
mod score;
mod season;
mod taker;
mod tally;
pub mod tally_laws;
mod walk;
mod weigh;
mod weighted;

pub use descent::{Descent, descend, descend_watched};
pub use find::all_moves;
pub use league_rules::{league_tally, weighted_rules};
pub use look::{Ended, is_asked_at};
pub use score::Score;
pub use season::season_of;
pub use tally::Tally;
pub use weigh::Sums;
pub use weighted::Weighted;
