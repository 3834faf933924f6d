//! A league's encoding is faithful both ways: the shadow of an accepted schedule satisfies its rows, and an assignment
//! that satisfies them decodes to an accepted schedule. So a refutation log that is accepted over the rows proves that
//! the league accepts no schedule.
#![tactic(auto)]

mod decoder;
pub mod laws;
mod league_logs;
mod log_laws;
mod shadows;

pub use decoder::{decode, decode_games};
pub use league_logs::{check_log, checker_of};
pub use log_laws::accepted_logs_exclude;
pub use shadows::shadow;
