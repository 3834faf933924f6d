//! What watches over a long run: how far it may go, whether it is to end before that, and who hears how it goes.
//!
//! `Budgets` are what the words of the command line say, and what a solver keeps to. A stop is a limit that is lowered
//! while the run goes (`specs/Limits.antt`), so that what a run answers within a limit needs no second reading. A
//! `Listener` hears of seasons too.
#![tactic(auto)]

mod budgets;
mod doubles;
mod kept;
mod listener;
mod watch;

pub use budgets::Budgets;
pub use doubles::{StopsAt, Unwatched};
pub use kept::kept_limit;
pub use listener::Listener;
pub use watch::{News, Phase, Watch};
