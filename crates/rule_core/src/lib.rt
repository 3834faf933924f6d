//! What every class of constraints shares: the counts of a schedule's games, and the rules that are evaluated on them.
//!
//! `Cells` keeps the counts while games come and go, and `Meetings` are counted on them. A contract sees `Cells` as a
//! `Table`, the number of teams with the list of all counts. What it says of the games, it says of the counts as a
//! function of home team, away team and slot, which `table_counts` makes of the table.
//!
//! A rule has entries by their keys, and says which keys a game touches, and whose games touch any; `IsRuleOf` says
//! what each class promises of the rule that it makes of a constraint. `Steps` counts how many entries are evaluated.
//!
//! A key is a place in a list, here in a constraint's deviation vector. `Keys` is a list of keys with a fixed room.
//! `Listed` and `Pairs` hold some teams or slots, and the pairs of some teams, and find the keys of a number or of a
//! pair by look-ups.
#![tactic(auto)]

mod bounds;
mod cells;
mod counters;
mod keep;
mod key_places;
mod keys;
mod listed;
mod meetings;
mod pairs;
mod place;
mod rule;
mod spare;
mod steps;
mod taken;

pub use bounds::outside;
pub use cells::Cells;
pub use keys::Keys;
pub use listed::Listed;
pub use meetings::Meetings;
pub use pairs::Pairs;
pub use place::Place;
pub use rule::{Entries, Rule};
pub use steps::{Plain, Steps};
