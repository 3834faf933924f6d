//! The deviation vectors of all nine classes of constraints, and the assessment of a schedule by a league.
//!
//! Each class is made from a constraint, and is then a `Rule` for every ledger. Its entries are those of the
//! constraint's deviation vector, as `league` defines it: `ca1` to `ca4` count games of teams in slots, `ga1` games of
//! meetings, `br1` and `br2` breaks, `fa2` how far two teams' home games are apart, and `se1` the slots between the
//! games of a pair.
//!
//! A contract sees an assessment by the definitions of `league`: the three counts of what a schedule lacks of a double
//! round robin, the vector of each constraint, what they cost, and whether the league accepts the schedule.
#![tactic(auto)]

mod any_rule;
mod assessment;
mod between;
mod bits;
mod br1;
mod br2;
mod break_sums;
mod by_slot;
mod ca1;
mod ca2;
mod ca3;
mod ca4;
mod counting;
mod entries;
mod fa2;
mod ga1;
mod gaps;
mod hosts;
mod leads;
mod opponents;
mod played;
mod scope;
mod se1;
mod sums;
mod team_gaps;
mod vectors;
mod weights;

pub use any_rule::AnyRule;
pub use assessment::{Assessment, assess};
pub use br1::Br1;
pub use br2::Br2;
pub use ca1::Ca1;
pub use ca2::Ca2;
pub use ca3::Ca3;
pub use ca4::Ca4;
pub use counting::counted;
pub use entries::entries_of;
pub use fa2::Fa2;
pub use ga1::Ga1;
pub use se1::Se1;
pub use vectors::Vectors;
pub use weights::total;
