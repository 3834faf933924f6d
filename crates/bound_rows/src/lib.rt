//! The rows that say: a schedule that a league accepts, with an objective of at most a bound. They are faithful both
//! ways: such a schedule gives values that satisfy them, and what satisfies them decodes to one.
//!
//! `specs/BoundRows.antt` has the rows: those of the league, those of each soft constraint with unit variables that
//! soften them, one that bounds what the units cost, and those that order the units of a group. Their terms are counted
//! before they are made.
#![tactic(auto)]

mod base;
mod count;
mod draft;
mod groups;
pub mod laws;
mod makers;
mod objective;
mod order;
mod parts;
mod separation;
mod sets;
mod sizes;
mod softened;
mod system;
mod units;
mod written;

pub use base::{base_vars, is_paid, needs_breaks};
pub use count::bound_terms;
pub use makers::se1_part;
pub use objective::push_objective;
pub use order::push_orders;
pub use parts::parts_of;
pub use softened::add_softened;
pub use system::{BoundSystem, bound_system};
pub use units::{Units, unit_count};
