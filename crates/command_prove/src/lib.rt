//! What `prove` answers: that a schedule can't be bettered, or that none costs less than a number, with a certificate; a
//! better one; or a log that is spent. And what `bound` answers: the verdict on a certificate that no schedule that a
//! league accepts has a lower objective.
//!
//! A contract sees the answers by the stages of `specs/Prove.antt` and `specs/Bound.antt`, what is shown by the
//! definitions of `bounds`, of a floor by those of `specs/Floor.antt`, and the verdict by those of `refutation` over bound
//! rows.
#![tactic(auto)]

mod bound_replies;
mod bound_stages;
mod checked;
mod floor_replies;
mod measured;
mod prove_replies;
mod prove_stages;

pub use bound_stages::{bound_file, few_terms};
pub use checked::check_bound;
pub use prove_stages::{Aim, prove_file};
