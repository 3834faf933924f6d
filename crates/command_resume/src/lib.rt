//! What `resume` and `audit` answer of a season partly played: a schedule that keeps the played games, a log that there
//! is none, or one that is spent; and the verdict on such a log.
//!
//! A contract sees the answers by the stages of `specs/Resumed.antt`, `specs/Near.antt` and `specs/Audited.antt`, and
//! what is found by the definitions of `resume`.
#![tactic(auto)]

mod audited;
mod behind;
mod counted;
mod near;
mod near_replies;
mod replies;
mod resumed;
mod season;

pub use audited::{Audit, audit_file};
pub use near::{NearResumption, resume_near_file};
pub use resumed::{Resumption, resume_file};
