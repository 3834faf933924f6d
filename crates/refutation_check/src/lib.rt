//! What a refutation log proves: its verdict over rows, and the law that an accepted log refutes them.
//!
//! A `Checker` takes a log's steps one after another, and `check` a whole log. `specs/Judged.antt` says what steps come
//! to, `specs/Soundness.antt` what an accepted log proves, and `specs/Room.antt` how much its steps take.
#![tactic(auto)]

mod adding;
mod checker;
mod clause;
mod fault;
mod forgetting;
mod judge;
mod keep;
mod kept;
mod last;
mod laws;
mod lean;
mod named;
mod replay;
mod row_hash;
mod shared;
mod trail;
mod whole;

pub use checker::Checker;
pub use fault::StepsFault;
pub use laws::{accepted_logs_refute, steps_give_verdict};
pub use refutation::{Cause, Verdict};
pub use whole::{check, check_within, give_all};
