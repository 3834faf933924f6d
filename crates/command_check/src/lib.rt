//! What `validate` answers: the judgement of a schedule by a league, as a report. And what `check` answers: the verdict
//! on a refutation log over the rows of a league; `judge_log` reads and judges a log over any rows.
//!
//! A contract sees the answers by the stages of `specs/Validate.antt` and `specs/Check.antt`, the judgement by the
//! definitions of `league`, and the verdict by those of `refutation`.
#![tactic(auto)]

mod feeding;
mod judging;
mod lines;
mod replies;
mod stages;
mod validate_stages;

pub use feeding::LOG_LIMIT;
pub use judging::{judge, judgement};
pub use lines::{head, push_constraint, structure_line, verdict};
pub use replies::verdict_reply;
pub use stages::{check, judge_log};
pub use validate_stages::validate;
