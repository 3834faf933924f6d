//! Refutation logs: their steps, and their text, written whole, read whole and in pieces.
//!
//! A contract sees a `Log` as its list of steps. `specs/Logs.antt` says what a text says, and `specs/Texts.antt` which
//! text is written. `specs/Following.antt` and `specs/Verdict.antt` say what a log proves of rows.
#![tactic(auto)]

mod fault;
mod feed;
mod front;
mod group;
mod line;
mod log;
mod place;
mod step;
mod text;
mod token;
mod verdict;
mod version;

pub use fault::{LogFault, LogKind};
pub use feed::{LogFeed, read_log};
pub use log::Log;
pub use step::{Part, StepKind};
pub use text::log_text;
pub use verdict::{Cause, Verdict};
pub use version::Version;
