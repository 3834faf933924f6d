//! The call that the program makes: it follows the words of the command line over any store of files and any sink.
//!
//! `specs/Answer.antt` says what a run may answer; each command's own crate says what its answer is.
#![tactic(auto)]

mod call;
mod given;

pub use call::run;
