//! The machine: files that are replaced whole or not at all, and standard input as a file; and its watch, with its
//! clock, the signals that wait for the program, its standard error, and the file that keeps the best season so far.
//!
//! A contract sees no byte of a file. It says how the new file beside it is called, and that a text is handed on whole.
#![tactic(auto)]

mod aim;
mod bar;
mod clock;
mod draft;
mod handing;
mod heard;
mod input;
mod keeper;
mod line;
mod names;
mod rate;
mod reasons;
mod season;
mod signals;
mod stage;
mod telling;
mod turns;
mod watch;

pub use draft::Draft;
pub use handing::hand_on;
pub use input::{INPUT, InputShelf};
pub use keeper::SeasonKeeper;
pub use telling::Telling;
pub use watch::HostWatch;
