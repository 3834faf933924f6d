//! What other solvers read and print: rows as a text in OPB, the format of the pseudo-Boolean competitions, and values
//! of variables, read as literals and as an assignment.
//!
//! `specs/Opb.antt` says what a text of rows says, and `specs/Texts.antt` which text is written. It goes to a sink as
//! it is made, so that no more than 64 KiB of it are held at a time. `specs/Values.antt` says what a file of values
//! says.
#![tactic(auto)]

mod assigned;
mod fault;
mod lines;
mod rows_out;
mod stream;
mod system_out;
mod waiting;
mod word;

pub use assigned::assignment_of;
pub use fault::ValuesFault;
pub use lines::read_values;
pub use system_out::put_system;
pub use waiting::Waiting;
