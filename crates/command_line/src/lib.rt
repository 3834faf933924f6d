//! The words of the command line, and what they ask for.
//!
//! A contract sees the words as a list of texts, of which `specs/Words.antt` has the one reading.
#![tactic(auto)]

mod arguments;
mod fault;
mod goal;
mod list;
mod log_words;
mod option_names;
mod option_values;
mod plain_words;
mod role;
mod row_words;
mod search_words;
mod show_words;
mod topic;
mod values;
mod words;

pub use fault::{WordFault, why_refused};
pub use goal::Goal;
pub use list::members;
pub use option_values::{room_of, seconds_of};
pub use role::Role;
pub use topic::{Topic, name_of, topic_of};
pub use words::{Words, read_words};
