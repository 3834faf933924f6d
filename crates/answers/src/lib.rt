//! What a run answers: how it ends and the text that it writes, the answers that refuse, and the stages that commands
//! have in common, which read a file and write the answer.
//!
//! A contract sees an answer as its status and its bytes. `specs/Stages.antt` says what a stage before the answer is.
//!
//! The program itself takes some words: `--help` and `--version`, which pages of one table answer; `--out` and `--log`,
//! which name files; `--quiet`, which asks for no word of how a run goes; and `-` in place of a file's name, which
//! stands for standard input. All other words are left to the command. A contract sees the answer of `help` and of
//! `version` as the page itself. `refuse_words` tells what is wrong with refused words.
#![tactic(auto)]

mod advice;
mod goes;
mod help_answer;
mod hints;
mod input;
mod items;
mod own;
mod pages;
mod refusal;
mod reply;
mod stages;
mod status;
mod taken;
mod words;

pub use advice::Advice;
pub use goes::{Goes, goes_to};
pub use help_answer::{help, version};
pub use input::{is_twice, with_input};
pub use own::Own;
pub use refusal::{Refusal, log_refused, malformed, past_limit, rows_refused, unreadable};
pub use reply::{NoValue, Reply, words_refused};
pub use stages::{file, league_in, schedule_in, write_answer};
pub use status::{Status, code};
pub use taken::{Standing, is_name, is_quiet, left_words, value_of};
pub use words::refuse_words;
