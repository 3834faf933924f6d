//! robin judges and makes schedules of sports leagues, and checks what refutes a league: the program, which calls `run`
//! over the machine's files, and brings its text to where it goes.
#![tactic(auto)]

mod kept;
mod line;
mod streams;

use crate::kept::run_kept;
use crate::line::{WordsFault, line_of};
use crate::streams::{ERRORS, INPUT, OUTPUT, stand_in};
use answers::{Status, code};
use robin_io::{HostSink, put_all};
use std::process::ExitCode;
use std::{env, io};

/// The exit status where the system gives no arguments, or one that isn't UTF-8.
const NO_ARGUMENTS: u8 = 10;

/// What is said on standard error where the system gives no arguments, or one that isn't UTF-8.
const UNREAD_WORDS: &str = "robin: the words can't be read: a word that isn't UTF-8, say\n";

/// The most words. No command has more, and reading a word takes room on the stack.
const MOST_WORDS: usize = 1000;

/// What is said on standard error where there is no memory for the words.
const NO_MEMORY: &str = "robin: memory ran out, and no answer was written\n";

/// The exit status where the words can't be had.
fn without_words(error: &io::Error) -> u8 {
    if error.kind() == io::ErrorKind::OutOfMemory {
        return code(Status::Memory);
    }
    NO_ARGUMENTS
}

/// What is said on standard error where the words can't be had and the run ends with this status.
fn reason_of(status: u8) -> &'static str {
    if status == NO_ARGUMENTS {
        UNREAD_WORDS
    } else {
        NO_MEMORY
    }
}

/// The words without the program's name, or the exit status where there are none.
fn arguments_of(rt: &HostRuntime) -> Result<Vec<String>, u8> {
    let arguments = match env::args(rt) {
        Ok(arguments) => arguments,
        Err(error) => return Err(without_words(&error)),
    };
    let mut words = Vec::new(rt.alloc());
    for word in arguments.skip(1) {
        if words.push(word).is_err() {
            return Err(code(Status::Memory));
        }
    }
    Ok(words)
}

/// Refuses words that the program itself takes.
fn refuse(rt: &HostRuntime, option: &str, fault: &str) -> Status {
    let _told = eprint!(rt;
        "robin: {option}{fault}\nrobin: robin --help lists the commands and their options\n"
    );
    match put_all(&mut HostSink::new(io::writer(rt)), b"refused words\n") {
        Ok(()) => Status::Words,
        Err(_) => Status::WriteFault,
    }
}

/// Follows the words, and gives the exit status.
fn status_of(rt: &HostRuntime, arguments: &[String]) -> u8 {
    if arguments.len() > MOST_WORDS {
        return code(refuse(rt, "the words", " are more than 1000"));
    }
    match line_of(rt.alloc(), arguments) {
        Ok(line) => code(run_kept(rt, &line)),
        Err(WordsFault::Wrong { option, fault }) => code(refuse(rt, option, fault)),
        Err(WordsFault::Memory) => {
            let _told = eprint!(rt; "{NO_MEMORY}");
            code(Status::Memory)
        }
    }
}

fn main(rt: HostRuntime) -> ExitCode {
    // What stands in for closed streams is held to the end.
    let _input = stand_in(&rt, INPUT);
    let _output = stand_in(&rt, OUTPUT);
    let _errors = stand_in(&rt, ERRORS);
    match arguments_of(&rt) {
        Ok(arguments) => ExitCode::from(status_of(&rt, &arguments)),
        Err(status) => {
            // The status says it too, so it doesn't matter whether this is written.
            let reason = reason_of(status);
            let _ = eprint!(rt; "{reason}");
            ExitCode::from(status)
        }
    }
}
