//! A run whose text goes into a file, or to standard output.

use crate::line::Line;
use answers::{Advice, Goes, Status, goes_to};
use command_line::{Topic, read_words, seconds_of};
use robin_host::{Draft, HostWatch, InputShelf, SeasonKeeper, Telling, hand_on};
use robin_io::{HostShelf, HostSink, Sink, put_all};
use robin_run::run;
use std::alloc::AllocError;
use std::io::{self, IsTerminal};

/// Who is told how a run goes.
fn telling_of(rt: &HostRuntime, quiet: bool) -> Telling {
    if quiet {
        Telling::Nobody
    } else if rt.stderr().is_terminal() {
        Telling::Terminal
    } else {
        Telling::File
    }
}

/// The file that gets the best season so far.
fn best_of<'a>(line: &Line<'a>) -> Option<&'a str> {
    match line.command {
        Some(Topic::Solve) => line.out,
        _ => None,
    }
}

/// Runs the command over the machine's files and its standard error. Its text goes to a sink.
fn run_into<K: Sink>(rt: &HostRuntime, line: &Line, out: &mut K) -> Status {
    let mut shelf = InputShelf::new(HostShelf::new(rt), rt.stdin());
    let mut told = HostSink::new(rt.stderr());
    let watch = HostWatch::new(rt, seconds_of(&line.words), telling_of(rt, line.quiet));
    let keeper = SeasonKeeper::new(watch, rt, rt.alloc(), best_of(line));
    run(rt.alloc(), &line.words, &mut shelf, out, &mut told, &keeper)
}

/// What is told where a file can't be written.
fn advice_on(rt: &HostRuntime, file: &str, reason: &str) -> Result<Advice, AllocError> {
    let mut advice = Advice::new(rt.alloc());
    advice.say("robin: can't write ")?;
    advice.show(file.as_bytes())?;
    advice.say(": ")?;
    advice.say(reason)?;
    advice.end_line()?;
    Ok(advice)
}

/// Tells that a file can't be written, and gives the status that says so.
fn unwritten(rt: &HostRuntime, file: &str, reason: &str) -> Status {
    if let Ok(advice) = advice_on(rt, file, reason) {
        let _told = put_all(&mut HostSink::new(rt.stderr()), advice.text());
    }
    Status::WriteFault
}

/// Runs the command, and brings its text to where it goes.
pub(crate) fn run_kept(rt: &HostRuntime, line: &Line) -> Status {
    match line.out.or(line.log) {
        Some(file) if read_words(&line.words).is_some() => run_checked(rt, line, file),
        _ => run_into(rt, line, &mut HostSink::new(io::writer(rt))),
    }
}

/// Runs the command where the files that may get its text can be written.
fn run_checked(rt: &HostRuntime, line: &Line, file: &str) -> Status {
    if let Some(status) = fault_before(rt, line.out) {
        return status;
    }
    if let Some(status) = fault_before(rt, line.log) {
        return status;
    }
    run_beside(rt, line, file)
}

/// How a run ends before it begins, since a file can't be written.
fn fault_before(rt: &HostRuntime, file: Option<&str>) -> Option<Status> {
    let file = file?;
    match Draft::new(rt, rt.alloc(), file).check() {
        Ok(()) => None,
        Err(reason) => Some(unwritten(rt, file, reason)),
    }
}

/// Runs the command, writes its text beside a file, and brings it to where it goes.
fn run_beside(rt: &HostRuntime, line: &Line, file: &str) -> Status {
    let mut draft = Draft::new(rt, rt.alloc(), file);
    let status = run_into(rt, line, &mut draft);
    let goes = match goes_to(line.command, status) {
        Goes::Out => line.out,
        Goes::Log => line.log,
        Goes::Shown => None,
        Goes::Nowhere => {
            let reason = draft.reason();
            draft.leave();
            return match status {
                Status::WriteFault => unwritten(rt, file, reason),
                _ => status,
            };
        }
    };
    match goes {
        None => show(rt, draft, status),
        Some(goal) if goal == file => keep(rt, draft, file, status),
        Some(goal) => carry(rt, draft, goal, status),
    }
}

/// Puts a text into the place of the file beside which it was written.
fn keep(rt: &HostRuntime, draft: Draft<HostRuntime>, file: &str, status: Status) -> Status {
    match draft.keep() {
        Ok(()) => status,
        Err(reason) => unwritten(rt, file, reason),
    }
}

/// Hands a text on that was written beside a file, and lets it go. Says whether it came whole.
fn hand_over<K: Sink>(rt: &HostRuntime, draft: Draft<HostRuntime>, out: &mut K) -> bool {
    let whole = match draft.name() {
        Some(name) => hand_on(&mut HostShelf::new(rt), name, out).is_ok(),
        None => true,
    };
    draft.leave();
    whole
}

/// Brings a text to standard output.
fn show(rt: &HostRuntime, draft: Draft<HostRuntime>, status: Status) -> Status {
    if hand_over(rt, draft, &mut HostSink::new(io::writer(rt))) {
        return status;
    }
    let _told = eprint!(rt; "robin: the text could not be written whole\n");
    Status::WriteFault
}

/// Brings a text that was written beside one file into another one.
fn carry(rt: &HostRuntime, draft: Draft<HostRuntime>, file: &str, status: Status) -> Status {
    let mut goal = Draft::new(rt, rt.alloc(), file);
    if hand_over(rt, draft, &mut goal) {
        return keep(rt, goal, file, status);
    }
    let reason = goal.reason();
    goal.leave();
    unwritten(rt, file, reason)
}
