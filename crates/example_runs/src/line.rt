//! The lines of standard input: titles, files that are made, commands, and what is shown of their answers.
use crate::answered::{show_judged, show_least};
use crate::ended::{Ended, run_failing, run_line};
use crate::files::{cut, join, show_fronts};
use crate::plans::show_plan;
use std::alloc::AllocError;
use std::{fs, io};

/// Follows a line.
pub fn follow(rt: &HostRuntime, line: &str) -> io::Result<()> {
    if line.starts_with("# ") {
        return println!(rt; "{line}");
    }
    println!(rt; "robin {line}")?;
    let (asked, name) = line.split_once(" > ").unwrap_or((line, ""));
    let (kind, words) = asked.split_once(' ').unwrap_or((asked, ""));
    match kind {
        "join" => join(rt, words, name),
        "cut" => cut(rt, words, name),
        "fronts" => show_fronts(rt, words),
        "first-plan" => show_plan(rt, words),
        _ => follow_command(rt, asked, name),
    }
}

/// Runs the command of a line, shows of its answer what is asked for, and writes its text into the file of this name, or
/// into the file `answer`.
fn follow_command(rt: &HostRuntime, asked: &str, name: &str) -> io::Result<()> {
    let (name, otherwise) = match name {
        "" => ("answer", "all"),
        _ => (name, "0"),
    };
    let (command, shown) = asked.split_once(" | ").unwrap_or((asked, otherwise));
    let ended = answer_to(rt, command)?;
    fs::write(rt, name, ended.text())?;
    show(rt, command, &ended, shown)
}

/// Runs a command, over the files of the machine or on devices that fail.
fn answer_to(rt: &HostRuntime, command: &str) -> Result<Ended, AllocError> {
    match command.split_once(" @ ") {
        Some((command, devices)) => run_failing(rt, command, devices),
        None => run_line(rt, command),
    }
}

/// Shows of an answer what is asked for.
fn show(rt: &HostRuntime, command: &str, ended: &Ended, shown: &str) -> io::Result<()> {
    match shown {
        "all" => return ended.show(rt),
        "true" => return show_judged(rt, command, ended, "true to its status"),
        "least" => return show_least(rt, command, ended.status),
        "judged" => show_judged(rt, command, ended, "")?,
        "words" => show_words(rt, ended.text())?,
        "lines" => println!(rt; "lines {}", ended.text().lines().count())?,
        count => show_lines(rt, ended.text(), count)?,
    }
    ended.show_status(rt)
}

/// Shows the first lines, so many.
fn show_lines(rt: &HostRuntime, text: &str, count: &str) -> io::Result<()> {
    for line in text.split('\n').take(count.parse::<usize>().unwrap_or(0)) {
        println!(rt; "{line}")?;
    }
    Ok(())
}

/// Shows the lines that begin with a small letter. The other lines are of seasons, leagues and steps.
fn show_words(rt: &HostRuntime, text: &str) -> io::Result<()> {
    for line in text.split('\n') {
        if let [b'a'..=b'z', ..] = line.as_bytes() {
            println!(rt; "{line}")?;
        }
    }
    Ok(())
}
