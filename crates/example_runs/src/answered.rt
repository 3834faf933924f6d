//! Answers of `solve` and `prove`, held against `validate`, `check` and `bound`.
use crate::ended::{Ended, number_in, run_words};
use std::{fs, io};

/// The most steps from a season to a better one.
const MOST_STEPS: usize = 100;

/// The status of `prove` where a season is bettered.
const BETTER: u8 = 9;

/// The instance file of a command: its second word.
fn instance_in(command: &str) -> &str {
    command.split(' ').nth(1).unwrap_or("")
}

/// What an answer of this status comes to: these words, if there are any and it is true to its status.
fn outcome_of(status: u8, is_true: bool, words: &str) -> &str {
    if !is_true {
        return "an answer that isn't what its status says";
    }
    if !words.is_empty() {
        return words;
    }
    match status {
        0 => "a schedule, accepted with its objective",
        4 => "a refutation, accepted",
        _ => "spent, each step follows",
    }
}

/// Shows what an answer of `solve`, which is in the file `answer`, comes to where `validate` or `check` looks at it, or
/// these words in place of that, if there are any.
pub fn show_judged(rt: &HostRuntime, command: &str, ended: &Ended, words: &str) -> io::Result<()> {
    let judge = match ended.status {
        0 => "validate",
        _ => "check",
    };
    let is_true = is_true(
        ended,
        &run_words(rt, judge, instance_in(command), "answer")?,
    );
    let outcome = outcome_of(ended.status, is_true, words);
    println!(rt; "{outcome}")
}

/// Whether an answer of `solve` is what its status says: a schedule that `validate` accepts with the objective that it
/// has there, a log that `check` accepts, or one whose steps follow and have no empty clause among them.
fn is_true(ended: &Ended, judged: &Ended) -> bool {
    match (ended.status, judged.status) {
        (0, 0) => {
            let named = between(ended.text(), " objective=\"", "\"");
            !named.is_empty() && named == between(judged.text(), "\nobjective ", "\n")
        }
        (4, 0) => true,
        (5, 1) => judged.text().contains(" cause NoEmptyClause\n"),
        _ => false,
    }
}

/// What stands behind a mark, up to the next end, or nothing.
fn between<'t>(text: &'t str, mark: &str, end: &str) -> &'t str {
    let (_, rest) = text.split_once(mark).unwrap_or((text, ""));
    let (found, _) = rest.split_once(end).unwrap_or(("", rest));
    found
}

/// Gives each better season to `prove` until nothing is better; the first answer is in the file `answer`. Shows what
/// `bound` says of the certificate, and the last status.
pub fn show_least(rt: &HostRuntime, command: &str, first: u8) -> io::Result<()> {
    let instance = instance_in(command);
    let status = last_status(rt, instance, first)?;
    let text = fs::read_to_string(rt, "answer")?;
    show_bounds(rt, instance, text.as_str(), status)
}

/// Shows the first line of a certificate, what `bound` says of it, and what it says where the certificate states one
/// more. That of 0 has no log, so that of 1 wants one. Then shows a status.
fn show_bounds(rt: &HostRuntime, instance: &str, text: &str, status: u8) -> io::Result<()> {
    let (line, log) = text.split_once('\n').unwrap_or(("", ""));
    let least = number_in(line.strip_prefix("bound ").unwrap_or(""));
    show_bound(rt, instance, least, log)?;
    show_bound(rt, instance, least.saturating_add(1), log)?;
    println!(rt; "status {status}")
}

/// The status of `prove` in the end, whose answer is in the file `answer`.
fn last_status(rt: &HostRuntime, instance: &str, first: u8) -> io::Result<u8> {
    let mut status = first;
    for _ in 0..MOST_STEPS {
        if status == BETTER {
            status = prove_answer(rt, instance)?;
        }
    }
    Ok(status)
}

/// Gives the season in the file `answer` to `prove`, whose answer takes its place.
fn prove_answer(rt: &HostRuntime, instance: &str) -> io::Result<u8> {
    let ended = run_words(rt, "prove", instance, "answer --conflicts all")?;
    fs::write(rt, "answer", ended.text())?;
    Ok(ended.status)
}

/// Shows what `bound` says of a certificate with this bound and this log behind it.
fn show_bound(rt: &HostRuntime, instance: &str, least: u64, log: &str) -> io::Result<()> {
    write_certificate(rt, least, log)?;
    let status = run_words(rt, "bound", instance, "certificate")?.status;
    let verdict = match status {
        0 => "accepted",
        1 => "rejected",
        3 => "refused",
        _ => "not judged",
    };
    println!(rt; "bound {least}: {verdict}")
}

/// Writes a certificate with this bound and this log into the file `certificate`.
fn write_certificate(rt: &HostRuntime, least: u64, log: &str) -> io::Result<()> {
    let certificate = format!(in rt.alloc(); "bound {least}\n{log}")?;
    fs::write(rt, "certificate", certificate.as_str())
}
