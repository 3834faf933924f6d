// One line: the heading, the end, or a step.
ghost use Rattle.std.specs.Prelude.{◌≡◌, ◌≤◌, ◌++◌, [], ◌∷◌, None, Some, IfOk, OnOk, IsTrue};
ghost use Rattle.std.specs.List.{All};
ghost use Rattle.refutation.specs.Steps.{Step};
ghost use Rattle.refutation.specs.Lines.{are_pairs, clause_step, groups_of, linear_step, marked_step, paired};
ghost use Rattle.refutation.specs.Lines.{step_line, tokens_of};
ghost use Rattle.refutation.specs.Logs.{heading_of, line_of, words_of};
ghost use Rattle.refutation.specs.Tokens.{tokens_left};
ghost use Rattle.refutation.specs.Outcomes.{EndsLine, Heads, ReadsClause, ReadsLine, ReadsLinear, ReadsStep};

use crate::fault::{LogKind, Stop};
use crate::group::{literals_at, numbers_at};
use crate::log::Log;
use crate::step::Part;
use crate::token::{Item, number_at};
use crate::version::Version;
use memchr::memchr;
use rows::Lit;
use std::alloc::{AllocError, Global};

/// The most bytes of a line.
pub(crate) const MOST_BYTES: usize = 16_777_216;

/// Room for the step of a line, used again for each line.
#[derive(Drop)]
pub(crate) struct Room {
    literals: Vec<Lit>,
    numbers: Vec<u64>,
    parts: Vec<Part>,
}

impl Room {
    /// Room that holds nothing yet.
    pub(crate) fn new(alloc: Global) -> Room {
        Room {
            literals: Vec::new(alloc),
            numbers: Vec::new(alloc),
            parts: Vec::new(alloc),
        }
    }
}

/// What a whole line is, where it has no fault. A step was added to the log.
#[derive(Clone, Copy)]
pub(crate) enum LineKind {
    Heading(Version),
    End,
    Step,
}

/// The literals and the hints of a clause step.
fn clause_at(text: &[u8], literals: &mut Vec<Lit>, hints: &mut Vec<u64>) -> Result<(), Stop>
    requires literals { literals.old.items ≡ [] }
    requires hints { hints.old.items ≡ [] }
    ensures { ReadsClause (clause_step (groups_of (tokens_of text.now))) result literals.new.items hints.new.items }
{
    let (small_literals, left) = literals_at(text, literals)?;
    let Some(left) = left else {
        return Err(Stop::Form(LogKind::BadLine));
    };
    let (small_hints, left) = numbers_at(left, hints)?;
    if left.is_some() {
        return Err(Stop::Form(LogKind::BadLine));
    }
    if small_literals && small_hints {
        Ok(())
    } else {
        Err(Stop::Form(LogKind::BadNumber))
    }
}

/// The one number that ends a line.
fn last_number(text: &[u8]) -> Result<Item<u64>, LogKind>
    ensures { EndsLine (groups_of (tokens_of text.now)) result }
{
    let (token, left) = number_at(text)?;
    let Some(item) = token else {
        return Err(LogKind::BadLine);
    };
    if left.is_some() {
        return Err(LogKind::BadLine);
    }
    Ok(item)
}

/// Adds each two numbers as a part.
fn pair_up(numbers: &[u64], parts: &mut Vec<Part>) -> Result<(), AllocError>
    ensures { OnOk result (parts.new.items ≡ parts.old.items ++ paired numbers.now) }
{
    let mut rest = numbers;
    'pairs: while let [factor, row, left @ ..] = rest {
        parts.push(Part {
            factor: *factor,
            row: *row,
        })?;
        rest = left;
    }
    Ok(())
}

/// Whether numbers come in pairs.
fn is_paired(numbers: &[u64]) -> bool
    ensures { result ≡ are_pairs numbers.now }
{
    numbers.len() % 2 == 0
}

/// The parts and the divisor of a linear step.
fn linear_at(text: &[u8], numbers: &mut Vec<u64>, parts: &mut Vec<Part>) -> Result<u64, Stop>
    requires numbers { numbers.old.items ≡ [] }
    requires parts { parts.old.items ≡ [] }
    ensures { ReadsLinear (linear_step (groups_of (tokens_of text.now))) result parts.new.items }
{
    let (small_numbers, left) = numbers_at(text, numbers)?;
    let Some(left) = left else {
        return Err(Stop::Form(LogKind::BadLine));
    };
    let divisor = last_number(left)?;
    if !is_paired(numbers) {
        return Err(Stop::Form(LogKind::BadLine));
    }
    if !(small_numbers && divisor.small) {
        return Err(Stop::Form(LogKind::BadNumber));
    }
    pair_up(numbers, parts)?;
    Ok(divisor.value)
}

/// Adds the clause step that a text writes.
fn read_clause(text: &[u8], room: &mut Room, steps: &mut Log) -> Result<(), Stop>
    ensures { ReadsStep (clause_step (groups_of (tokens_of text.now))) result steps.old steps.new }
{
    room.literals.clear();
    room.numbers.clear();
    clause_at(text, &mut room.literals, &mut room.numbers)?;
    steps.push(&room.literals, &room.numbers)?;
    Ok(())
}

/// Adds the linear step that a text writes.
fn read_linear(text: &[u8], room: &mut Room, steps: &mut Log) -> Result<(), Stop>
    ensures { ReadsStep (linear_step (groups_of (tokens_of text.now))) result steps.old steps.new }
{
    room.numbers.clear();
    room.parts.clear();
    let divisor = linear_at(text, &mut room.numbers, &mut room.parts)?;
    steps.push_linear(&room.parts, divisor)?;
    Ok(())
}

/// The first token, and what is left behind its space, where one follows.
fn first_token(text: &[u8]) -> (&[u8], Option<&[u8]>)
    ensures { tokens_of text.now ≡ result.0.now ∷ tokens_left result.1 }
{
    match memchr(b' ', text) {
        Some(at) => (&text[..at], Some(&text[at + 1..])),
        None => (text, None),
    }
}

/// Adds the step that a line of version 2 writes.
fn read_marked(text: &[u8], room: &mut Room, steps: &mut Log) -> Result<(), Stop>
    ensures { ReadsStep (marked_step (tokens_of text.now)) result steps.old steps.new }
{
    let (mark, rest) = first_token(text);
    let Some(rest) = rest else {
        return Err(Stop::Form(LogKind::BadLine));
    };
    if mark == b"c".as_slice() {
        return read_clause(rest, room, steps);
    }
    if mark == b"l".as_slice() {
        return read_linear(rest, room, steps);
    }
    Err(Stop::Form(LogKind::BadLine))
}

/// Adds the step that a line writes.
fn read_step(version: Version, text: &[u8], room: &mut Room, steps: &mut Log) -> Result<(), Stop>
    ensures { ReadsStep (step_line version text.now) result steps.old steps.new }
{
    match version {
        Version::One => read_clause(text, room, steps),
        Version::Two => read_marked(text, room, steps),
    }
}

/// The version that the first line names.
fn heading(text: &[u8]) -> Result<Version, LogKind>
    ensures { Heads (heading_of text.now) result }
{
    if text == b"refutation 1".as_slice() {
        return Ok(Version::One);
    }
    if text == b"refutation 2".as_slice() {
        return Ok(Version::Two);
    }
    Err(LogKind::BadLine)
}

/// What a whole line of at most so many bytes is. Its step is added.
fn read_words(
    version: Option<Version>,
    text: &[u8],
    room: &mut Room,
    steps: &mut Log,
) -> Result<LineKind, Stop>
    ensures { ReadsLine (words_of version text.now) result steps.old steps.new }
{
    let Some(version) = version else {
        let found = heading(text)?;
        return Ok(LineKind::Heading(found));
    };
    if text == b"end".as_slice() {
        return Ok(LineKind::End);
    }
    read_step(version, text, room, steps)?;
    Ok(LineKind::Step)
}

/// What a whole line is. Its step is added.
pub(crate) fn read_line(
    version: Option<Version>,
    text: &[u8],
    room: &mut Room,
    steps: &mut Log,
) -> Result<LineKind, Stop>
    ensures { ReadsLine (line_of version text.now) result steps.old steps.new }
{
    if text.len() > MOST_BYTES {
        return Err(Stop::Form(LogKind::TooLong));
    }
    read_words(version, text, room, steps)
}
