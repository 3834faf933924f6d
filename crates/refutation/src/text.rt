//! The text of a log, written.
ghost use Rattle.std.specs.Prelude.{◌≡◌, ◌+◌, ◌^◌, ◌<◌, ◌≤◌, ◌++◌, ◌∷◌, [], length, codes, decimal};
ghost use Rattle.std.specs.Prelude.{Ok, IfOk, IfSome, OnOk, slice_get};
ghost use Rattle.std.specs.List.{All, flat_map};
ghost use Rattle.refutation.specs.Steps as steps;
ghost use Rattle.refutation.specs.Steps.{NamesRows};
ghost use Rattle.refutation.specs.Steps.Step.{Clause, Linear};
ghost use Rattle.refutation.specs.Logs.{log_of};
ghost use Rattle.refutation.specs.Texts as texts;
ghost use Rattle.refutation.specs.Writable.{HasShortLines};
ghost use Rattle.refutation.specs.Written.{HasSmallNumbers, IsFactored, IsVariable};

use crate::log::Log;
use crate::step::{Part, StepKind};
use crate::version::Version;
use robin_io::put_decimal;
use rows::Lit;
use std::alloc::{AllocError, Global};

/// Adds `-`, where a literal is negated.
fn put_sign(text: &mut Vec<u8>, positive: bool) -> Result<(), AllocError>
    ensures { OnOk result (text.new.items ≡ text.old.items ++ texts.sign_text positive) }
{
    if positive {
        return Ok(());
    }
    text.extend_from_slice(b"-")
}

/// Adds a literal and a space.
fn put_literal(text: &mut Vec<u8>, lit: Lit) -> Result<(), AllocError>
    ensures ok { OnOk result (text.new.items ≡ text.old.items ++ texts.literal_text lit) }
    ensures variable { OnOk result (IsVariable lit) }
{
    put_sign(text, lit.positive())?;
    put_decimal(text, u128::from(lit.var()))?;
    text.push(b' ')?;
    Ok(())
}

/// Adds a number and a space.
fn put_number(text: &mut Vec<u8>, number: u64) -> Result<(), AllocError>
    ensures { OnOk result (text.new.items ≡ text.old.items ++ texts.number_text number) }
{
    put_decimal(text, u128::from(number))?;
    text.push(b' ')?;
    Ok(())
}

/// Adds literals.
fn put_literals(text: &mut Vec<u8>, lits: &[Lit]) -> Result<(), AllocError>
    ensures ok { OnOk result (text.new.items ≡ text.old.items ++ flat_map texts.literal_text lits.now) }
    ensures variables { OnOk result (All IsVariable lits.now) }
{
    for lit in lits {
        put_literal(text, *lit)?;
    }
    Ok(())
}

/// Adds numbers.
fn put_numbers(text: &mut Vec<u8>, numbers: &[u64]) -> Result<(), AllocError>
    ensures { OnOk result (text.new.items ≡ text.old.items ++ flat_map texts.number_text numbers.now) }
{
    for number in numbers {
        put_number(text, *number)?;
    }
    Ok(())
}

/// Adds a factor and its row.
fn put_part(text: &mut Vec<u8>, part: Part) -> Result<(), AllocError>
    requires { 1 ≤ part.factor }
    ensures ok { OnOk result (text.new.items ≡ text.old.items ++ texts.part_text part) }
    ensures numbers { OnOk result (IsFactored part) }
{
    put_number(text, part.factor)?;
    put_number(text, part.row)
}

/// Adds factors and rows in turn.
fn put_parts(text: &mut Vec<u8>, parts: &[Part]) -> Result<(), AllocError>
    requires { All (λ part. 1 ≤ part.factor) parts.now }
    ensures ok { OnOk result (text.new.items ≡ text.old.items ++ flat_map texts.part_text parts.now) }
    ensures numbers { OnOk result (All IsFactored parts.now) }
{
    for part in parts {
        put_part(text, *part)?;
    }
    Ok(())
}

/// Adds what marks a clause step.
fn put_clause_mark(text: &mut Vec<u8>, version: Version) -> Result<(), AllocError>
    ensures { OnOk result (text.new.items ≡ text.old.items ++ texts.clause_mark version) }
{
    match version {
        Version::One => Ok(()),
        Version::Two => text.extend_from_slice(b"c "),
    }
}

/// Adds the line of a clause step.
fn put_clause(
    text: &mut Vec<u8>,
    version: Version,
    clause: &[Lit],
    hints: &[u64],
) -> Result<(), AllocError>
    ensures ok { OnOk result
        (text.new.items ≡ text.old.items ++ texts.step_line_text version (Clause clause.now hints.now)) }
    ensures numbers { OnOk result (HasSmallNumbers (Clause clause.now hints.now)) }
{
    put_clause_mark(text, version)?;
    put_literals(text, clause)?;
    text.extend_from_slice(b"0 ")?;
    put_numbers(text, hints)?;
    text.extend_from_slice(b"0\n")
}

/// Adds the line of a linear step.
fn put_linear(
    text: &mut Vec<u8>,
    version: Version,
    parts: &[Part],
    divisor: u64,
) -> Result<(), AllocError>
    requires factors { All (λ part. 1 ≤ part.factor) parts.now }
    requires divisor { 1 ≤ divisor }
    ensures ok { OnOk result
        (text.new.items ≡ text.old.items ++ texts.step_line_text version (Linear parts.now divisor)) }
    ensures numbers { OnOk result (HasSmallNumbers (Linear parts.now divisor)) }
{
    text.extend_from_slice(b"l ")?;
    put_parts(text, parts)?;
    text.extend_from_slice(b"0 ")?;
    put_decimal(text, u128::from(divisor))?;
    text.extend_from_slice(b"\n")
}

/// Adds the line of the step at place k.
fn put_step(text: &mut Vec<u8>, version: Version, log: &Log, k: usize) -> Result<(), AllocError>
    requires { k < length log.now }
    ensures ok { OnOk result (IfSome (slice_get log.now k)
        (λ step. text.new.items ≡ text.old.items ++ texts.step_line_text version step)) }
    ensures numbers { OnOk result (IfSome (slice_get log.now k) HasSmallNumbers) }
{
    match log.kind(k) {
        StepKind::Clause => put_clause(text, version, log.clause(k), log.hints(k)),
        StepKind::Linear => put_linear(text, version, log.parts(k), log.divisor(k)),
    }
}

/// Adds the lines of all steps.
fn put_steps(text: &mut Vec<u8>, version: Version, log: &Log) -> Result<(), AllocError>
    ensures ok { OnOk result (text.new.items ≡ text.old.items ++ flat_map (texts.step_line_text version) log.now) }
    ensures numbers { OnOk result (All HasSmallNumbers log.now) }
{
    for k in 0..log.len() {
        put_step(text, version, log, k)?;
    }
    Ok(())
}

/// Adds the first line.
fn put_heading(text: &mut Vec<u8>, version: Version) -> Result<(), AllocError>
    ensures { OnOk result (text.new.items ≡ text.old.items ++ texts.heading_text version) }
{
    match version {
        Version::One => text.extend_from_slice(b"refutation 1\n"),
        Version::Two => text.extend_from_slice(b"refutation 2\n"),
    }
}

/// Whether the step at place k is linear.
fn is_linear(log: &Log, k: usize) -> bool
    requires { k < length log.now }
    ensures { IfSome (slice_get log.now k) (λ step. result ≡ steps.is_linear step) }
{
    match log.kind(k) {
        StepKind::Clause => false,
        StepKind::Linear => true,
    }
}

/// The version in which a log is written.
fn version_of(log: &Log) -> Version
    ensures { result ≡ texts.version_of log.now }
{
    for k in 0..log.len() {
        if is_linear(log, k) {
            return Version::Two;
        }
    }
    Version::One
}

/// The text of a log: of version 1 where no step is linear, else of version 2.
///
/// # Errors
/// Only where memory runs out.
pub fn log_text(alloc: Global, log: &Log) -> Result<Vec<u8>, AllocError>
    requires { All NamesRows log.now }
    ensures text { IfOk result (λ text. text.items ≡ texts.log_text log.now) }

    // Where no line passes the limit of a line, the text reads back as the log.
    ensures reads_back { IfOk result (λ text. HasShortLines log.now → log_of text.items ≡ Ok log.now) }
{
    let version = version_of(log);
    let mut text = Vec::new(alloc);
    put_heading(&mut text, version)?;
    put_steps(&mut text, version, log)?;
    text.extend_from_slice(b"end\n")?;
    Ok(text)
}
