//! The text of a conflict.
ghost use Rattle.std.specs.Prelude.{◌≡◌, ◌++◌, length, IfOk, Ok, OnOk};
ghost use Rattle.std.specs.List.{All, flat_map};
ghost use Rattle.refutation.specs.Logs.{log_of};
ghost use Rattle.solve.specs.Solutions.{IsWritable};
ghost use Rattle.command_explain.specs.Texts as texts;
ghost use Rattle.command_explain.specs.Texts.{IsWritableCase, LogReadsBack};
ghost use Rattle.command_explain.specs.Texts.{case_text, cases_text, number_part, numbered_line};

use explain::{Case, Cases, Members};
use refutation::{Log, log_text};
use robin_io::put_decimal;
use robinx::solution_text;
use std::alloc::{AllocError, Global};

/// Adds the line of a conflict's members.
fn put_members(text: &mut Vec<u8>, members: &Members) -> Result<(), AllocError>
    ensures { OnOk result (text.new.items ≡ text.old.items ++ texts.members_line members.now) }
{
    text.extend_from_slice(b"conflict")?;
    put_numbers(text, members.numbers())?;
    text.extend_from_slice(b"\n")
}

/// Adds numbers, each after a space.
fn put_numbers(text: &mut Vec<u8>, numbers: &[u32]) -> Result<(), AllocError>
    ensures { OnOk result (text.new.items ≡ text.old.items ++ flat_map number_part numbers.now) }
{
    for number in numbers {
        put_number(text, *number)?;
    }
    Ok(())
}

/// Adds a number after a space.
fn put_number(text: &mut Vec<u8>, number: u32) -> Result<(), AllocError>
    ensures { OnOk result (text.new.items ≡ text.old.items ++ number_part number) }
{
    text.extend_from_slice(b" ")?;
    put_decimal(text, u128::from(number))
}

/// Adds whether each member is known to be needed.
fn put_minimal(text: &mut Vec<u8>, cases: &Cases) -> Result<(), AllocError>
    ensures { OnOk result (text.new.items ≡ text.old.items ++ texts.minimal_line cases.now) }
{
    if cases.are_decided() {
        text.extend_from_slice(b"minimal yes\n")
    } else {
        text.extend_from_slice(b"minimal no\n")
    }
}

/// Adds a line of a word and a number.
fn put_line(text: &mut Vec<u8>, word: &[u8], number: u32) -> Result<(), AllocError>
    ensures { OnOk result (text.new.items ≡ text.old.items ++ numbered_line word.now number) }
{
    text.extend_from_slice(word)?;
    put_decimal(text, u128::from(number))?;
    text.extend_from_slice(b"\n")
}

/// Adds a log.
fn put_log(alloc: Global, text: &mut Vec<u8>, log: &Log) -> Result<(), AllocError>
    requires writable { IsWritable log.now }
    ensures written { OnOk result (text.new.items ≡ text.old.items ++ texts.log_text log.now) }
    ensures reads_back { OnOk result (log_of (texts.log_text log.now) ≡ Ok log.now) }
{
    let lines = log_text(alloc, log)?;
    text.extend_from_slice(&lines)?;
    Ok(())
}

/// Adds the case of a member.
fn put_case(alloc: Global, text: &mut Vec<u8>, number: u32, case: &Case) -> Result<(), AllocError>
    requires writable { IsWritableCase case.now }
    ensures written { OnOk result (text.new.items ≡ text.old.items ++ case_text number case.now) }
    ensures reads_back { OnOk result (LogReadsBack case.now) }
{
    match case {
        Case::Without { schedule } => {
            put_line(text, b"without ", number)?;
            let season = solution_text(alloc, schedule, None)?;
            text.extend_from_slice(&season)
        }
        Case::Undecided { log } => {
            put_line(text, b"undecided ", number)?;
            put_log(alloc, text, log)
        }
    }
}

/// Adds the cases of all members.
fn put_cases(
    alloc: Global,
    text: &mut Vec<u8>,
    members: &Members,
    cases: &Cases,
) -> Result<(), AllocError>
    requires each { length cases.now ≡ length members.now }
    requires writable { All IsWritableCase cases.now }
    ensures written { OnOk result (text.new.items ≡ text.old.items ++ cases_text members.now cases.now) }
    ensures reads_back { OnOk result (All LogReadsBack cases.now) }
{
    for k in 0..members.len() {
        put_case(alloc, text, members.get(k), cases.get(k))?;
    }
    Ok(())
}

/// The text of a conflict.
///
/// # Errors
/// Only where memory runs out.
pub(crate) fn conflict_text(
    alloc: Global,
    members: &Members,
    log: &Log,
    cases: &Cases,
) -> Result<Vec<u8>, AllocError>
    requires each { length cases.now ≡ length members.now }
    requires log { IsWritable log.now }
    requires writable { All IsWritableCase cases.now }
    ensures text { IfOk result (λ text. text.items ≡ texts.conflict_text members.now log.now cases.now) }
    ensures log_reads_back { IfOk result (λ text. log_of (texts.log_text log.now) ≡ Ok log.now) }
    ensures cases_read_back { IfOk result (λ text. All LogReadsBack cases.now) }
{
    let mut text = Vec::new(alloc);
    put_members(&mut text, members)?;
    put_minimal(&mut text, cases)?;
    put_log(alloc, &mut text, log)?;
    put_cases(alloc, &mut text, members, cases)?;
    Ok(text)
}
