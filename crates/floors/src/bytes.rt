//! How long the text of a certificate is.
ghost use Rattle.std.specs.Prelude.{◌<◌, length};

use refutation::{Log, Part, StepKind};
use rows::Lit;

/// The text of a longer certificate isn't read.
const MOST_BYTES: u64 = 268_435_456;

/// More than stands in the text beside the lines of steps.
const FRAME: u64 = 100;

/// Whether the text of a certificate with this log is short enough to be read. No clause says so.
pub(crate) fn can_be_read(log: &Log) -> bool {
    let mut bytes = FRAME;
    for k in 0..log.len() {
        bytes = bytes.saturating_add(step_bytes(log, k));
    }
    bytes <= MOST_BYTES
}

/// At least as many bytes as the line of a step has.
fn step_bytes(log: &Log, k: usize) -> u64
    requires { k < length log.now }
{
    match log.kind(k) {
        StepKind::Clause => clause_bytes(log.clause(k), log.hints(k)),
        StepKind::Linear => sum_bytes(log.parts(k), log.divisor(k)),
    }
}

/// At least as many bytes as the line of a clause step has.
fn clause_bytes(clause: &[Lit], hints: &[u64]) -> u64 {
    let mut bytes = 8u64;
    for lit in clause {
        let sign = 1;
        bytes = bytes
            .saturating_add(number_bytes(u64::from(lit.var())))
            .saturating_add(sign);
    }
    for hint in hints {
        bytes = bytes.saturating_add(number_bytes(*hint));
    }
    bytes
}

/// At least as many bytes as the line of a linear step has.
fn sum_bytes(parts: &[Part], divisor: u64) -> u64 {
    let mut bytes = number_bytes(divisor).saturating_add(8);
    for part in parts {
        bytes = bytes
            .saturating_add(number_bytes(part.factor))
            .saturating_add(number_bytes(part.row));
    }
    bytes
}

/// How many bytes a number and a space behind it have.
fn number_bytes(number: u64) -> u64 {
    let mut bytes = 2u64;
    let mut rest = number / 10;
    for _digit in 0..20 {
        if rest == 0 {
            return bytes;
        }
        rest /= 10;
        bytes = bytes.saturating_add(1);
    }
    bytes
}
