//! Whether the lines of a log's text are within the limit of a line.
ghost use Rattle.std.specs.Prelude.{◌≤◌, ◌<◌, ◌↔◌, length, slice_get, IfSome, IsTrue};
ghost use Rattle.std.specs.List.{All};
ghost use Rattle.refutation.specs.Steps.Step.{Clause, Linear};
ghost use Rattle.refutation.specs.Writable.{HasShortLines};
ghost use Rattle.break_counts.specs.Lines.{IsShort, most_number};

use refutation::{Log, Part, StepKind};
use rows::Lit;

/// The most literals, hints or parts of a step whose line is short for certain.
const MOST_ITEMS: usize = 100_000;

/// The greatest number in such a line.
const MOST_NUMBER: u64 = 1_000_000_000_000;

/// Whether each step has at most 100,000 literals, hints and parts, and no number above 10^12.
pub fn has_short_lines(log: &Log) -> bool
    ensures { IsTrue result → HasShortLines log.now }
{
    for k in 0..log.len() {
        if !is_short(log, k) {
            return false;
        }
    }
    true
}

/// Whether the step at a place has no more than that, so that its line is short.
fn is_short(log: &Log, k: usize) -> bool
    requires { k < length log.now }
    ensures { IfSome (slice_get log.now k) (λ step. IsTrue result → IsShort step) }
{
    match log.kind(k) {
        StepKind::Clause => is_short_clause(log.clause(k), log.hints(k)),
        StepKind::Linear => is_short_sum(log.parts(k), log.divisor(k)),
    }
}

/// Whether the line of a clause step with these literals and hints is short.
fn is_short_clause(clause: &[Lit], hints: &[u64]) -> bool
    ensures { IsTrue result → IsShort (Clause clause.now hints.now) }
{
    if clause.len() > MOST_ITEMS || hints.len() > MOST_ITEMS {
        return false;
    }
    if !are_small(hints) {
        return false;
    }
    have_small_variables(clause)
}

/// Whether the line of a linear step with these parts and this divisor is short.
fn is_short_sum(parts: &[Part], divisor: u64) -> bool
    ensures { IsTrue result → IsShort (Linear parts.now divisor) }
{
    if parts.len() > MOST_ITEMS || divisor > MOST_NUMBER {
        return false;
    }
    have_small_numbers(parts)
}

fn are_small(numbers: &[u64]) -> bool
    ensures { IsTrue result ↔ All (λ number. number ≤ most_number) numbers.now }
{
    numbers.iter().all(|number| *number <= MOST_NUMBER)
}

fn have_small_variables(clause: &[Lit]) -> bool
    ensures { IsTrue result ↔ All (λ lit. lit.var ≤ most_number) clause.now }
{
    clause.iter().all(|lit| u64::from(lit.var()) <= MOST_NUMBER)
}

fn have_small_numbers(parts: &[Part]) -> bool
    ensures { IsTrue result ↔ All (λ part. (part.factor ≤ most_number) × (part.row ≤ most_number)) parts.now }
{
    parts.iter().all(|part| part.factor <= MOST_NUMBER && part.row <= MOST_NUMBER)
}
