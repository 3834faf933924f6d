//! Steps that followed, kept as their rows.
ghost use Rattle.std.specs.Prelude.{◌≡◌, ◌<◌, ◌^◌, false, map, length, IfOk, None};
ghost use Rattle.std.specs.List.{All};
ghost use Rattle.refutation.specs.Verdict.{verdict_by};
ghost use Rattle.refutation.specs.declared.step.StepKind.TheVariants as kinds;
ghost use Rattle.refutation_check.specs.Judged as judged;
ghost use Rattle.refutation_check.specs.Judged.{ends_false};
ghost use Rattle.refutation_check.specs.Kept.{judged_step};
ghost use Rattle.refutation_check.specs.Room as room;
ghost use Rattle.refutation_check.specs.Room.{row_bytes};

use refutation::{Cause, Verdict};
use rows::{Term, WideRow, WideTerm};
use std::alloc::{AllocError, Global};
use std::rc::Rc;

/// The row of a step that followed. It takes 32 bytes, and what its terms take. Equal rows of sums may be one.
#[derive(Drop)]
pub(crate) enum KeptStep {
    /// A clause with a literal and its negation: the row without demand.
    Tautology,
    /// A clause with no such pair: at least 1 of its literals. A term takes 8 bytes.
    Clause { terms: Vec<Term> },
    /// A sum whose numbers fit. A term takes 8 bytes.
    Narrow { terms: Rc<Vec<Term>>, degree: u64 },
    /// A sum with a number that doesn't fit. A term takes 32 bytes.
    Wide { row: Rc<WideRow> },
}

const _: () = prove!(size_of::<KeptStep>() == 32);

/// The number of the first step that doesn't follow, from 1, and why.
#[derive(Clone, Copy)]
pub(crate) struct Rejection {
    pub step: u64,
    pub cause: Cause,
}

/// The step whose row is a sum's: narrow where its numbers fit.
///
/// # Errors
/// Only where memory runs out.
pub(crate) fn kept_sum(alloc: Global, row: WideRow) -> Result<KeptStep, AllocError>
    ensures { IfOk result (λ step. judged_step step ≡ record { row = row; kind = kinds.Linear }) }
{
    if is_wide(row.terms(), row.degree()) {
        let row = Rc::new(alloc, row)?;
        return Ok(KeptStep::Wide { row });
    }
    let degree = row.degree() as u64;
    let terms = Rc::new(alloc, narrowed(alloc, row.terms())?)?;
    Ok(KeptStep::Narrow { terms, degree })
}

/// Whether a coefficient is past 32 bits, or the degree past 64.
fn is_wide(terms: &[WideTerm], degree: u128) -> bool
    ensures wide { result ≡ room.is_wide (record { terms = terms.now; degree = degree }) }
    ensures terms { result ≡ false → All (λ t. t.coef < 2 ^ 32) terms.now }
    ensures degree { result ≡ false → degree < 2 ^ 64 }
{
    degree > u128::from(u64::MAX) || has_wide(terms)
}

/// Whether a coefficient is past 32 bits.
fn has_wide(terms: &[WideTerm]) -> bool
    ensures wide { result ≡ room.has_wide terms.now }
    ensures none { result ≡ false → All (λ t. t.coef < 2 ^ 32) terms.now }
{
    for term in terms {
        if term.coef > u128::from(u32::MAX) {
            return true;
        }
    }
    false
}

/// The terms of a sum whose coefficients fit 32 bits, as narrow ones.
///
/// # Errors
/// Only where memory runs out.
fn narrowed(alloc: Global, terms: &[WideTerm]) -> Result<Vec<Term>, AllocError>
    requires { All (λ t. t.coef < 2 ^ 32) terms.now }
    ensures { IfOk result (λ narrow. narrow.items ≡ terms.now) }
{
    let mut narrow = Vec::with_capacity(alloc, terms.len())?;
    for term in terms {
        narrow.push(Term {
            coef: term.coef as u32,
            lit: term.lit,
        })?;
    }
    Ok(narrow)
}

/// How many bytes a step and its row count.
pub(crate) fn step_bytes(step: &KeptStep) -> u128
    ensures { result ≡ row_bytes (judged_step step.now).row }
{
    match step {
        KeptStep::Tautology => narrow_bytes(&[], 0),
        KeptStep::Clause { terms } => narrow_bytes(terms, 1),
        KeptStep::Narrow { terms, degree } => narrow_bytes(terms, *degree),
        KeptStep::Wide { row } => wide_bytes(row.terms(), row.degree()),
    }
}

/// How many bytes a step with such a row counts.
fn narrow_bytes(terms: &[Term], degree: u64) -> u128
    ensures { result ≡ row_bytes (record { terms = terms.now; degree = degree }) }
{
    have_32_bits(terms);
    64 + 8 * (terms.len() as u128)
}

/// Looks at each coefficient: it has 32 bits.
fn have_32_bits(terms: &[Term])
    ensures { room.has_wide terms.now ≡ false }
{
    for term in terms {
        let _coef = bounded(term.coef);
    }
}

/// A coefficient of 32 bits, with its bound.
fn bounded(coef: u32) -> u32
    ensures same { result ≡ coef }
    ensures bound { result < 2 ^ 32 }
{
    coef
}

/// How many bytes a step with a sum for a row counts.
fn wide_bytes(terms: &[WideTerm], degree: u128) -> u128
    ensures { result ≡ row_bytes (record { terms = terms.now; degree = degree }) }
{
    let bytes = if is_wide(terms, degree) { 32 } else { 8 };
    64 + bytes * (terms.len() as u128)
}

/// The verdict where each of these steps followed.
pub(crate) fn verdict_on(steps: &[KeptStep]) -> Verdict
    ensures { result ≡ verdict_by None (ends_false (map judged_step steps.now)) (length steps.now) }
{
    if end_false(steps) {
        Verdict::Accepted
    } else {
        Verdict::Rejected {
            step: steps.len() as u64,
            cause: Cause::NoEmptyClause,
        }
    }
}

/// Whether there is a step, and the last one is the empty clause.
fn end_false(steps: &[KeptStep]) -> bool
    ensures { result ≡ ends_false (map judged_step steps.now) }
{
    match steps.last() {
        Some(step) => is_falsum(step),
        None => false,
    }
}

/// Whether the step is the empty clause.
fn is_falsum(step: &KeptStep) -> bool
    ensures { result ≡ judged.is_falsum (judged_step step.now) }
{
    match step {
        KeptStep::Clause { terms } => terms.is_empty(),
        KeptStep::Tautology | KeptStep::Narrow { .. } | KeptStep::Wide { .. } => false,
    }
}
