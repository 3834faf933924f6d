//! One step, judged: the row as which it stands, or why it doesn't follow.
ghost use Rattle.std.specs.Prelude.{◌≡◌, ◌≤◌, ℕ, length, IfOk};
ghost use Rattle.std.specs.List.{All};
ghost use Rattle.rows.specs.Trails.{IsListed};
ghost use Rattle.rows.specs.Values.{valued};
ghost use Rattle.rows.specs.Sums.{no_totals};
ghost use Rattle.rows.specs.Tables.{totals_of};
ghost use Rattle.refutation.specs.Following.{all_free, judged};
ghost use Rattle.refutation.specs.Steps.Step.{Clause, Linear};
ghost use Rattle.refutation.specs.declared.step.StepKind.TheVariants as kinds;
ghost use Rattle.refutation_check.specs.Kept.{IsOfKind, all_rows, row_result};
ghost use Rattle.refutation_check.specs.Within.{AreWithin};

use crate::adding::add_all;
use crate::clause::{ClauseStep, deny, has_unknown};
use crate::kept::{KeptStep, kept_sum};
use crate::replay::replay;
use refutation::{Cause, Part};
use rows::{Partial, RowStore, Sum};
use std::alloc::{AllocError, Global};

/// Judges a clause step over as many variables as the assignment has. What it sets stays set, and listed.
///
/// # Errors
/// Only where memory runs out.
pub(crate) fn judge_clause(
    rows: &RowStore,
    steps: &[KeptStep],
    vars: u32,
    step: ClauseStep<'_>,
    partial: &mut Partial,
    trail: &mut Vec<u32>,
) -> Result<Result<KeptStep, Cause>, AllocError>
    requires sized { length partial.old ≡ vars }
    requires within { AreWithin vars (all_rows rows.now steps.now) }
    requires free { valued partial.old ≡ all_free }
    requires listed { IsListed partial.old trail.old.items }
    ensures row { IfOk result (λ found. row_result found
        ≡ judged (all_rows rows.now steps.now) vars (Clause step.entry.clause.now step.entry.hints.now)) }
    ensures kind { IfOk result (IsOfKind kinds.Clause) }

    // The next clauses also hold where memory ran out.
    ensures length { length partial.new ≡ length partial.old }
    ensures listed { IsListed partial.new trail.new.items }
{
    if has_unknown(step.clause, vars) {
        return Ok(Err(Cause::UnknownVariable));
    }
    let alloc = *trail.allocator();
    let mut terms = Vec::with_capacity(alloc, step.clause.len())?;
    if deny(step.clause, &mut terms, partial, trail)? {
        // A literal and its negation: the row without demand.
        return Ok(Ok(KeptStep::Tautology));
    }
    match replay(rows, steps, step.hints, partial, trail)? {
        None => Ok(Ok(KeptStep::Clause { terms })),
        Some(cause) => Ok(Err(cause)),
    }
}

/// Judges a linear step. What it adds stays in the sum.
///
/// # Errors
/// Only where memory runs out.
pub(crate) fn judge_linear(
    alloc: Global,
    rows: &RowStore,
    steps: &[KeptStep],
    parts: &[Part],
    divisor: u64,
    sum: &mut Sum,
) -> Result<Result<KeptStep, Cause>, AllocError>
    requires factors { All (λ part. 1 ≤ part.factor) parts.now }
    requires divisor { 1 ≤ divisor }
    requires nothing { totals_of sum.old ≡ no_totals }
    ensures row { (vars : ℕ) → IfOk result (λ found.
        row_result found ≡ judged (all_rows rows.now steps.now) vars (Linear parts.now divisor)) }
    ensures kind { IfOk result (IsOfKind kinds.Linear) }
{
    match add_all(rows, steps, parts, sum)? {
        None => Ok(Ok(kept_sum(alloc, sum.divide(alloc, divisor)?)?)),
        Some(cause) => Ok(Err(cause)),
    }
}
