//! The row of a sum of rows.
ghost use Rattle.std.specs.Prelude.{◌≡◌, ◌≤◌, ℕ, true, IfOk, IfSome, Ok, Result};
ghost use Rattle.std.specs.List.{All};
ghost use Rattle.rows.specs.Sums.{Totals, no_totals};
ghost use Rattle.rows.specs.Tables.{totals_of};
ghost use Rattle.refutation.specs.Following.{add_parts, add_row, judged, row_numbered};
ghost use Rattle.refutation.specs.Steps.Step.{Linear};
ghost use Rattle.refutation.specs.declared.verdict.Cause.{Cause as Fault};

use refutation::Part;
use rows::{RowStore, Sum, SumFault, WideRow};
use std::alloc::{AllocError, Global};

/// The row that the sum of these rows gives, divided, if each is there and the sum stays narrow enough. What it adds stays
/// in the sum.
///
/// # Errors
/// Only where memory runs out.
pub(crate) fn row_of_sum(
    alloc: Global,
    rows: &RowStore,
    parts: &[Part],
    divisor: u64,
    sum: &mut Sum,
) -> Result<Option<WideRow>, AllocError>
    requires factors { All (λ part. 1 ≤ part.factor) parts.now }
    requires divisor { 1 ≤ divisor }
    requires nothing { totals_of sum.old ≡ no_totals }
    ensures { IfOk result (λ found. IfSome found (λ row.
        (vars : ℕ) → judged rows.now vars (Linear parts.now divisor) ≡ Ok row)) }
{
    if !add_all(rows, parts, sum)? {
        return Ok(None);
    }
    let row = sum.divide(alloc, divisor)?;
    Ok(Some(row))
}

/// Adds the rows of these parts to a sum, and answers whether each could be added.
///
/// # Errors
/// Only where memory runs out.
fn add_all(rows: &RowStore, parts: &[Part], sum: &mut Sum) -> Result<bool, AllocError>
    requires { All (λ part. 1 ≤ part.factor) parts.now }
    ensures { IfOk result (λ added. added ≡ true
        → add_parts rows.now parts.now (totals_of sum.old) ≡ Ok (totals_of sum.new)) }
{
    for part in parts {
        if !add_part(rows, *part, sum)? {
            return Ok(false);
        }
    }
    Ok(true)
}

/// Adds the row of one part, and answers whether it could be added.
///
/// # Errors
/// Only where memory runs out.
fn add_part(rows: &RowStore, part: Part, sum: &mut Sum) -> Result<bool, AllocError>
    requires { 1 ≤ part.factor }
    ensures { IfOk result (λ added. added ≡ true → (others : Totals → Result Totals Fault)
        → add_row (row_numbered rows.now part.row) part.factor (totals_of sum.old) others
        ≡ others (totals_of sum.new)) }
{
    if part.row == 0 {
        return Ok(false);
    }
    let place = part.row as usize - 1;
    if place >= rows.len() {
        return Ok(false);
    }
    match sum.add(part.factor, rows.terms(place), rows.degree(place)) {
        Ok(()) => Ok(true),
        Err(SumFault::TooWide) => Ok(false),
        Err(SumFault::Mem) => Err(AllocError),
    }
}
