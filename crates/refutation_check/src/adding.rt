//! The rows of a linear step, added up.
ghost use Rattle.std.specs.Prelude.{◌≡◌, ◌≤◌, IfOk, Result};
ghost use Rattle.std.specs.List.{All};
ghost use Rattle.rows.specs.Sums.{Totals};
ghost use Rattle.rows.specs.Tables.{totals_of};
ghost use Rattle.refutation.specs.Following.{add_parts, add_row, row_numbered};
ghost use Rattle.refutation.specs.declared.verdict.Cause.{Cause as Fault};
ghost use Rattle.refutation_check.specs.Kept.{all_rows, unless_fault};

use crate::kept::KeptStep;
use crate::named::{NamedRow, named_row};
use refutation::{Cause, Part};
use rows::{RowStore, Sum, SumFault};
use std::alloc::AllocError;

/// Adds the rows of these parts to a sum, up to the first that can't be added, and says what is wrong with that.
pub(crate) fn add_all(
    rows: &RowStore,
    steps: &[KeptStep],
    parts: &[Part],
    sum: &mut Sum,
) -> Result<Option<Cause>, AllocError>
    requires { All (λ part. 1 ≤ part.factor) parts.now }
    ensures { IfOk result (λ cause. add_parts (all_rows rows.now steps.now) parts.now (totals_of sum.old)
        ≡ unless_fault cause (Ok (totals_of sum.new))) }
{
    for part in parts {
        if let Some(cause) = add_part(rows, steps, *part, sum)? {
            return Ok(Some(cause));
        }
    }
    Ok(None)
}

/// Adds the row of one part, and says why it can't be added.
fn add_part(
    rows: &RowStore,
    steps: &[KeptStep],
    part: Part,
    sum: &mut Sum,
) -> Result<Option<Cause>, AllocError>
    requires { 1 ≤ part.factor }
    ensures { IfOk result (λ cause. (others : Totals → Result Totals Fault)
        → add_row (row_numbered (all_rows rows.now steps.now) part.row) part.factor (totals_of sum.old) others
        ≡ unless_fault cause (others (totals_of sum.new))) }
{
    let added = match named_row(rows, steps, part.row) {
        NamedRow::Unknown => return Ok(Some(Cause::UnknownRow)),
        NamedRow::Narrow { terms, degree } => sum.add(part.factor, terms, degree),
        NamedRow::Wide { terms, degree } => sum.add_wide(part.factor, terms, degree),
    };
    match added {
        Ok(()) => Ok(None),
        Err(SumFault::TooWide) => Ok(Some(Cause::TooWide)),
        Err(SumFault::Mem) => Err(AllocError),
    }
}
