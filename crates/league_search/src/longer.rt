//! Rows, and behind them those that sums give.
ghost use Rattle.std.specs.Prelude.{◌≡◌, ◌+◌, ◌<◌, ◌≤◌, [], ◌∷◌, ◌++◌, true, length, take, IfOk, IfSome, OnOk, List};
ghost use Rattle.std.specs.List.{All};
ghost use Rattle.propagate.specs.Trails.{KnowsVariables};
ghost use Rattle.rows.specs.Rows.{Row};
ghost use Rattle.rows.specs.Sums.{no_totals};
ghost use Rattle.rows.specs.Tables.{totals_of};
ghost use Rattle.refutation.specs.Steps.{Step};
ghost use Rattle.refutation.specs.Steps.Step.{Linear};
ghost use Rattle.league_search.specs.Sums.{IsLonger};

use crate::copied::copied;
use crate::narrowed::narrowed;
use crate::sum::row_of_sum;
use refutation::{Log, Part, StepKind};
use rows::{RowStore, Sum, WideRow};
use std::alloc::{AllocError, Global};

/// The rows, and behind them those that these sums give in turn, if each step is a sum and its row is one whose numbers
/// fit.
///
/// # Errors
/// Only where memory runs out.
pub(crate) fn with_sums(
    alloc: Global,
    rows: &RowStore,
    vars: u32,
    sums: &Log,
) -> Result<Option<RowStore>, AllocError>
    requires { All (KnowsVariables vars) rows.now }
    ensures { IfOk result (λ found. IfSome found (IsLonger rows.now vars sums.now)) }
{
    let mut longer = copied(alloc, rows)?;
    let mut sum = Sum::new(alloc);
    for k in 0..sums.len() {
        if !add_sum(alloc, &mut longer, vars, sums, k, &mut sum)? {
            return Ok(None);
        }
    }
    Ok(Some(longer))
}

/// Adds the row of the sum at a place, and answers whether there is such a row.
///
/// # Errors
/// Only where memory runs out.
fn add_sum(
    alloc: Global,
    longer: &mut RowStore,
    vars: u32,
    sums: &Log,
    k: usize,
    sum: &mut Sum,
) -> Result<bool, AllocError>
    requires there { k < length sums.now }
    requires nothing { totals_of sum.old ≡ no_totals }
    ensures cleared { OnOk result (totals_of sum.new ≡ no_totals) }
    ensures longer { IfOk result (λ added. added ≡ true → (rows : List Row)
        → IsLonger rows vars (take k sums.now) longer.old → IsLonger rows vars (take (k + 1) sums.now) longer.new) }
{
    match sums.kind(k) {
        StepKind::Clause => Ok(false),
        StepKind::Linear => { add_linear(alloc, longer, vars, sums.parts(k), sums.divisor(k), sum) }
    }
}

/// Adds the row of a sum of rows, divided, and answers whether there is such a row.
///
/// # Errors
/// Only where memory runs out.
fn add_linear(
    alloc: Global,
    longer: &mut RowStore,
    vars: u32,
    parts: &[Part],
    divisor: u64,
    sum: &mut Sum,
) -> Result<bool, AllocError>
    requires factors { All (λ part. 1 ≤ part.factor) parts.now }
    requires divisor { 1 ≤ divisor }
    requires nothing { totals_of sum.old ≡ no_totals }
    ensures cleared { OnOk result (totals_of sum.new ≡ no_totals) }
    ensures longer { IfOk result (λ added. added ≡ true → (rows : List Row) → (before : List Step)
        → IsLonger rows vars before longer.old
        → IsLonger rows vars (before ++ Linear parts.now divisor ∷ []) longer.new) }
{
    let found = row_of_sum(alloc, longer, parts, divisor, sum)?;
    sum.clear();
    match found {
        Some(row) => push_wide(alloc, longer, vars, &row),
        None => Ok(false),
    }
}

/// Adds a wide row, if its numbers fit, and answers whether they do.
///
/// # Errors
/// Only where memory runs out.
fn push_wide(
    alloc: Global,
    longer: &mut RowStore,
    vars: u32,
    row: &WideRow,
) -> Result<bool, AllocError>
    ensures known { IfOk result (λ added. added ≡ true → KnowsVariables vars row.now) }
    ensures pushed { IfOk result (λ added. added ≡ true → longer.new ≡ longer.old ++ row.now ∷ []) }
{
    let Ok(degree) = u64::try_from(row.degree()) else {
        return Ok(false);
    };
    let Some(terms) = narrowed(alloc, row.terms(), vars)? else {
        return Ok(false);
    };
    if longer.len() as u64 >= u64::from(u32::MAX) {
        return Ok(false);
    }
    longer.push(&terms, degree)?;
    Ok(true)
}
