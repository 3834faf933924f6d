//! A log that refutes rows.
ghost use Rattle.std.specs.Prelude.{IfOk, IfSome};
ghost use Rattle.refutation_check.specs.Within.{AreWithin};
ghost use Rattle.planes.specs.Refuted.{IsRefutation};

use crate::desk::Desk;
use crate::search::search;
use crate::start::Start;
use refutation::{Log, Verdict};
use refutation_check::check;
use robin_watch::Watch;
use rows::RowStore;
use std::alloc::{AllocError, Global};

/// Searches for a log that refutes rows over so many variables, and learns at most so many rows by cutting planes. None
/// where values satisfy them, where the limit or the watch ends the search, or where the search comes to nothing else:
/// that it finds a log isn't promised. What it finds is checked before it is given.
///
/// # Errors
/// Only where memory runs out.
pub fn refute<W: Watch>(
    alloc: Global,
    rows: &RowStore,
    vars: u32,
    start: Start,
    limit: u64,
    watch: &W,
) -> Result<Option<Log>, AllocError>
    requires { AreWithin vars rows.now }
    ensures { IfOk result (λ found. IfSome found (IsRefutation rows.now vars)) }
{
    let Some(log) = planned(alloc, rows, vars, start, limit, watch)? else {
        return Ok(None);
    };
    checked(alloc, rows, vars, log)
}

/// The steps that a search plans, if they end with the empty clause.
fn planned<W: Watch>(
    alloc: Global,
    rows: &RowStore,
    vars: u32,
    start: Start,
    limit: u64,
    watch: &W,
) -> Result<Option<Log>, AllocError> {
    let mut desk = Desk::new(alloc, rows, vars, start)?;
    planned_at(alloc, &mut desk, vars, limit, watch)
}

/// The steps that a search at a desk plans, if they end with the empty clause.
fn planned_at<W: Watch>(
    alloc: Global,
    desk: &mut Desk,
    vars: u32,
    limit: u64,
    watch: &W,
) -> Result<Option<Log>, AllocError> {
    if search(alloc, desk, vars, limit, watch)? {
        Ok(Some(desk.tools.draft.take(alloc)))
    } else {
        Ok(None)
    }
}

/// A log, if it is accepted over the rows and its text can be written.
fn checked(alloc: Global, rows: &RowStore, vars: u32, log: Log) -> Result<Option<Log>, AllocError>
    requires { AreWithin vars rows.now }
    ensures { IfOk result (λ found. IfSome found (IsRefutation rows.now vars)) }
{
    let verdict = check(alloc, rows, vars, &log)?;
    if verdict == Verdict::Accepted && log.names_rows() {
        Ok(Some(log))
    } else {
        Ok(None)
    }
}
