//! The search over a league's rows by cutting planes.
ghost use Rattle.std.specs.Prelude.{◌<◌, length, IfOk, IfSome};
ghost use Rattle.league.specs.Instance.{IsInstance};
ghost use Rattle.encoding.specs.Encoding.{rows_of};
ghost use Rattle.encoding.specs.Variables.{var_count};
ghost use Rattle.planes.specs.Refuted.{IsRefutation};
ghost use Rattle.league_search.specs.Answers.{IsWritable};

use crate::search::with_break_rows;
use break_counts::has_short_lines;
use encoding::Encoding;
use planes::{Derived, Start, refute};
use refutation::Log;
use robin_watch::Watch;
use rows::RowStore;
use std::alloc::{AllocError, Global};

/// Searches for a log that refutes a league's rows by cutting planes, and learns at most so many rows. The watch may end
/// it. None where it finds no such log: that it finds one isn't promised.
///
/// Where hard constraints bound breaks, the log begins with the sums that give rows of breaks.
///
/// # Errors
/// Only where memory runs out.
pub fn refute_league<W: Watch>(
    alloc: Global,
    encoding: &Encoding,
    limit: u64,
    watch: &W,
) -> Result<Option<Log>, AllocError>
    ensures refuted { IfOk result
        (λ found. IfSome found (IsRefutation (rows_of encoding.now) (var_count encoding.now))) }
    ensures writable { IfOk result (λ found. IfSome found IsWritable) }

    // What holds of every league.
    ensures instance { IsInstance encoding.now }
{
    let vars = encoding.vars();
    let start = start_of(alloc, encoding)?;
    let found = refute(alloc, encoding.rows(), vars, start, limit, watch)?;
    let Some(log) = found else {
        return Ok(None);
    };
    if has_short_lines(&log) {
        Ok(Some(log))
    } else {
        Ok(None)
    }
}

/// With what the search begins: the rows of breaks, where hard constraints bound breaks.
///
/// # Errors
/// Only where memory runs out.
fn start_of(alloc: Global, encoding: &Encoding) -> Result<Start, AllocError> {
    if encoding.has_breaks()
        && let Some(longer) = with_break_rows(alloc, encoding)?
    {
        let derived = rows_from(alloc, &longer.rows, encoding.rows().len())?;
        return Ok(Start {
            steps: longer.sums,
            derived,
        });
    }
    Ok(Start {
        steps: Log::new(alloc),
        derived: Vec::new(alloc),
    })
}

/// The rows from a place on, each with its number.
///
/// # Errors
/// Only where memory runs out.
fn rows_from(alloc: Global, rows: &RowStore, first: usize) -> Result<Vec<Derived>, AllocError> {
    let mut derived = Vec::new(alloc);
    for place in first..rows.len() {
        let row = row_at(alloc, rows, place)?;
        derived.push(row)?;
    }
    Ok(derived)
}

/// The row at a place, with its number. Each of its coefficients is 1.
///
/// # Errors
/// Only where memory runs out.
fn row_at(alloc: Global, rows: &RowStore, place: usize) -> Result<Derived, AllocError>
    requires { place < length rows.now }
{
    let mut lits = Vec::new(alloc);
    for term in rows.terms(place) {
        lits.push(term.lit)?;
    }
    let degree = rows.degree(place);
    let number = (place as u64).saturating_add(1);
    Ok(Derived {
        lits,
        degree,
        number,
    })
}
