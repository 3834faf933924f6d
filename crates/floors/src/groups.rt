//! Where the rows of soft constraints stand.
ghost use Rattle.std.specs.Prelude.{IsTrue};
ghost use Rattle.std.specs.List.{All};
ghost use Rattle.league.specs.Instance.{class_fits};

use bound_rows::parts_of;
use encoding::{Season, write_class};
use league::{Class, Constraint};
use rows::{RowStore, Term};
use std::alloc::{AllocError, Global};

/// What a soft constraint costs for each unit, the number of its first row, and how many rows it has.
#[derive(Clone, Copy)]
pub(crate) struct Softened {
    pub(crate) penalty: u64,
    pub(crate) first: u64,
    pub(crate) count: u64,
}

impl Softened {
    /// The number behind those of its rows.
    pub(crate) fn end(self) -> u64 {
        self.first.saturating_add(self.count)
    }
}

/// How many rows stand before the first that has a unit variable. Unit variables have numbers above `vars`, and stand
/// last in a row.
pub(crate) fn rows_before_units(rows: &RowStore, vars: u32) -> u64 {
    for k in 0..rows.len() {
        if has_units(rows.terms(k), vars) {
            return k as u64;
        }
    }
    rows.len() as u64
}

/// Whether the last variable of a row is a unit.
fn has_units(terms: &[Term], vars: u32) -> bool {
    match terms.last() {
        Some(term) => term.lit.var() > vars,
        None => false,
    }
}

/// How many rows a soft constraint has.
///
/// # Errors
/// Only where memory runs out.
pub(crate) fn row_count(
    alloc: Global,
    season: &Season,
    constraint: &Constraint,
) -> Result<u64, AllocError>
    requires { IsTrue (class_fits season.now constraint.now.class) }
{
    let parts = parts_of(alloc, season.n(), constraint)?;
    count_rows(alloc, season, &parts)
}

/// How many rows some parts have.
fn count_rows(alloc: Global, season: &Season, parts: &[Class]) -> Result<u64, AllocError>
    requires { All (λ part. IsTrue (class_fits season.now part)) parts.now }
{
    let mut count = 0u64;
    for part in parts {
        let rows = write_class(alloc, season, part)?;
        count = count.saturating_add(rows.len() as u64);
    }
    Ok(count)
}
