//! The rows of a group with its unit variables.
ghost use Rattle.std.specs.Prelude.{◌≡◌, ◌+◌, ◌^◌, ◌<◌, ◌≤◌, ◌++◌, [], ◌∷◌, length, map, OnOk};
ghost use Rattle.std.specs.List.{All};
ghost use Rattle.rows.specs.Rows.{IsRow};
ghost use Rattle.bound_rows.specs.Softening.{soften, units_from};

use crate::units::add_units;
use rows::{RowStore, Term};
use std::alloc::{AllocError, Global};

/// Adds the rows of a group, each with `count` unit variables, numbered from `first` on. These stand after all other
/// variables of the row. Their numbers are from 1 to 2,147,483,647.
///
/// # Errors
/// Only where memory runs out: then some of these rows stand.
pub fn add_softened(
    rows: &mut RowStore,
    alloc: Global,
    group: &RowStore,
    first: u32,
    count: u32,
) -> Result<(), AllocError>
    requires first { 1 ≤ first }
    requires last { first + count ≤ 2147483648 }
    requires below { All (λ row. All (λ t. t.lit.var < first) row.terms) group.now }
    requires room { length rows.old + length group.now < 2 ^ 32 }
    ensures rows { OnOk result (rows.new ≡ rows.old ++ map (soften (units_from first count)) group.now) }
    ensures few { OnOk result (length rows.new ≡ length rows.old + length group.now) }
{
    let mut scratch = Vec::new(alloc);
    for k in 0..group.len() {
        push_softened(
            rows,
            &mut scratch,
            group.terms(k),
            group.degree(k),
            first,
            count,
        )?;
    }
    Ok(())
}

/// Adds one row with `count` unit variables, numbered from `first` on.
fn push_softened(
    rows: &mut RowStore,
    scratch: &mut Vec<Term>,
    terms: &[Term],
    degree: u64,
    first: u32,
    count: u32,
) -> Result<(), AllocError>
    requires first { 1 ≤ first }
    requires last { first + count ≤ 2147483648 }
    requires row { IsRow (record { terms = terms.now; degree = degree }) }
    requires below { All (λ t. t.lit.var < first) terms.now }
    requires room { length rows.old + 1 < 2 ^ 32 }
    ensures { OnOk result (rows.new ≡ rows.old
        ++ soften (units_from first count) (record { terms = terms.now; degree = degree }) ∷ []) }
{
    scratch.clear();
    scratch.extend_from_slice(terms)?;
    add_units(scratch, first, count)?;
    rows.push(scratch, degree)?;
    Ok(())
}
