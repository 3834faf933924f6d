//! The unit variables of groups.
ghost use Rattle.std.specs.Prelude.{◌≡◌, ◌+◌, ◌≤◌, ◌++◌, map, OnOk};
ghost use Rattle.league.specs.Bounds.{largest};
ghost use Rattle.rows.specs.Cardinality.{unit};
ghost use Rattle.bound_rows.specs.BoundRows.{units_of};
ghost use Rattle.bound_rows.specs.Softening.{costs_from, units_from};

use league::Class;
use rows::{Lit, RowStore, Term};
use std::alloc::AllocError;

/// How many unit variables a group has, and what each costs.
#[derive(Clone, Copy)]
pub struct Units {
    pub penalty: u32,
    pub units: u32,
}

/// How many unit variables the rows of a part share: of SE1 one, else so many as the largest degree.
pub fn unit_count(part: &Class, rows: &RowStore) -> u64
    ensures { result ≡ units_of part.now rows.now }
{
    match part {
        Class::Se1 { .. } => 1,
        _ => largest_degree(rows),
    }
}

/// The largest degree of some rows.
fn largest_degree(rows: &RowStore) -> u64
    ensures { result ≡ largest (λ row. row.degree) rows.now }
{
    let mut most = 0_u64;
    for k in 0..rows.len() {
        most = most.max(rows.degree(k));
    }
    most
}

/// Adds so many unit variables from a number on, each with coefficient 1.
pub(crate) fn add_units(terms: &mut Vec<Term>, first: u32, count: u32) -> Result<(), AllocError>
    requires first { 1 ≤ first }
    requires last { first + count ≤ 2147483648 }
    ensures { OnOk result (terms.new.items ≡ terms.old.items ++ map unit (units_from first count)) }
{
    for k in 0..count {
        terms.push(Term {
            coef: 1,
            lit: Lit::new(first + k, true),
        })?;
    }
    Ok(())
}

/// Adds the negations of so many unit variables from a number on, each with this penalty.
pub(crate) fn add_costs(
    terms: &mut Vec<Term>,
    penalty: u32,
    first: u32,
    count: u32,
) -> Result<(), AllocError>
    requires first { 1 ≤ first }
    requires last { first + count ≤ 2147483648 }
    ensures { OnOk result (terms.new.items ≡ terms.old.items ++ costs_from penalty first count) }
{
    for k in 0..count {
        terms.push(Term {
            coef: penalty,
            lit: Lit::new(first + k, false),
        })?;
    }
    Ok(())
}
