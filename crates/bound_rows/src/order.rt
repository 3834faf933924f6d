//! The rows that order the units of a group. They break a symmetry: only how many units are true matters.
ghost use Rattle.std.specs.Prelude.{◌≡◌, ◌+◌, ◌-◌, ◌^◌, ◌<◌, ◌≤◌, ◌++◌, [], ◌∷◌, length, map, OnOk};
ghost use Rattle.std.specs.List.{range_with_len};
ghost use Rattle.bound_rows.specs.Softening as softening;
ghost use Rattle.bound_rows.specs.Softening.{one_before};
ghost use Rattle.bound_rows.specs.Bare.{bare_groups, unit_total};

use crate::units::Units;
use rows::{Lit, RowStore};
use std::alloc::AllocError;

/// Adds, for each group, that none of its unit variables, numbered on from the first, is true after one that is false.
/// Their numbers are from 1 to 2,147,483,647.
///
/// # Errors
/// Only where memory runs out: then some of these rows stand.
pub fn push_orders(rows: &mut RowStore, groups: &[Units], first: u32) -> Result<(), AllocError>
    requires first { 1 ≤ first }
    requires last { first + unit_total groups.now ≤ 2147483648 }
    requires room { length rows.old + unit_total groups.now < 2 ^ 32 }
    ensures { OnOk result (rows.new ≡ rows.old ++ softening.order_rows first (bare_groups groups.now)) }
{
    let mut next = first;
    for group in groups {
        push_order(rows, next, group.units)?;
        next += group.units;
    }
    Ok(())
}

/// Adds this for so many unit variables from a number on.
fn push_order(rows: &mut RowStore, first: u32, count: u32) -> Result<(), AllocError>
    requires first { 1 ≤ first }
    requires last { first + count ≤ 2147483648 }
    requires room { length rows.old + count < 2 ^ 32 }
    ensures rows { OnOk result (rows.new ≡ rows.old ++ map one_before (range_with_len first (count - 1))) }
    ensures few { OnOk result (length rows.new ≤ length rows.old + count) }
{
    for k in 0..count.saturating_sub(1) {
        push_one_before(rows, first + k)?;
    }
    Ok(())
}

/// Adds that a unit variable is true where the next is.
fn push_one_before(rows: &mut RowStore, var: u32) -> Result<(), AllocError>
    requires first { 1 ≤ var }
    requires last { var + 1 ≤ 2147483647 }
    requires room { length rows.old + 1 < 2 ^ 32 }
    ensures { OnOk result (rows.new ≡ rows.old ++ one_before var ∷ []) }
{
    let literals = [Lit::new(var, true), Lit::new(var + 1, false)];
    rows.push_at_least(&literals, 1)?;
    Ok(())
}
