//! The row that bounds what the units cost.
ghost use Rattle.std.specs.Prelude.{◌≡◌, ◌+◌, ◌*◌, ◌^◌, ◌<◌, ◌≤◌, ◌++◌, [], ◌∷◌, length, IfOk, OnOk};
ghost use Rattle.std.specs.List.{All};
ghost use Rattle.bound_rows.specs.Softening as softening;
ghost use Rattle.bound_rows.specs.Bare.{bare_groups, unit_total};

use crate::units::{Units, add_costs};
use rows::{RowStore, Term};
use std::alloc::{AllocError, Global};

/// Adds that the true unit variables of some groups, numbered on from the first, cost at most the bound. Their numbers
/// are from 1 to 2,147,483,647.
///
/// # Errors
/// Only where memory runs out.
pub fn push_objective(
    rows: &mut RowStore,
    alloc: Global,
    groups: &[Units],
    first: u32,
    bound: u64,
) -> Result<(), AllocError>
    requires first { 1 ≤ first }
    requires last { first + unit_total groups.now ≤ 2147483648 }
    requires paid { All (λ u. 1 ≤ u.penalty) groups.now }
    requires room { length rows.old + 1 < 2 ^ 32 }
    ensures { OnOk result (rows.new ≡ rows.old
        ++ softening.objective_row first (bare_groups groups.now) bound ∷ []) }
{
    let terms = costs(alloc, groups, first)?;
    let total = total_cost(groups);
    rows.push(&terms, total.saturating_sub(bound))?;
    Ok(())
}

/// The unit variables of some groups, numbered on from the first and negated, with what each costs.
fn costs(alloc: Global, groups: &[Units], first: u32) -> Result<Vec<Term>, AllocError>
    requires first { 1 ≤ first }
    requires last { first + unit_total groups.now ≤ 2147483648 }
    ensures { IfOk result (λ terms. terms.items ≡ softening.costs first (bare_groups groups.now)) }
{
    let mut terms = Vec::new(alloc);
    let mut next = first;
    for group in groups {
        add_costs(&mut terms, group.penalty, next, group.units)?;
        next += group.units;
    }
    Ok(terms)
}

/// What all of them cost.
fn total_cost(groups: &[Units]) -> u64
    requires { unit_total groups.now < 2147483648 }
    ensures { result ≡ softening.total_cost (bare_groups groups.now) }
{
    let mut total = 0;
    for group in groups {
        total += u64::from(group.penalty) * u64::from(group.units);
    }
    total
}
