//! The hard constraints by their numbers.
ghost use Rattle.std.specs.Prelude.{◌≡◌, ◌≤◌, true, length, IfOk};
ghost use Rattle.std.specs.List.{All};
ghost use Rattle.std.specs.Option.{option_copied};
ghost use Rattle.std.specs.Ordering.{nat_cmp};
ghost use Rattle.league.specs.Instance.{IsInstance};
ghost use Rattle.league.specs.Sets.{IsAscending};
ghost use Rattle.explain.specs.Parts as parts;

use league::{Constraint, League};
use std::alloc::{AllocError, Global};

/// The constraint with a number.
pub(crate) fn constraint_numbered(constraints: &[Constraint], number: u32) -> Option<&Constraint>
    ensures { option_copied result ≡ parts.constraint_numbered constraints.now number }
{
    if number == 0 {
        return None;
    }
    constraints.get(number as usize - 1)
}

/// Whether a number is that of a hard constraint.
pub fn is_hard_number(constraints: &[Constraint], number: u32) -> bool
    ensures { result ≡ parts.is_hard_number constraints.now number }
{
    match constraint_numbered(constraints, number) {
        Some(constraint) => constraint.hard,
        None => false,
    }
}

/// The numbers of the hard constraints, in ascending order.
///
/// # Errors
/// Only where memory runs out.
pub fn hard_numbers(alloc: Global, league: &League) -> Result<Vec<u32>, AllocError>
    ensures numbers { IfOk result (λ numbers. numbers.items ≡ parts.hard_numbers league.now.constraints) }
    ensures hard { IfOk result (λ numbers.
        All (λ k. parts.is_hard_number league.now.constraints k ≡ true) numbers.items) }
    ensures ascending { IfOk result (λ numbers. IsAscending nat_cmp numbers.items) }

    // What holds of every league.
    ensures instance { IsInstance league.now }
{
    let _n = league.n();
    let constraints = league.constraints();
    let mut numbers = Vec::new(alloc);
    for before in 0..constraints.len() as u32 {
        if is_hard_number(constraints, before + 1) {
            numbers.push(before + 1)?;
        }
    }
    Ok(numbers)
}
