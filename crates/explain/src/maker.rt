//! The league of some hard constraints.
ghost use Rattle.std.specs.Prelude.{◌≡◌, ℕ, ◌↔◌, None, Some, Err, IfOk, IsOk, IsTrue, MatchOption};
ghost use Rattle.std.specs.List.{All};
ghost use Rattle.std.specs.Ordering.{nat_cmp};
ghost use Rattle.league.specs.Sets.{IsAscending};
ghost use Rattle.explain.specs.Parts as parts;
ghost use Rattle.explain.specs.Parts.{numbered, part_of};

use crate::fault::PartFault;
use crate::hard::{constraint_numbered, is_hard_number};
use league::{Constraint, League};
use std::alloc::{AllocError, Global};

/// Whether numbers ascend strictly: the test of what `part` requires.
pub fn is_ascending(members: &[u32]) -> bool
    ensures { IsTrue result ↔ IsAscending nat_cmp members.now }
{
    for place in 1..members.len() {
        if members[place] <= members[place - 1] {
            return false;
        }
    }
    true
}

/// The part of a league for some numbers of its hard constraints: the same teams and phases, and the constraints with
/// these numbers alone, in order. Numbers count from 1 in file order, soft constraints too. No number is an answer too:
/// the league without constraints.
///
/// # Errors
/// `UnknownConstraint` exactly where a number is 0, above the number of constraints, or a soft constraint's: the first
/// such is named, before anything is made. Else only where memory runs out.
pub fn part(alloc: Global, league: &League, members: &[u32]) -> Result<League, PartFault>
    requires ascending { IsAscending nat_cmp members.now }
    ensures part { IfOk result (λ part. part ≡ part_of league.now members.now) }
    ensures known { IsOk result → parts.first_unknown league.now members.now ≡ None }
    ensures unknown { (number : ℕ) → parts.first_unknown league.now members.now ≡ Some number
        → result ≡ Err (PartFault.UnknownConstraint number) }
    ensures only { (number : ℕ) → result ≡ Err (PartFault.UnknownConstraint number)
        → parts.first_unknown league.now members.now ≡ Some number }
{
    let constraints = league.constraints();
    if let Some(number) = first_unknown(constraints, members) {
        return Err(PartFault::UnknownConstraint { number });
    }
    let taken = copies(alloc, constraints, members)?;
    Ok(League::new(league.n(), league.phased(), taken))
}

/// The first of some numbers that no hard constraint has.
fn first_unknown(constraints: &[Constraint], members: &[u32]) -> Option<u32>
    ensures { result ≡ parts.first_other constraints.now members.now }
{
    members
        .iter()
        .copied()
        .find(|number| !is_hard_number(constraints, *number))
}

/// Copies of the constraints with these numbers.
///
/// # Errors
/// Only where memory runs out.
fn copies(
    alloc: Global,
    constraints: &[Constraint],
    members: &[u32],
) -> Result<Vec<Constraint>, AllocError>
    ensures { IfOk result (λ taken. taken.items ≡ numbered constraints.now members.now) }
{
    let mut taken = Vec::with_capacity(alloc, members.len())?;
    for member in members {
        if let Some(constraint) = constraint_numbered(constraints, *member) {
            taken.push(constraint.copy()?)?;
        }
    }
    Ok(taken)
}
