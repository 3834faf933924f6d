//! The constraints that are missed.
ghost use Rattle.std.specs.Prelude.{◌≡◌, ◌++◌, ◌+◌, ◌*◌, ◌≤◌, length, sum, IfOk, OnOk};
ghost use Rattle.std.specs.List.{All};
ghost use Rattle.season_misses.specs.Misses as misses;

use deviation::{Vectors, total};
use league::Constraint;
use std::alloc::{AllocError, Global};

/// A constraint that is missed.
#[derive(Clone, Copy)]
pub struct Miss {
    /// The constraint's place in the league, from 0.
    pub place: usize,
    pub hard: bool,
    /// By how much it is missed, at least 1.
    pub deviation: u128,
    /// Penalty times deviation.
    pub cost: u128,
}

/// Adds a constraint at a place, where its vector isn't 0.
fn push_miss(
    found: &mut Vec<Miss>,
    place: usize,
    constraint: &Constraint,
    vector: &[u64],
) -> Result<(), AllocError>
    requires { length vector.now ≤ 1600 }
    ensures { OnOk result (found.new.items
        ≡ found.old.items ++ misses.miss_at place constraint.now vector.now) }
{
    let deviation = total(vector);
    if deviation > 0 {
        let cost = u128::from(constraint.penalty) * deviation;
        found.push(Miss {
            place,
            hard: constraint.hard,
            deviation,
            cost,
        })?;
    }
    Ok(())
}

/// The constraints that are missed, in file order, by their vectors.
pub(crate) fn misses_of(
    alloc: Global,
    constraints: &[Constraint],
    vectors: &Vectors,
) -> Result<Vec<Miss>, AllocError>
    requires each { length vectors.now ≡ length constraints.now }
    requires short { All (λ vector. length vector ≤ 1600) vectors.now }
    ensures { IfOk result (λ found. found.items ≡ misses.misses_from 0 constraints.now vectors.now) }
{
    let mut found = Vec::new(alloc);
    for (place, constraint) in constraints.iter().enumerate() {
        let vector = vectors.vector(place);
        push_miss(&mut found, place, constraint, vector)?;
    }
    Ok(found)
}
