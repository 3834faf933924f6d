//! Clauses: their literals made false, and the terms of their rows.
ghost use Rattle.std.specs.Prelude.{◌≡◌, ◌≤◌, [], false, length, map, nat_lt, Ok, IfOk};
ghost use Rattle.std.specs.List.{All, list_any};
ghost use Rattle.rows.specs.Cardinality.{unit};
ghost use Rattle.rows.specs.Trails.{IsListed};
ghost use Rattle.rows.specs.Values.{valued};
ghost use Rattle.refutation.specs.Following as following;
ghost use Rattle.refutation.specs.Following.{all_free, denied, distinct};

use rows::{Lit, Partial, Term, Value, make_true};
use std::alloc::AllocError;

/// A clause step: the clause, and the numbers of the rows from which it is to follow.
#[derive(Clone, Copy)]
pub(crate) struct ClauseStep<'a> {
    pub(crate) clause: &'a [Lit],
    pub(crate) hints: &'a [u64],
}

/// Whether a literal's variable is above the number of variables.
pub(crate) fn has_unknown(clause: &[Lit], vars: u32) -> bool
    ensures any { result ≡ list_any (λ l. nat_lt vars l.var) clause.now }
    ensures none { result ≡ false → All (λ l. l.var ≤ vars) clause.now }
{
    for lit in clause {
        if lit.var() > vars {
            return true;
        }
    }
    false
}

/// Makes each literal of a clause false, and pushes the terms of its row: each literal once, with coefficient 1. It
/// says whether the clause has a literal and its negation, and then it stops.
pub(crate) fn deny(
    clause: &[Lit],
    terms: &mut Vec<Term>,
    partial: &mut Partial,
    trail: &mut Vec<u32>,
) -> Result<bool, AllocError>
    requires known { All (λ l. l.var ≤ length partial.old) clause.now }
    requires free { valued partial.old ≡ all_free }
    requires listed { IsListed partial.old trail.old.items }
    requires empty { terms.old.items ≡ [] }
    ensures opposites { IfOk result (λ opposed. opposed ≡ following.has_opposites clause.now) }
    ensures terms { result ≡ Ok false → terms.new.items ≡ map unit (distinct clause.now) }
    ensures values { result ≡ Ok false → valued partial.new ≡ denied clause.now }

    // The next clauses also hold where memory ran out.
    ensures length { length partial.new ≡ length partial.old }
    ensures listed { IsListed partial.new trail.new.items }
{
    for lit in clause {
        match partial.value(*lit) {
            Value::True => return Ok(true),
            Value::False => {}
            Value::Free => terms.push(Term { coef: 1, lit: *lit })?,
        }
        make_true(lit.negate(), partial, trail)?;
    }
    Ok(false)
}
