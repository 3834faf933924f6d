//! What a row says of the variables that have no value yet.
ghost use Rattle.std.specs.Prelude.{◌≡◌, ℕ, ◌+◌, ◌*◌, ◌^◌, ◌<◌, ◌≤◌, ◌-ℤ◌, pos, length, drop, slice_get};
ghost use Rattle.std.specs.Prelude.{IfSome, None, OnOk, OnErr};
ghost use Rattle.std.specs.List.{All, position_from};
ghost use Rattle.rows.specs.Partials as partials;
ghost use Rattle.rows.specs.Partials.{Forces, IsQuietRow};
ghost use Rattle.rows.specs.Forcing.{set_true, with_forced};
ghost use Rattle.rows.specs.Trails.{IsListed, set_if};
ghost use Rattle.rows.specs.Values.{valued};

use crate::lit::{Lit, Term};
use crate::partial::{Partial, Value};
use std::alloc::AllocError;

/// The slack of a row: the coefficients of its literals that aren't false, summed, less its degree. Where it is
/// negative the row is in conflict. It takes no memory.
pub fn slack(terms: &[Term], degree: u64, partial: &Partial) -> i128
    requires { All (λ t. t.lit.var ≤ length partial.now) terms.now }
    ensures { result ≡ pos (partials.reach (valued partial.now) terms.now) -ℤ pos degree }
{
    reach(terms, partial) as i128 - i128::from(degree)
}

/// The first place at or after `from` whose literal the row forces: it is free, and its coefficient is above the slack.
/// None exactly where there is none. It takes no memory.
pub fn forced(terms: &[Term], degree: u64, partial: &Partial, from: usize) -> Option<usize>
    requires known { All (λ t. t.lit.var ≤ length partial.now) terms.now }
    requires no_conflict { degree ≤ partials.reach (valued partial.now) terms.now }
    ensures first { result
        ≡ position_from (partials.is_forced (valued partial.now) terms.now degree) from (drop from terms.now) }

    // What is found is forced, and a row in which nothing is found from its front on is quiet.
    ensures forces { IfSome result (λ place. IfSome (slice_get terms.now place)
        (Forces (valued partial.now) (record { terms = terms.now; degree = degree }))) }
    ensures quiet { from ≡ 0 → result ≡ None
        → IsQuietRow (valued partial.now) (record { terms = terms.now; degree = degree }) }
{
    let reached = reach(terms, partial);
    let mut place = from;
    'places: while place < terms.len() {
        let term = terms[place];
        if partial.value(term.lit) == Value::Free
            && reached < u128::from(degree) + u128::from(term.coef)
        {
            return Some(place);
        }
        place += 1;
    }
    None
}

/// Makes all literals true at once that the row forces, and lists their variables. `reached`
/// is the row's reach, which the row has before and after; a row in conflict forces each of its free literals.
///
/// # Errors
/// Only where memory runs out: then the trail still lists each variable that has a value.
pub fn force(
    terms: &[Term],
    degree: u64,
    reached: u128,
    partial: &mut Partial,
    trail: &mut Vec<u32>,
) -> Result<(), AllocError>
    requires known { All (λ t. t.lit.var ≤ length partial.old) terms.now }
    requires reached { reached ≡ partials.reach (valued partial.old) terms.now }
    requires listed { IsListed partial.old trail.old.items }
    ensures values { OnOk result
        (valued partial.new ≡ with_forced (valued partial.old) (record { terms = terms.now; degree = degree })) }

    // The next clauses also hold where memory ran out.
    ensures length { length partial.new ≡ length partial.old }
    ensures listed { IsListed partial.new trail.new.items }
{
    for term in terms {
        let needed = reached < u128::from(degree) + u128::from(term.coef);
        make_true_if(needed, term.lit, partial, trail)?;
    }
    Ok(())
}

/// Makes a free literal true and lists its variable; any other literal stays as it is.
///
/// # Errors
/// Only where memory runs out: then no value changes.
pub fn make_true(lit: Lit, partial: &mut Partial, trail: &mut Vec<u32>) -> Result<(), AllocError>
    requires known { lit.var ≤ length partial.old }
    requires listed { IsListed partial.old trail.old.items }
    ensures values { OnOk result (valued partial.new ≡ set_true (valued partial.old) lit) }
    ensures length { length partial.new ≡ length partial.old }
    ensures listed { IsListed partial.new trail.new.items }
    ensures err { OnErr result (partial.new ≡ partial.old) }
{
    if partial.value(lit) != Value::Free {
        return Ok(());
    }
    trail.push(lit.var())?;
    partial.set(lit);
    Ok(())
}

/// Makes a free literal true and lists its variable where a test says so; any other literal stays as it is.
///
/// # Errors
/// Only where memory runs out: then the trail still lists each variable that has a value.
pub fn make_true_if(
    test: bool,
    lit: Lit,
    partial: &mut Partial,
    trail: &mut Vec<u32>,
) -> Result<(), AllocError>
    requires known { lit.var ≤ length partial.old }
    requires listed { IsListed partial.old trail.old.items }
    ensures values { OnOk result (valued partial.new ≡ set_if test (valued partial.old) lit) }
    ensures length { length partial.new ≡ length partial.old }
    ensures listed { IsListed partial.new trail.new.items }
{
    if test {
        make_true(lit, partial, trail)
    } else {
        Ok(())
    }
}

/// The reach of a row: the coefficients of its literals that aren't false, summed. Where it is below the degree the row
/// is in conflict. It takes no memory.
pub fn reach(terms: &[Term], partial: &Partial) -> u128
    requires { All (λ t. t.lit.var ≤ length partial.now) terms.now }
    ensures reach { result ≡ partials.reach (valued partial.now) terms.now }
    ensures at_most { result ≤ 2 ^ 32 * length terms.now }
{
    let mut sum = 0;
    for term in terms {
        if partial.value(term.lit) != Value::False {
            sum += u128::from(term.coef);
        }
    }
    sum
}
