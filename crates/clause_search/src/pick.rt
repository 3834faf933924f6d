//! Which literal is decided next, and the values where all variables have one.
ghost use Rattle.std.specs.Prelude.{◌≡◌, ◌≢◌, ℕ, ◌≤◌, None, IfOk, IfSome};
ghost use Rattle.rows.specs.Partials.{IsQuiet, as_value, value_of};
ghost use Rattle.propagate.specs.Trails.{IsQuietBelow, values_of};
ghost use Rattle.clause_search.specs.Turns.{IsDecided, IsFilled};

use crate::order::Order;
use propagate::Trail;
use rows::{Assignment, Lit, Value};
use std::alloc::{AllocError, Global};

/// The most active free variable, with the sign that it had last. None where each variable has a value.
pub(crate) fn pick(trail: &Trail, order: &mut Order) -> Option<Lit>
    requires { order.old.vars ≡ trail.now.vars }
    ensures vars { order.new.vars ≡ order.old.vars }
    ensures known { IfSome result (λ lit. lit.var ≤ trail.now.vars) }
    ensures free { IfSome result (λ lit. value_of (values_of trail.now.entries) lit ≡ Value.Free) }
    ensures none { result ≡ None
        → ((v : ℕ) → 1 ≤ v → v ≤ trail.now.vars → values_of trail.now.entries v ≢ Value.Free) }
{
    match order.next(trail) {
        Some(lit) => Some(lit),
        None => lowest_free(trail, order.vars),
    }
}

/// The lowest free variable, to be false.
fn lowest_free(trail: &Trail, vars: u32) -> Option<Lit>
    requires vars { trail.now.vars ≡ vars }
    requires few { vars ≤ 2147483647 }
    ensures known { IfSome result (λ lit. lit.var ≤ vars) }
    ensures free { IfSome result (λ lit. value_of (values_of trail.now.entries) lit ≡ Value.Free) }
    ensures none { result ≡ None
        → ((v : ℕ) → 1 ≤ v → v ≤ vars → values_of trail.now.entries v ≢ Value.Free) }
{
    for before in 0..vars {
        let lit = Lit::new(before + 1, false);
        if let Value::Free = trail.value(lit) {
            return Some(lit);
        }
    }
    None
}

/// Makes a free literal true: the next level begins.
pub(crate) fn decide(trail: &mut Trail, lit: Lit)
    requires known { lit.var ≤ trail.old.vars }
    requires free { value_of (values_of trail.old.entries) lit ≡ Value.Free }
    requires quiet { IsQuiet (values_of trail.old.entries) trail.old.rows }
    requires below { IsQuietBelow trail.old.rows trail.old.entries }
    ensures { IsDecided trail.old trail.new }
{
    trail.decide(lit);
    let _len = trail.len();
}

/// The values of all variables; a free one is false.
///
/// # Errors
/// Only where memory runs out.
pub(crate) fn filled(alloc: Global, trail: &Trail, vars: u32) -> Result<Assignment, AllocError>
    requires vars { trail.now.vars ≡ vars }
    requires few { vars ≤ 2147483647 }
    ensures { IfOk result (IsFilled (values_of trail.now.entries) vars vars) }
{
    let mut assignment = Assignment::new(alloc, vars)?;
    for before in 0..vars {
        let lit = Lit::new(before + 1, true);
        let value = is_true(trail.value(lit));
        assignment.set(before + 1, value);
    }
    Ok(assignment)
}

fn is_true(value: Value) -> bool
    ensures { value ≢ Value.Free → value ≡ as_value result }
{
    match value {
        Value::True => true,
        Value::False => false,
        Value::Free => false,
    }
}
