//! Which constraints are paid for, and the variables beside their units.
ghost use Rattle.std.specs.Prelude.{◌≡◌, ◌^◌, ◌<◌, ◌≤◌, ◌&&◌, not, nat_lt};
ghost use Rattle.std.specs.List.{list_any};
ghost use Rattle.encoding.specs.Variables as variables;
ghost use Rattle.bound_rows.specs.BoundRows as bound_rows;

use encoding::{h_count, has_breaks, hb_count, x_count};
use league::{Class, Constraint, League};

/// Whether a constraint is soft and its deviation costs something.
pub fn is_paid(constraint: &Constraint) -> bool
    ensures paid { result ≡ (not constraint.now.hard && nat_lt 0 constraint.now.penalty) }
    ensures small { constraint.now.penalty < 2 ^ 32 }
{
    let penalty = constraint.penalty;
    !constraint.hard && penalty > 0
}

/// Whether breaks have variables: a hard constraint bounds them, or one that is paid for.
#[tactic(auto, using(crate::proofs::PaidLemmas::paid_breaks))]
pub fn needs_breaks(constraints: &[Constraint]) -> bool
    ensures { result ≡ bound_rows.needs_breaks constraints.now }
{
    has_breaks(constraints) || has_paid_breaks(constraints)
}

/// Whether a constraint that is paid for bounds breaks.
fn has_paid_breaks(constraints: &[Constraint]) -> bool
    ensures { result ≡ list_any
        (λ c. not c.hard && nat_lt 0 c.penalty && variables.bounds_breaks c.class) constraints.now }
{
    constraints.iter().any(|constraint| is_paid(constraint) && bounds_breaks(&constraint.class))
}

/// Whether a class bounds breaks.
fn bounds_breaks(class: &Class) -> bool
    ensures { result ≡ variables.bounds_breaks class.now }
{
    match class {
        Class::Br1 { .. } | Class::Br2 { .. } => true,
        _ => false,
    }
}

/// How many variables a league has beside the units.
pub fn base_vars(league: &League) -> u32
    ensures vars { result ≡ bound_rows.base_vars league.now }
    ensures at_most { result ≤ 130960 }
{
    let n = league.n();
    let breaks = if needs_breaks(league.constraints()) {
        2 * hb_count(n)
    } else {
        0
    };
    x_count(n) + h_count(n) + breaks
}
