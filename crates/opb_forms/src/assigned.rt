//! Literals as an assignment.
ghost use Rattle.std.specs.Prelude.{◌≡◌, ◌≤◌, ◌==◌, if◌then◌else◌, ℕ, length, IfOk};
ghost use Rattle.rows.specs.Values.{assigned};
ghost use Rattle.opb_forms.specs.Values.{value_in};

use rows::{Assignment, Lit};
use std::alloc::{AllocError, Global};

/// Values for the variables from 1 to a number: a variable has that of its last literal, and is false where it has none.
/// Literals of other variables are passed over.
///
/// # Errors
/// Only where memory runs out.
pub fn assignment_of(alloc: Global, vars: u32, lits: &[Lit]) -> Result<Assignment, AllocError>
    ensures length { IfOk result (λ values. length values ≡ vars) }
    ensures values { IfOk result (λ values. (v : ℕ) → 1 ≤ v → v ≤ vars → assigned values v ≡ value_in lits.now v) }
{
    let mut values = Assignment::new(alloc, vars)?;
    for lit in lits {
        set_if_within(&mut values, vars, *lit);
    }
    Ok(values)
}

/// Gives a variable the value that makes its literal true, where it is one of so many.
fn set_if_within(values: &mut Assignment, vars: u32, lit: Lit)
    requires { length values.old ≡ vars }
    ensures length { length values.new ≡ vars }
    ensures values { (v : ℕ) → 1 ≤ v → v ≤ vars →
        assigned values.new v ≡ (if lit.var == v then lit.positive else assigned values.old v) }
{
    if lit.var() <= vars {
        values.set(lit.var(), lit.positive());
    }
}
