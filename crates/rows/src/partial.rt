//! Assignments of some variables.
ghost use Rattle.std.specs.Prelude.{◌≡◌, ◌-◌, ◌≤◌, length, replicate, slice_set, IfOk};
ghost use Rattle.rows.specs.Partials.{as_value, opposite_of, value_of};
ghost use Rattle.rows.specs.Values.{valued};

use crate::lit::Lit;
use std::alloc::{AllocError, Global};
use std::marker::Model;

/// The value of a literal where only some variables have one.
#[derive(Clone, Copy, Debug, PartialEq, Eq)]
pub enum Value {
    True,
    False,
    Free,
}

/// A value for each variable from 1 on, seen as their list.
#[derive(Drop)]
pub struct Partial {
    values: Vec<Value>,
}

impl Model for Partial {
    ghost use Rattle.rows.specs.Values.{Values};

    ghost Value = { Values };

    ghost view = { λ p. p.values.items };
}

impl Partial {
    /// A partial assignment of so many variables, all of them free.
    ///
    /// # Errors
    /// Only where memory runs out.
    pub fn new(alloc: Global, vars: u32) -> Result<Partial, AllocError>
        ensures { IfOk result (λ partial. partial ≡ replicate vars Value.Free) }
    {
        Ok(Partial {
            values: vec![in alloc; Value::Free; vars as usize]?,
        })
    }

    /// The value of a literal.
    pub fn value(&self, lit: Lit) -> Value
        requires { lit.var ≤ length self.now }
        ensures { result ≡ value_of (valued self.now) lit }
    {
        let value = self.values[lit.var() as usize - 1];
        if lit.positive() {
            value
        } else {
            opposite(value)
        }
    }

    /// Makes a free literal true.
    pub fn set(&mut self, lit: Lit)
        requires known { lit.var ≤ length self.old }
        requires free { value_of (valued self.old) lit ≡ Value.Free }
        ensures { self.new ≡ slice_set self.old (lit.var - 1) (as_value lit.positive) }
    {
        self.values[lit.var() as usize - 1] = if lit.positive() {
            Value::True
        } else {
            Value::False
        };
    }

    /// Frees a variable.
    pub fn unset(&mut self, var: u32)
        requires at_least { 1 ≤ var }
        requires at_most { var ≤ length self.old }
        ensures { self.new ≡ slice_set self.old (var - 1) Value.Free }
    {
        self.values[var as usize - 1] = Value::Free;
    }
}

/// The value of the negation.
fn opposite(value: Value) -> Value
    ensures { result ≡ opposite_of value }
{
    match value {
        Value::True => Value::False,
        Value::False => Value::True,
        Value::Free => Value::Free,
    }
}
