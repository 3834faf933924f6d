//! Assignments of all variables.
ghost use Rattle.std.specs.Prelude.{◌≡◌, ◌-◌, ◌≤◌, false, length, replicate, slice_set, IfOk};
ghost use Rattle.rows.specs.Values.{assigned};

use std::alloc::{AllocError, Global};
use std::marker::Model;

/// A truth value for each variable from 1 on, seen as their list.
#[derive(Drop)]
pub struct Assignment {
    values: Vec<bool>,
}

impl Model for Assignment {
    ghost use Rattle.std.specs.Prelude.{Bool, List};

    ghost Value = { List Bool };

    ghost view = { λ a. a.values.items };
}

impl Assignment {
    /// An assignment of so many variables, all of them false.
    ///
    /// # Errors
    /// Only where memory runs out.
    pub fn new(alloc: Global, vars: u32) -> Result<Assignment, AllocError>
        ensures { IfOk result (λ assignment. assignment ≡ replicate vars false) }
    {
        Ok(Assignment {
            values: vec![in alloc; false; vars as usize]?,
        })
    }

    /// Gives a variable its value.
    pub fn set(&mut self, var: u32, value: bool)
        requires at_least { 1 ≤ var }
        requires at_most { var ≤ length self.old }
        ensures { self.new ≡ slice_set self.old (var - 1) value }
    {
        self.values[var as usize - 1] = value;
    }

    /// The value of a variable.
    pub fn value(&self, var: u32) -> bool
        requires at_least { 1 ≤ var }
        requires at_most { var ≤ length self.now }
        ensures { result ≡ assigned self.now var }
    {
        self.values[var as usize - 1]
    }
}
