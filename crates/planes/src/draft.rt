//! Steps that are planned.
ghost use Rattle.std.specs.Prelude.{◌≤◌};

use crate::parts::Parts;
use refutation::Log;
use rows::Lit;
use std::alloc::{AllocError, Global};
use std::mem;

/// Steps that are to come behind so many rows. Nothing is known of them: they are judged at the end.
#[derive(Drop)]
pub(crate) struct Draft {
    steps: Log,
    rows: u64,
    /// Whether a step would need a row that can't be had. The draft comes to nothing then.
    pub(crate) lacks_row: bool,
}

impl Draft {
    /// A draft of some steps that are to come behind so many rows.
    pub(crate) fn new(steps: Log, rows: u64) -> Draft {
        Draft {
            steps,
            rows,
            lacks_row: false,
        }
    }

    /// The steps, which are taken out.
    pub(crate) fn take(&mut self, alloc: Global) -> Log {
        mem::replace(&mut self.steps, Log::new(alloc))
    }

    /// The number of the next step.
    fn next(&self) -> u64 {
        let steps = self.steps.len() as u64;
        self.rows.saturating_add(steps).saturating_add(1)
    }

    /// Plans a clause step. The answer is its number.
    ///
    /// # Errors
    /// Only where memory runs out.
    pub(crate) fn plan_clause(&mut self, clause: &[Lit], hints: &[u64]) -> Result<u64, AllocError> {
        let number = self.next();
        self.steps.push(clause, hints)?;
        Ok(number)
    }

    /// Plans a linear step. The answer is its number.
    ///
    /// # Errors
    /// Only where memory runs out.
    pub(crate) fn plan_sum(&mut self, parts: &Parts, divisor: u64) -> Result<u64, AllocError>
        requires { 1 ≤ divisor }
    {
        let number = self.next();
        self.steps.push_linear(&parts.list, divisor)?;
        Ok(number)
    }
}
