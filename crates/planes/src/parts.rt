//! Rows that are to be added up.
ghost use Rattle.std.specs.Prelude.{◌≤◌};
ghost use Rattle.std.specs.List.{All};

use refutation::Part;
use std::alloc::{AllocError, Global};

/// Rows by their numbers, each with how many times it is added.
#[derive(Drop)]
pub(crate) struct Parts {
    pub(crate) list: Vec<Part>,
    ghost positive: { All (λ part. 1 ≤ part.factor) list.items },
}

impl Parts {
    /// No row.
    pub(crate) fn new(alloc: Global) -> Parts {
        Parts {
            list: Vec::new(alloc),
        }
    }

    /// One row alone.
    ///
    /// # Errors
    /// Only where memory runs out.
    pub(crate) fn begin(&mut self, row: u64) -> Result<(), AllocError> {
        self.list.clear();
        self.list.push(Part { factor: 1, row })?;
        Ok(())
    }

    /// Adds a row so many times, if any.
    ///
    /// # Errors
    /// Only where memory runs out.
    pub(crate) fn add(&mut self, times: i64, row: u64) -> Result<(), AllocError> {
        let factor = u64::try_from(times).unwrap_or(0);
        if factor > 0 {
            self.list.push(Part { factor, row })?;
        }
        Ok(())
    }
}
