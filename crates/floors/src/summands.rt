//! Rows that are to be added up.
ghost use Rattle.std.specs.Prelude.{◌≤◌};
ghost use Rattle.std.specs.List.{All};

use break_counts::Writer;
use refutation::Part;
use std::alloc::{AllocError, Global};

/// Rows, each with how many times it is added.
#[derive(Drop)]
pub(crate) struct Summands {
    parts: Vec<Part>,
    ghost positive: { All (λ part. 1 ≤ part.factor) parts.items },
}

impl Summands {
    /// No row yet.
    pub(crate) fn new(alloc: Global) -> Summands {
        Summands {
            parts: Vec::new(alloc),
        }
    }

    /// Takes a row so many times, if any.
    ///
    /// # Errors
    /// Only where memory runs out.
    pub(crate) fn add(&mut self, times: u64, row: u64) -> Result<(), AllocError> {
        if times > 0 {
            self.parts.push(Part { factor: times, row })?;
        }
        Ok(())
    }

    /// Takes some rows, each so many times, if any.
    ///
    /// # Errors
    /// Only where memory runs out.
    pub(crate) fn add_all(&mut self, times: u64, rows: &[u64]) -> Result<(), AllocError> {
        for row in rows {
            self.add(times, *row)?;
        }
        Ok(())
    }

    /// Adds the sum of the rows to a log, divided, and gives the number of its row.
    ///
    /// # Errors
    /// Only where memory runs out.
    pub(crate) fn sum(&self, writer: &mut Writer, divisor: u64) -> Result<u64, AllocError>
        requires { 1 ≤ divisor }
    {
        writer.sum(&self.parts, divisor)
    }
}
