//! A log that grows.
ghost use Rattle.std.specs.Prelude.{◌≤◌};
ghost use Rattle.std.specs.List.{All};

use refutation::{Log, Part};
use rows::Lit;
use std::alloc::{AllocError, Global};

/// The steps so far of a log over so many rows.
#[derive(Drop)]
pub struct Writer {
    rows: u64,
    log: Log,
}

impl Writer {
    /// No step yet.
    pub fn new(alloc: Global, rows: u64) -> Writer {
        Writer {
            rows,
            log: Log::new(alloc),
        }
    }

    /// Adds a clause step, and gives the number of its row.
    ///
    /// # Errors
    /// Only where memory runs out.
    pub fn clause(&mut self, clause: &[Lit], hints: &[u64]) -> Result<u64, AllocError> {
        self.log.push(clause, hints)?;
        Ok(self.last())
    }

    /// Adds the sum of some rows, divided, and gives the number of its row.
    ///
    /// # Errors
    /// Only where memory runs out.
    pub fn sum(&mut self, parts: &[Part], divisor: u64) -> Result<u64, AllocError>
        requires factors { All (λ part. 1 ≤ part.factor) parts.now }
        requires divisor { 1 ≤ divisor }
    {
        self.log.push_linear(parts, divisor)?;
        Ok(self.last())
    }

    /// The number of the last step's row.
    fn last(&self) -> u64 {
        self.rows.saturating_add(self.log.len() as u64)
    }

    /// The log.
    pub fn finish(self) -> Log {
        let Writer { rows: _, log } = self;
        log
    }
}
