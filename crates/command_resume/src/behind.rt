//! Logs over a league's rows, over rows that stand behind these too.
ghost use Rattle.std.specs.Prelude.{◌<◌, ◌≤◌, length, IfOk};
ghost use Rattle.std.specs.List.{All};

use refutation::{Log, Part, StepKind};
use std::alloc::{AllocError, Global};

/// So many clauses that stand behind so many rows, and before the steps of a log.
#[derive(Clone, Copy)]
pub(crate) struct Behind {
    pub(crate) rows: u64,
    pub(crate) clauses: u64,
}

impl Behind {
    /// The number of what has this number without these clauses.
    fn number(self, number: u64) -> u64 {
        if number <= self.rows {
            number
        } else {
            number.saturating_add(self.clauses)
        }
    }

    /// The hints of a step.
    ///
    /// # Errors
    /// Only where memory runs out.
    fn hints(self, alloc: Global, hints: &[u64]) -> Result<Vec<u64>, AllocError> {
        let mut numbers = Vec::with_capacity(alloc, hints.len())?;
        for hint in hints {
            numbers.push(self.number(*hint))?;
        }
        Ok(numbers)
    }

    /// The parts of a step.
    ///
    /// # Errors
    /// Only where memory runs out.
    fn parts(self, alloc: Global, parts: &[Part]) -> Result<Vec<Part>, AllocError>
        requires { All (λ part. 1 ≤ part.factor) parts.now }
        ensures { IfOk result (λ numbered. All (λ part. 1 ≤ part.factor) numbered.items) }
    {
        let mut numbered = Vec::with_capacity(alloc, parts.len())?;
        for part in parts {
            numbered.push(Part {
                factor: part.factor,
                row: self.number(part.row),
            })?;
        }
        Ok(numbered)
    }
}

/// The steps of a log, with the numbers that they have with these clauses.
///
/// # Errors
/// Only where memory runs out.
pub(crate) fn moved(alloc: Global, log: &Log, behind: Behind) -> Result<Log, AllocError> {
    let mut moved = Log::new(alloc);
    for place in 0..log.len() {
        add_step(alloc, &mut moved, log, place, behind)?;
    }
    Ok(moved)
}

/// Adds the step at a place of a log.
///
/// # Errors
/// Only where memory runs out.
fn add_step(
    alloc: Global,
    moved: &mut Log,
    log: &Log,
    place: usize,
    behind: Behind,
) -> Result<(), AllocError>
    requires { place < length log.now }
{
    match log.kind(place) {
        StepKind::Clause => {
            let hints = behind.hints(alloc, log.hints(place))?;
            moved.push(log.clause(place), &hints)
        }
        StepKind::Linear => {
            let parts = behind.parts(alloc, log.parts(place))?;
            moved.push_linear(&parts, log.divisor(place))
        }
    }
}
