//! The last step of a log that names the row of each step.
ghost use Rattle.std.specs.Prelude.{◌≡◌, ◌<◌, ◌≤◌, ◌+◌, ◌⊎◌, ℕ, List, drop, get_or, length, slice_get, IfOk, IfSome, Some};
ghost use Rattle.refutation.specs.Steps.{Step};
ghost use Rattle.refutation_check.specs.Forgotten.{AreLast, AreLastUpTo, Lacks, NoneNames, names_at};

use refutation::{Log, StepKind};
use std::alloc::{AllocError, Global};

/// For each step of a log, the place of the last step that names its row.
#[derive(Drop)]
pub(crate) struct LastNames {
    /// How many rows stand in front of those of the steps.
    before: usize,
    /// The places, by the places of the steps: 0 where no step names the row.
    last: Vec<usize>,
}

impl LastNames {
    /// The last names of a log over so many rows. The table takes 8 bytes a step.
    ///
    /// # Errors
    /// Only where memory runs out.
    pub(crate) fn of(alloc: Global, before: usize, log: &Log) -> Result<LastNames, AllocError>
        ensures before { IfOk result (λ names. names.before ≡ before) }
        ensures last { IfOk result (λ names. AreLast before log.now names.last.items) }
    {
        let mut last = vec![in alloc; 0usize; log.len()]?;
        for k in 0..log.len() {
            note_step(&mut last, before, log, k);
        }
        Ok(LastNames { before, last })
    }

    /// The place of the step whose row has a number, where no step of the log behind k names it.
    pub(crate) fn over(&self, number: u64, k: usize) -> Option<usize>
        ensures { (log : List Step) → AreLast self.now.before log self.now.last.items
            → IfSome result (λ place. NoneNames (self.now.before + place + 1) (drop (k + 1) log)) }
    {
        let number = number as usize;
        if number <= self.before {
            return None;
        }
        self.over_place(number - self.before - 1, k)
    }

    /// The place of a step, where no step of the log behind k names its row.
    pub(crate) fn over_place(&self, place: usize, k: usize) -> Option<usize>
        ensures { (log : List Step) → AreLast self.now.before log self.now.last.items
            → IfSome result (λ place. NoneNames (self.now.before + place + 1) (drop (k + 1) log)) }
    {
        match self.last.get(place) {
            Some(last) if *last <= k => Some(place),
            _ => None,
        }
    }
}

/// How many rows a step of a log names.
pub(crate) fn name_count(log: &Log, k: usize) -> usize
    requires { k < length log.now }
    ensures { result ≡ length (names_at log.now k) }
{
    match log.kind(k) {
        StepKind::Clause => log.hints(k).len(),
        StepKind::Linear => log.parts(k).len(),
    }
}

/// The number at a place among those of the rows that a step of a log names.
pub(crate) fn name_at(log: &Log, k: usize, place: usize) -> u64
    requires there { k < length log.now }
    requires within { place < length (names_at log.now k) }
    ensures { Some result ≡ slice_get (names_at log.now k) place }
{
    match log.kind(k) {
        StepKind::Clause => log.hints(k)[place],
        StepKind::Linear => log.parts(k)[place].row,
    }
}

/// Notes a step of a log as the last that names the rows that it names.
fn note_step(last: &mut [usize], before: usize, log: &Log, k: usize)
    requires { k < length log.now }
    ensures length { length last.new ≡ length last.old }
    ensures kept { (p : ℕ) → (get_or last.new p 0 ≡ get_or last.old p 0) ⊎ (get_or last.new p 0 ≡ k) }
    ensures noted { (p : ℕ) → p < length last.new → get_or last.new p 0 < k → Lacks (before + p + 1) (names_at log.now k) }
{
    for place in 0..name_count(log, k) {
        note(last, before, name_at(log, k, place), k);
    }
}

/// Notes a step as the last that names the row with a number.
fn note(last: &mut [usize], before: usize, number: u64, k: usize)
    ensures length { length last.new ≡ length last.old }
    ensures kept { (p : ℕ) → (get_or last.new p 0 ≡ get_or last.old p 0) ⊎ (get_or last.new p 0 ≡ k) }
    ensures noted { (p : ℕ) → p < length last.new → number ≡ before + p + 1 → get_or last.new p 0 ≡ k }
{
    let number = number as usize;
    if number > before && number - before - 1 < last.len() {
        last[number - before - 1] = k;
    }
}
