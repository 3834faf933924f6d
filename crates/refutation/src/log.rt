//! A log's steps, in flat lists.
ghost use Rattle.std.specs.Prelude.{◌≡◌, ◌<◌, ◌≤◌, ◌++◌, ◌==◌, [], ◌∷◌, length, slice_get, slice_range};
ghost use Rattle.std.specs.Prelude.{Some, IfOk, IfSome, OnOk, OnErr, IsTrue, ◌↔◌, if◌then◌else◌};
ghost use Rattle.std.specs.List.{All};
ghost use Rattle.refutation.specs.Steps.{NamesRows, kind_at, clause_at, hints_at, parts_at, divisor_at};
ghost use Rattle.refutation.specs.Steps.Step.{Clause, Linear};
ghost use Rattle.refutation.specs.Flat as flat;
ghost use Rattle.refutation.specs.Fronts.{TakesStep};

use crate::front::{clause_in_front, linear_in_front};
use crate::step::{Part, StepKind};
use crate::version::Version;
use rows::Lit;
use std::alloc::{AllocError, Global};
use std::marker::Model;

/// Where a step's literals, hints and parts end, and its divisor, which is 0 for a clause step.
#[derive(Clone, Copy)]
struct End {
    lits: usize,
    hints: usize,
    parts: usize,
    divisor: u64,
}

/// The steps of a refutation, seen as their list. A literal takes 4 bytes, a hint 8, a part 16, and a step 32 beside
/// them.
pub struct Log {
    lits: Vec<Lit>,
    hints: Vec<u64>,
    parts: Vec<Part>,
    ends: Vec<End>,
}

impl Drop for Log {
    fn drop(self) {
        let Log {
            lits: _,
            hints: _,
            parts: _,
            ends: _,
        } = self;
    }
}

impl Model for Log {
    ghost use Rattle.std.specs.Prelude.{List};
    ghost use Rattle.refutation.specs.Steps.{Step};

    ghost Value = { List Step };

    ghost use Rattle.refutation.specs.Flat.{AreKept, front, steps_from};

    ghost view = { λ l.
        steps_from front (record { lits = l.lits.items; hints = l.hints.items; parts = l.parts.items }) l.ends.items };

    ghost invariant = { λ l.
        AreKept (record { lits = l.lits.items; hints = l.hints.items; parts = l.parts.items }) l.ends.items };
}

impl Log {
    /// No step. It takes no memory.
    pub fn new(alloc: Global) -> Log
        ensures { result ≡ [] }
    {
        Log {
            lits: Vec::new(alloc),
            hints: Vec::new(alloc),
            parts: Vec::new(alloc),
            ends: Vec::new(alloc),
        }
    }

    /// Adds a clause step: a clause, and the numbers of rows that lead to its conflict, in the order of their use.
    ///
    /// # Errors
    /// Only where memory runs out.
    pub fn push(&mut self, clause: &[Lit], hints: &[u64]) -> Result<(), AllocError>
        ensures ok { OnOk result (self.new ≡ self.old ++ Clause clause.now hints.now ∷ []) }
        ensures err { OnErr result (self.new ≡ self.old) }
    {
        // Room first, so that what comes after the hints can't fail.
        self.ends.reserve(1)?;
        self.lits.reserve(clause.len())?;
        self.hints.extend_from_slice(hints)?;
        self.lits.extend_from_slice(clause)?;
        self.ends.push(End {
            lits: self.lits.len(),
            hints: self.hints.len(),
            parts: self.parts.len(),
            divisor: 0,
        })?;
        Ok(())
    }

    /// Adds the clause step whose line in this version stands in front of these bytes, and gives what is behind it.
    fn push_clause_line<'a>(
        &mut self,
        version: Version,
        bytes: &'a [u8],
    ) -> Result<Option<&'a [u8]>, AllocError>
        ensures { IfOk result (λ read. TakesStep version bytes.now read self.old self.new) }
    {
        // Room first, so that what comes after the hints can't fail.
        self.ends.reserve(1)?;
        let lits = self.lits.len();
        let hints = self.hints.len();
        let Some(left) = clause_in_front(version, bytes, &mut self.lits, &mut self.hints) else {
            self.lits.truncate(lits);
            self.hints.truncate(hints);
            return Ok(None);
        };
        self.ends.push(End {
            lits: self.lits.len(),
            hints: self.hints.len(),
            parts: self.parts.len(),
            divisor: 0,
        })?;
        Ok(Some(left))
    }

    /// Adds the linear step whose line stands in front of these bytes, and gives what is behind its LF.
    fn push_linear_line<'a>(&mut self, bytes: &'a [u8]) -> Result<Option<&'a [u8]>, AllocError>
        ensures { IfOk result (λ read. TakesStep Version.Two bytes.now read self.old self.new) }
    {
        self.ends.reserve(1)?;
        let parts = self.parts.len();
        let Some(found) = linear_in_front(bytes, &mut self.parts) else {
            self.parts.truncate(parts);
            return Ok(None);
        };
        self.ends.push(End {
            lits: self.lits.len(),
            hints: self.hints.len(),
            parts: self.parts.len(),
            divisor: found.0,
        })?;
        Ok(Some(found.1))
    }

    /// Adds the step whose line in this version stands in front of these bytes, and gives what is behind its LF. None
    /// where another line, or part of one, stands there.
    ///
    /// # Errors
    /// Only where memory runs out.
    pub(crate) fn push_line<'a>(
        &mut self,
        version: Version,
        bytes: &'a [u8],
    ) -> Result<Option<&'a [u8]>, AllocError>
        ensures { IfOk result (λ read. TakesStep version bytes.now read self.old self.new) }
    {
        let read = self.push_clause_line(version, bytes)?;
        if read.is_some() {
            return Ok(read);
        }
        match version {
            Version::One => Ok(None),
            Version::Two => self.push_linear_line(bytes),
        }
    }

    /// Adds a linear step: the sum of these rows, each with its factor, divided by a divisor.
    ///
    /// # Errors
    /// Only where memory runs out.
    pub fn push_linear(&mut self, parts: &[Part], divisor: u64) -> Result<(), AllocError>
        requires factors { All (λ part. 1 ≤ part.factor) parts.now }
        requires divisor { 1 ≤ divisor }
        ensures ok { OnOk result (self.new ≡ self.old ++ Linear parts.now divisor ∷ []) }
        ensures err { OnErr result (self.new ≡ self.old) }
    {
        // Room first, so that what comes after the parts can't fail.
        self.ends.reserve(1)?;
        self.parts.extend_from_slice(parts)?;
        self.ends.push(End {
            lits: self.lits.len(),
            hints: self.hints.len(),
            parts: self.parts.len(),
            divisor,
        })?;
        Ok(())
    }

    /// The number of steps.
    pub fn len(&self) -> usize
        ensures { result ≡ length self.now }
    {
        self.ends.len()
    }

    /// Whether there is no step.
    pub fn is_empty(&self) -> bool
        ensures { result ≡ (length self.now == 0) }
    {
        self.ends.is_empty()
    }

    /// The kind of the step at place k, from 0.
    pub fn kind(&self, k: usize) -> StepKind
        requires { k < length self.now }
        ensures { result ≡ kind_at self.now k }
    {
        kind_ending(ends_of(&self.ends, k).1)
    }

    /// The clause of the clause step at place k, from 0.
    pub fn clause(&self, k: usize) -> &[Lit]
        requires there { k < length self.now }
        requires kind { kind_at self.now k ≡ StepKind.Clause }
        ensures { result.now ≡ clause_at self.now k }
    {
        let (from, to) = ends_of(&self.ends, k);
        items_between(&self.lits, from.lits, to.lits)
    }

    /// The hints of the clause step at place k, from 0.
    pub fn hints(&self, k: usize) -> &[u64]
        requires there { k < length self.now }
        requires kind { kind_at self.now k ≡ StepKind.Clause }
        ensures { result.now ≡ hints_at self.now k }
    {
        let (from, to) = ends_of(&self.ends, k);
        items_between(&self.hints, from.hints, to.hints)
    }

    /// The parts of the linear step at place k, from 0.
    pub fn parts(&self, k: usize) -> &[Part]
        requires there { k < length self.now }
        requires kind { kind_at self.now k ≡ StepKind.Linear }
        ensures parts { result.now ≡ parts_at self.now k }
        ensures factors { All (λ part. 1 ≤ part.factor) result.now }
    {
        let (from, to) = ends_of(&self.ends, k);
        items_between(&self.parts, from.parts, to.parts)
    }

    /// The divisor of the linear step at place k, from 0.
    pub fn divisor(&self, k: usize) -> u64
        requires there { k < length self.now }
        requires kind { kind_at self.now k ≡ StepKind.Linear }
        ensures divisor { result ≡ divisor_at self.now k }
        ensures positive { 1 ≤ result }
    {
        let (_, to) = ends_of(&self.ends, k);
        to.divisor
    }

    /// Whether each hint and each part's row is at least 1, as a log's text needs it.
    pub fn names_rows(&self) -> bool
        ensures { IsTrue result ↔ All NamesRows self.now }
    {
        for k in 0..self.len() {
            if !self.step_names_rows(k) {
                return false;
            }
        }
        true
    }

    /// Whether each hint or each part's row of the step at place k is at least 1.
    fn step_names_rows(&self, k: usize) -> bool
        requires { k < length self.now }
        ensures { IfSome (slice_get self.now k) (λ step. IsTrue result ↔ NamesRows step) }
    {
        match self.kind(k) {
            StepKind::Clause => name_rows(self.hints(k)),
            StepKind::Linear => parts_name_rows(self.parts(k)),
        }
    }
}

/// Whether each hint is at least 1.
fn name_rows(hints: &[u64]) -> bool
    ensures { IsTrue result ↔ All (λ hint. 1 ≤ hint) hints.now }
{
    hints.iter().all(|hint| *hint >= 1)
}

/// Whether each part's row is at least 1.
fn parts_name_rows(parts: &[Part]) -> bool
    ensures { IsTrue result ↔ All (λ part. 1 ≤ part.row) parts.now }
{
    parts.iter().all(|part| part.row >= 1)
}

/// Where the step at place k begins.
fn end_before(ends: &[End], k: usize) -> End
    requires { k < length ends.now }
    ensures { result ≡ flat.end_before flat.front ends.now k }
{
    if k == 0 {
        End {
            lits: 0,
            hints: 0,
            parts: 0,
            divisor: 0,
        }
    } else {
        ends[k - 1]
    }
}

/// The ends between which the step at place k lies.
fn ends_of(ends: &[End], k: usize) -> (End, End)
    requires { k < length ends.now }
    ensures from { result.0 ≡ flat.end_before flat.front ends.now k }
    ensures to { slice_get ends.now k ≡ Some result.1 }
{
    (end_before(ends, k), ends[k])
}

/// The kind of the step that ends here.
fn kind_ending(end: End) -> StepKind
    ensures { result ≡ (if end.divisor == 0 then StepKind.Clause else StepKind.Linear) }
{
    if end.divisor == 0 {
        StepKind::Clause
    } else {
        StepKind::Linear
    }
}

/// The items from one place to another.
fn items_between<T>(items: &[T], from: usize, to: usize) -> &[T]
    requires order { from ≤ to }
    requires within { to ≤ length items.now }
    ensures { result.now ≡ slice_range items.now from to }
{
    &items[from..to]
}
