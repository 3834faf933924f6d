//! A checker, to which the steps of a log are given one after another.
ghost use Rattle.std.specs.Prelude.{◌≡◌, ◌≤◌, ◌+◌, IfOk, OnOk, OnErr};
ghost use Rattle.std.specs.List.{All};
ghost use Rattle.refutation.specs.Steps.Step.{Clause, Linear};
ghost use Rattle.refutation_check.specs.Forgotten as forgotten;
ghost use Rattle.refutation_check.specs.Judged.{Judged, after_step, no_step_of, verdict_so_far};
ghost use Rattle.refutation_check.specs.Room as rooms;
ghost use Rattle.refutation_check.specs.Room.{steps_bytes};
ghost use Rattle.refutation_check.specs.Within.{AreWithin};

use crate::clause::ClauseStep;
use crate::forgetting::let_row_go;
use crate::judge::{judge_clause, judge_linear};
use crate::keep::keep;
use crate::kept::{KeptStep, Rejection, verdict_on};
use crate::shared::RowPlaces;
use crate::trail::undo;
use refutation::{Part, Verdict};
use rows::{Lit, Partial, RowStore, Sum};
use std::alloc::{AllocError, Global};
use std::marker::Model;

/// What the steps of a log have proved of rows: seen as the rows, their number of variables, the row and the kind of
/// each step that followed, and the number and the fault of the first step that didn't.
///
/// A checker borrows the rows, and keeps each step as its row, in 8 bytes a term, or 32 where a number of a sum doesn't
/// fit that. Equal rows of sums are kept once, unless a row between them has taken the first one's place in a table by
/// the rows' hashes, which takes 512 KiB from the first sum on. A step costs no more than its clause, or its parts, and
/// the rows that it names, each read at most twice, and a sum's own row twice more; the first sum that names a variable
/// makes a table of 32 bytes for each variable up to it.
pub struct Checker<'a> {
    alloc: Global,
    rows: &'a RowStore,
    vars: u32,
    steps: Vec<KeptStep>,
    bytes: u128,
    partial: Partial,
    trail: Vec<u32>,
    sum: Sum,
    places: RowPlaces,
    rejection: Option<Rejection>,
}

impl Drop for Checker<'_> {
    fn drop(self) {
        let Checker {
            alloc: _,
            rows: _,
            vars: _,
            steps: _,
            bytes: _,
            partial: _,
            trail: _,
            sum: _,
            places: _,
            rejection: _,
        } = self;
    }
}

impl<'a> Model for Checker<'a> {
    ghost use Rattle.refutation_check.specs.Judged.{Judged};

    ghost Value = { Judged };

    ghost use Rattle.refutation_check.specs.Checkers.{IsKept, judged_of};

    ghost view = { judged_of };

    ghost invariant = { IsKept };
}

impl<'a> Checker<'a> {
    /// No step yet. It takes 1 byte for each variable.
    ///
    /// # Errors
    /// Only where memory runs out.
    pub fn new(alloc: Global, rows: &'a RowStore, vars: u32) -> Result<Checker<'a>, AllocError>
        requires { AreWithin vars rows.now }
        ensures { IfOk result (λ checker. checker ≡ no_step_of rows.now vars) }
    {
        let partial = Partial::new(alloc, vars)?;
        Ok(Checker {
            alloc,
            rows,
            vars,
            steps: Vec::new(alloc),
            bytes: 0,
            partial,
            trail: Vec::new(alloc),
            sum: Sum::new(alloc),
            places: RowPlaces::new(alloc),
            rejection: None,
        })
    }

    /// Judges a clause step: where it follows its row is added, and else it is rejected. Behind a rejection nothing
    /// changes.
    ///
    /// # Errors
    /// Only where memory runs out: then nothing changes.
    pub fn step(&mut self, clause: &[Lit], hints: &[u64]) -> Result<(), AllocError>
        ensures ok { OnOk result (self.new ≡ after_step self.old (Clause clause.now hints.now)) }
        ensures err { OnErr result (self.new ≡ self.old) }
    {
        if self.rejection.is_some() {
            return Ok(());
        }
        let found = judge_clause(
            self.rows,
            &self.steps,
            self.vars,
            ClauseStep { clause, hints },
            &mut self.partial,
            &mut self.trail,
        );
        undo(&mut self.partial, &mut self.trail);
        keep(
            found?,
            &mut self.steps,
            &mut self.bytes,
            &mut self.rejection,
        )
    }

    /// Judges a linear step: the sum of these rows, each with its factor, divided by a divisor. Where it follows its
    /// row is added, and else it is rejected. Behind a rejection nothing changes.
    ///
    /// # Errors
    /// Only where memory runs out: then nothing changes.
    pub fn linear(&mut self, parts: &[Part], divisor: u64) -> Result<(), AllocError>
        requires factors { All (λ part. 1 ≤ part.factor) parts.now }
        requires divisor { 1 ≤ divisor }
        ensures ok { OnOk result (self.new ≡ after_step self.old (Linear parts.now divisor)) }
        ensures err { OnErr result (self.new ≡ self.old) }
    {
        if self.rejection.is_some() {
            return Ok(());
        }
        let found = judge_linear(
            self.alloc,
            self.rows,
            &self.steps,
            parts,
            divisor,
            &mut self.sum,
        );
        self.sum.clear();
        let shared = self.places.share(found?, &self.steps)?;
        keep(
            shared,
            &mut self.steps,
            &mut self.bytes,
            &mut self.rejection,
        )
    }

    /// Lets the row of the step at a place go, unless it is the last step, and says how many bytes the row took.
    pub(crate) fn forget(&mut self, place: usize) -> u128
        ensures state { self.new ≡ forgotten.forget place self.old }
        ensures freed { steps_bytes self.new.steps + result ≡ steps_bytes self.old.steps }
    {
        let_row_go(&mut self.steps, &mut self.bytes, place)
    }

    /// Whether the rows of all steps keep to a limit, where those that were let go took so many bytes.
    pub(crate) fn has_room_beside(&self, freed: u128, room: Option<u128>) -> bool
        ensures { (full : Judged) → steps_bytes self.now.steps + freed ≡ steps_bytes full.steps
            → result ≡ rooms.has_room room full }
    {
        match room {
            None => true,
            Some(most) => match self.bytes.checked_add(freed) {
                Some(bytes) => bytes <= most,
                None => false,
            },
        }
    }

    /// Whether the rows of the steps take no more bytes than there is room for: each step counts 64, and each term of
    /// its row 8, or 32 where a number of a sum doesn't fit that. Of equal rows each counts, though they are kept once.
    /// With None there is no limit. It takes no memory.
    pub fn has_room(&self, room: Option<u128>) -> bool
        ensures { result ≡ rooms.has_room room self.now }
    {
        self.has_room_beside(0, room)
    }

    /// The verdict on the steps that have come. It takes no memory.
    pub fn verdict(&self) -> Verdict
        ensures { result ≡ verdict_so_far self.now }
    {
        match self.rejection {
            Some(Rejection { step, cause }) => Verdict::Rejected { step, cause },
            None => verdict_on(&self.steps),
        }
    }
}
