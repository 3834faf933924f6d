//! The trail. It is kept as in MiniSat: one list of literals, each with its level and its reason.
ghost use Rattle.std.specs.Prelude.{◌≡◌, ◌≢◌, ◌+◌, ◌-◌, ◌<◌, ◌≤◌, ◌++◌, ◌==◌, [], ◌∷◌, length, Some, None};
ghost use Rattle.std.specs.Prelude.{slice_get, slice_index_or, IfSome, IfOk, OnOk, OnErr};
ghost use Rattle.std.specs.List.{All, AllPairs};
ghost use Rattle.rows.specs.Cardinality.{at_least};
ghost use Rattle.rows.specs.Partials.{IsQuiet, value_of};
ghost use Rattle.rows.specs.Rows.{IsRow};
ghost use Rattle.propagate.specs.declared.entry.Entry.{Entry as AnEntry};
ghost use Rattle.propagate.specs.Trails.{AreLawful, IsBackTo, IsGrown, IsQuietBelow, IsQuietRowBelow, IsSettled};
ghost use Rattle.propagate.specs.Trails.{KnowsVariables, level_of, values_of};

use crate::entry::{Conflict, Entry};
use crate::path::Path;
use crate::settle::{Looked, settle};
use crate::watches::Watches;
use rows::{Lit, RowStore, Term, Value};
use std::alloc::{AllocError, Global};
use std::marker::Model;

/// Rows that are borrowed, clauses that are added, and the literals that were made true, in their order.
///
/// Rows have the numbers from 1 on, and added clauses the next ones. A contract sees the number of variables, the rows
/// with the clauses behind them, and the entries. Only `new` and `add` take memory.
pub struct Trail<'a> {
    path: Path<'a>,
    watches: Watches,
    looked: Looked,
}

impl Drop for Trail<'_> {
    fn drop(self) {
        let Trail {
            path: _,
            watches: _,
            looked: _,
        } = self;
    }
}

impl<'a> Model for Trail<'a> {
    ghost use Rattle.propagate.specs.Trails.{SeenTrail};
    ghost use Rattle.propagate.specs.Looks.{IsTrail};

    ghost Value = { SeenTrail };

    ghost view = { λ t. record { vars = t.path.vars; rows = t.path.rows; entries = t.path.entries } };

    ghost invariant = { λ t. IsTrail t.path t.watches t.looked };
}

impl<'a> Trail<'a> {
    /// A trail over these rows with so many variables, none of which has a value.
    ///
    /// # Errors
    /// Only where memory runs out.
    pub fn new(alloc: Global, rows: &'a RowStore, vars: u32) -> Result<Trail<'a>, AllocError>
        requires { All (KnowsVariables vars) rows.now }
        ensures { IfOk result (λ trail. trail ≡ record { vars = vars; rows = rows.now; entries = [] }) }
    {
        let watches = Watches::new(alloc, vars, rows.len())?;
        let path = Path::new(alloc, rows, vars)?;
        let looked = Looked {
            entries: 0,
            rows: 0,
        };
        Ok(Trail {
            path,
            watches,
            looked,
        })
    }

    /// Makes literals true that rows or clauses force, until none forces one: then the answer is None. Or one of them
    /// is in conflict: then it is named, at each call again.
    pub fn run(&mut self) -> Option<Conflict>
        ensures vars { self.new.vars ≡ self.old.vars }
        ensures rows { self.new.rows ≡ self.old.rows }
        ensures grown { IsGrown self.old.entries self.new.entries }
        ensures found { IsSettled self.new.rows (values_of self.new.entries) result }
        ensures below { IsQuietBelow self.old.rows self.old.entries → IsQuietBelow self.new.rows self.new.entries }
    {
        settle(&mut self.path, &mut self.watches, &mut self.looked)
    }

    /// Makes a free literal true that nothing forces: it begins the next level.
    pub fn decide(&mut self, lit: Lit)
        requires known { lit.var ≤ self.old.vars }
        requires free { value_of (values_of self.old.entries) lit ≡ Value.Free }
        requires quiet { IsQuiet (values_of self.old.entries) self.old.rows }
        ensures vars { self.new.vars ≡ self.old.vars }
        ensures rows { self.new.rows ≡ self.old.rows }
        ensures entries { self.new.entries
            ≡ self.old.entries ++ record { lit = lit; level = level_of self.old.entries + 1; reason = None } ∷ [] }
        ensures below { IsQuietBelow self.old.rows self.old.entries → IsQuietBelow self.new.rows self.new.entries }
    {
        // The rows are quiet, so this adds no literal, but leaves none that waits to be looked at.
        let _conflict = settle(&mut self.path, &mut self.watches, &mut self.looked);
        self.path.decide(lit);
    }

    /// Takes off all literals of later levels than this one.
    pub fn back_to(&mut self, level: u32)
        requires { level ≤ level_of self.old.entries }
        ensures vars { self.new.vars ≡ self.old.vars }
        ensures rows { self.new.rows ≡ self.old.rows }
        ensures back { IsBackTo level self.old.entries self.new.entries }
        ensures below { IsQuietBelow self.old.rows self.old.entries → IsQuietBelow self.new.rows self.new.entries }

        // Where a level was taken off the rows are quiet at the one that is left, if they were before each decision.
        ensures quiet { IsQuietBelow self.old.rows self.old.entries → level < level_of self.old.entries
            → IsQuiet (values_of self.new.entries) self.new.rows }
    {
        if level >= self.path.level() {
            return;
        }
        self.path.back_to(level);
        self.looked = Looked {
            entries: self.path.len(),
            rows: self.watches.hung,
        };
    }

    /// Adds a clause behind the rows, and gives its number. No literal is made true.
    ///
    /// # Errors
    /// Only where memory runs out: then nothing changes.
    pub fn add(&mut self, clause: &[Lit]) -> Result<u64, AllocError>
        requires known { All (λ l. l.var ≤ self.old.vars) clause.now }
        requires variables { AllPairs (λ l m. l.var ≢ m.var) clause.now }
        ensures ok { OnOk result (self.new ≡ record self.old { rows = self.old.rows ++ at_least 1 clause.now ∷ [] }) }
        ensures number { IfOk result (λ number. number ≡ length self.old.rows + 1) }
        ensures err { OnErr result (self.new ≡ self.old) }

        // Quiet below it stays where the clause is quiet there too.
        ensures below { OnOk result (IsQuietBelow self.old.rows self.old.entries
            → IsQuietRowBelow (at_least 1 clause.now) self.old.entries → IsQuietBelow self.new.rows self.new.entries) }
    {
        let count = self.path.row_count();
        self.watches.reserve(count)?;
        self.path.add(clause)?;
        Ok(count as u64 + 1)
    }

    /// The value of a literal.
    pub fn value(&self, lit: Lit) -> Value
        requires { lit.var ≤ self.now.vars }
        ensures { result ≡ value_of (values_of self.now.entries) lit }
    {
        self.path.value(lit)
    }

    /// The present level: the number of decisions.
    pub fn level(&self) -> u32
        ensures { result ≡ level_of self.now.entries }
    {
        self.path.level()
    }

    /// The number of literals that were made true, at most that of the variables.
    pub fn len(&self) -> usize
        ensures len { result ≡ length self.now.entries }
        ensures at_most { result ≤ self.now.vars }

        // What holds of every trail.
        ensures lawful { AreLawful self.now.rows self.now.vars self.now.entries }
        ensures rows { All IsRow self.now.rows }
        ensures known { All (KnowsVariables self.now.vars) self.now.rows }
    {
        self.path.len()
    }

    /// Whether no literal was made true.
    pub fn is_empty(&self) -> bool
        ensures { result ≡ (length self.now.entries == 0) }
    {
        self.path.len() == 0
    }

    /// The literal at place k, from 0, in the order in which they were made true, with its level and its reason.
    pub fn entry(&self, k: usize) -> Entry
        requires { k < length self.now.entries }
        ensures { slice_get self.now.entries k ≡ Some result }
    {
        self.path.entry(k)
    }

    /// The place, from 0, at which a literal that has a value, or its negation, was made true.
    pub fn place(&self, lit: Lit) -> usize
        requires known { lit.var ≤ self.now.vars }
        requires set { value_of (values_of self.now.entries) lit ≢ Value.Free }
        ensures within { result < length self.now.entries }
        ensures there { (d : AnEntry) → (slice_index_or self.now.entries result d).lit.var ≡ lit.var }
    {
        self.path.place(lit)
    }

    /// The terms of the row or clause with a number, from 1. An added clause stands as its literals, each with
    /// coefficient 1.
    pub fn terms(&self, number: u64) -> &[Term]
        requires from_one { 1 ≤ number }
        requires there { number ≤ length self.now.rows }
        ensures { IfSome (slice_get self.now.rows (number - 1)) (λ row. result.now ≡ row.terms) }
    {
        self.path.terms(number as usize - 1)
    }
}
