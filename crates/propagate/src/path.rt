//! The entries of a trail, over rows under the values that they give.
ghost use Rattle.std.specs.Prelude.{◌≡◌, ◌≢◌, ℕ, ◌+◌, ◌-◌, ◌^◌, ◌<◌, ◌≤◌, ◌++◌, [], ◌∷◌, length, take, true, Some, None};
ghost use Rattle.std.specs.Prelude.{slice_get, slice_index_or, IfOk, OnOk, OnErr};
ghost use Rattle.std.specs.List.{All, AllPairs};
ghost use Rattle.rows.specs.Cardinality.{at_least};
ghost use Rattle.rows.specs.Partials as partials;
ghost use Rattle.rows.specs.Partials.{IsQuietRow, value_of};
ghost use Rattle.rows.specs.Literals.{Literal};
ghost use Rattle.propagate.specs.declared.entry.Entry.{Entry as AnEntry};
ghost use Rattle.propagate.specs.Links.{IsListed, links_of};
ghost use Rattle.propagate.specs.declared.link.Link.{Link as ALink};
ghost use Rattle.propagate.specs.Numbered.{row_at};
ghost use Rattle.propagate.specs.Trails.{IsBackTo, KnowsVariables, level_of, values_of};

use crate::clauses::Clauses;
use crate::counters::Counters;
use crate::entry::Entry;
use crate::link::Link;
use rows::{Lit, RowStore, Term, Value};
use std::alloc::{AllocError, Global};
use std::marker::Model;

/// The entries, the rows under the values that they give, and the added clauses: seen as the number of variables and of
/// the rows that were given, the rows and clauses, the links to the rows, and the entries.
#[derive(Drop)]
pub(crate) struct Path<'a> {
    /// The rows that were given.
    counters: Counters<'a>,
    /// The added clauses.
    added: Clauses,
    entries: Vec<Entry>,
    /// For each variable that has a value the place of its entry.
    places: Vec<usize>,
}

impl<'a> Model for Path<'a> {
    ghost use Rattle.std.specs.Prelude.{length, ◌++◌};
    ghost use Rattle.propagate.specs.Paths.{IsPath, SeenPath};
    ghost use Rattle.std.specs.Vec.{vec_capacity};

    ghost Value = { SeenPath };

    ghost view = { λ p. record {
      vars = length p.counters.values;
      given = length p.counters.rows;
      rows = p.counters.rows ++ p.added;
      lists = p.counters.lists;
      entries = p.entries.items;
    } };

    ghost invariant = { λ p. IsPath p.counters.values p.entries.items p.places.items (vec_capacity p.entries) };
}

impl<'a> Path<'a> {
    /// A path without entries over these rows, with so many variables.
    pub(crate) fn new(alloc: Global, given: &'a RowStore, vars: u32) -> Result<Path<'a>, AllocError>
        requires { All (KnowsVariables vars) given.now }
        ensures vars { IfOk result (λ path. path.vars ≡ vars) }
        ensures given { IfOk result (λ path. path.given ≡ length given.now) }
        ensures rows { IfOk result (λ path. path.rows ≡ given.now) }
        ensures entries { IfOk result (λ path. path.entries ≡ []) }
    {
        Ok(Path {
            entries: Vec::with_capacity(alloc, vars as usize)?,
            places: vec![in alloc; 0; vars as usize]?,
            added: Clauses::new(alloc),
            counters: Counters::new(alloc, given, vars)?,
        })
    }

    /// The number of rows and clauses.
    pub(crate) fn row_count(&self) -> usize
        ensures len { result ≡ length self.now.rows }
        ensures few { result + 1 < 2 ^ 64 }
    {
        self.counters.len() + self.added.len()
    }

    /// The number of rows that were given, below 2^32.
    pub(crate) fn given(&self) -> usize
        ensures given { result ≡ self.now.given }
        ensures few { result < 2 ^ 32 }
        ensures within { self.now.given ≤ length self.now.rows }
    {
        self.counters.len()
    }

    /// The terms of the row or clause at place k, from 0.
    pub(crate) fn terms(&self, k: usize) -> &[Term]
        requires { k < length self.now.rows }
        ensures { result.now ≡ (row_at self.now.rows k).terms }
    {
        let given = self.counters.len();
        if k < given {
            self.counters.terms(k)
        } else {
            self.added.terms(k - given)
        }
    }

    /// The degree of the row at place k, from 0.
    pub(crate) fn degree(&self, k: usize) -> u64
        requires { k < self.now.given }
        ensures { result ≡ (row_at self.now.rows k).degree }
    {
        self.counters.degree(k)
    }

    /// The rows in which a literal stands.
    pub(crate) fn links(&self, lit: Lit) -> &[Link]
        requires { lit.var ≤ self.now.vars }
        ensures are { result.now ≡ links_of self.now.lists lit }
        ensures listed { IsListed self.now.rows self.now.given lit result.now }
    {
        self.counters.links(lit)
    }

    /// How many of the first `at` links of a literal are left where those at the end are passed over whose rows are surely
    /// quiet.
    pub(crate) fn past_quiet(&self, lit: Lit, at: usize) -> usize
        requires known { lit.var ≤ self.now.vars }
        requires within { at ≤ length (links_of self.now.lists lit) }
        ensures within { result ≤ at }
        ensures quiet { (i : ℕ) (d : ALink) → result ≤ i → i < at → IsQuietRow (values_of self.now.entries)
            (row_at self.now.rows (slice_index_or (links_of self.now.lists lit) i d).row) }
    {
        let _links = self.counters.links(lit);
        self.counters.past_quiet(lit, at)
    }

    /// The row at a place among those in which a literal stands.
    pub(crate) fn link(&self, lit: Lit, at: usize) -> Link
        requires known { lit.var ≤ self.now.vars }
        requires there { at < length (links_of self.now.lists lit) }
        ensures { result ≡ slice_index_or (links_of self.now.lists lit) at result }
    {
        self.counters.link(lit, at)
    }

    /// The reach of the row at place k.
    pub(crate) fn reach(&self, k: usize) -> u64
        requires { k < self.now.given }
        ensures { result ≡ partials.reach (values_of self.now.entries) (row_at self.now.rows k).terms }
    {
        self.counters.reach(k)
    }

    /// Whether the reach of the row at place k is so great that it is surely quiet.
    pub(crate) fn is_enough(&self, k: usize) -> bool
        requires { k < self.now.given }
        ensures { result ≡ true → IsQuietRow (values_of self.now.entries) (row_at self.now.rows k) }
    {
        self.counters.is_enough(k)
    }

    /// The number of entries, at most that of the variables.
    pub(crate) fn len(&self) -> usize
        ensures len { result ≡ length self.now.entries }
        ensures at_most { result ≤ self.now.vars }
        ensures few { self.now.vars < 2 ^ 32 }

        // A free literal leaves room for an entry.
        ensures room { (l : Literal) → 1 ≤ l.var → l.var ≤ self.now.vars
            → value_of (values_of self.now.entries) l ≡ Value.Free → length self.now.entries < self.now.vars }
    {
        self.entries.len()
    }

    /// The entry at place k, from 0.
    pub(crate) fn entry(&self, k: usize) -> Entry
        requires { k < length self.now.entries }
        ensures { slice_get self.now.entries k ≡ Some result }
    {
        self.entries[k]
    }

    /// The number of decisions.
    pub(crate) fn level(&self) -> u32
        ensures { result ≡ level_of self.now.entries }
    {
        let len = self.entries.len();
        if len == 0 {
            0
        } else {
            self.entries[len - 1].level
        }
    }

    /// The value of a literal.
    pub(crate) fn value(&self, lit: Lit) -> Value
        requires { lit.var ≤ self.now.vars }
        ensures { result ≡ value_of (values_of self.now.entries) lit }
    {
        self.counters.value(lit)
    }

    /// The place of the entry that gave a literal its value.
    pub(crate) fn place(&self, lit: Lit) -> usize
        requires known { lit.var ≤ self.now.vars }
        requires set { value_of (values_of self.now.entries) lit ≢ Value.Free }
        ensures within { result < length self.now.entries }
        ensures there { (d : AnEntry) → (slice_index_or self.now.entries result d).lit.var ≡ lit.var }
    {
        self.places[lit.var() as usize - 1]
    }

    /// Makes a free literal true, at the present level, for a reason.
    pub(crate) fn force(&mut self, lit: Lit, reason: u64)
        requires known { lit.var ≤ self.old.vars }
        requires free { value_of (values_of self.old.entries) lit ≡ Value.Free }
        ensures forced { self.new ≡ record self.old {
          entries
              = self.old.entries ++ record { lit = lit; level = level_of self.old.entries; reason = Some reason } ∷ [];
        } }
        ensures from_one { 1 ≤ lit.var }
    {
        let level = self.level();
        self.set(Entry {
            lit,
            level,
            reason: Some(reason),
        });
    }

    /// Makes a free literal true that no row forces, at the next level.
    pub(crate) fn decide(&mut self, lit: Lit)
        requires known { lit.var ≤ self.old.vars }
        requires free { value_of (values_of self.old.entries) lit ≡ Value.Free }
        ensures decided { self.new ≡ record self.old {
          entries
              = self.old.entries ++ record { lit = lit; level = level_of self.old.entries + 1; reason = None } ∷ [];
        } }
        ensures from_one { 1 ≤ lit.var }
    {
        // Both say why there is a next level: a variable is at least 1, and a free one leaves room.
        let _var = lit.var();
        let _len = self.len();
        let level = self.level();
        self.set(Entry {
            lit,
            level: level + 1,
            reason: None,
        });
    }

    /// Adds an entry.
    fn set(&mut self, entry: Entry)
        requires known { entry.lit.var ≤ self.old.vars }
        requires free { value_of (values_of self.old.entries) entry.lit ≡ Value.Free }
        requires level { entry.level ≡ level_of (self.old.entries ++ entry ∷ []) }
        ensures set { self.new ≡ record self.old { entries = self.old.entries ++ entry ∷ [] } }
        ensures from_one { 1 ≤ entry.lit.var }
    {
        self.counters.set(entry.lit);
        self.places[entry.lit.var() as usize - 1] = self.entries.len();
        let pushed = self.entries.push(entry);
        pushed.unwrap();
    }

    /// Takes the last entry off.
    fn unset(&mut self)
        requires { 1 ≤ length self.old.entries }
        ensures { self.new ≡ record self.old { entries = take (length self.old.entries - 1) self.old.entries } }
    {
        let last = self.entries.len() - 1;
        let lit = self.entries[last].lit;
        self.entries.truncate(last);
        self.counters.unset(lit);
    }

    /// Takes off the entries of later levels than this one.
    pub(crate) fn back_to(&mut self, level: u32)
        requires { level ≤ level_of self.old.entries }
        ensures same { self.new ≡ record self.old { entries = self.new.entries } }
        ensures back { IsBackTo level self.old.entries self.new.entries }
    {
        'levels: while self.level() > level {
            self.unset();
        }
    }

    /// Adds a clause behind the rows.
    ///
    /// # Errors
    /// Only where memory runs out: then nothing changes.
    pub(crate) fn add(&mut self, clause: &[Lit]) -> Result<(), AllocError>
        ensures rows { OnOk result (self.new.rows ≡ self.old.rows ++ at_least 1 clause.now ∷ []) }
        ensures same { self.new ≡ record self.old { rows = self.new.rows } }
        ensures err { OnErr result (self.new ≡ self.old) }
    {
        self.added.add(clause)
    }
}
