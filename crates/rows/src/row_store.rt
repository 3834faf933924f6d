//! Rows, end to end in one list of terms.
ghost use Rattle.std.specs.Prelude.{◌≡◌, ◌≢◌, ◌+◌, ◌-◌, ◌^◌, ◌<◌, ◌≤◌, ◌++◌, ◌==◌, [], ◌∷◌, length, map, take, drop};
ghost use Rattle.std.specs.Prelude.{IfSome, IfOk, OnOk, OnErr, slice_get, vec_len};
ghost use Rattle.std.specs.List.{All, AllPairs};
ghost use Rattle.rows.specs.Cardinality.{at_least, at_most, unit};
ghost use Rattle.rows.specs.Literals.{negate};
ghost use Rattle.rows.specs.Rows.{IsRow};
ghost use Rattle.rows.specs.Flat as flat;
ghost use Rattle.rows.specs.Flat.{AreEnds};

use crate::lit::{Lit, Term};
use std::alloc::{AllocError, Global};
use std::marker::Model;

/// Where a row's terms end, and its degree.
#[derive(Clone, Copy)]
struct End {
    end: usize,
    degree: u64,
}

/// Fewer than 2^32 rows, seen as their list. A term takes 8 bytes, a row 16 bytes beside its terms.
#[derive(Drop)]
pub struct RowStore {
    terms: Vec<Term>,
    ends: Vec<End>,
}

impl Model for RowStore {
    ghost use Rattle.std.specs.Prelude.{List};
    ghost use Rattle.rows.specs.Rows.{Row};

    ghost Value = { List Row };

    ghost use Rattle.rows.specs.Flat.{AreKept, cut};

    ghost view = { λ s. cut 0 s.terms.items s.ends.items };

    ghost invariant = { λ s. AreKept s.terms.items s.ends.items };
}

impl RowStore {
    /// No row. It takes no memory.
    pub fn new(alloc: Global) -> RowStore
        ensures { result ≡ [] }
    {
        RowStore {
            terms: Vec::new(alloc),
            ends: Vec::new(alloc),
        }
    }

    /// No row, with room for so many rows and terms in all.
    ///
    /// # Errors
    /// Only where memory runs out.
    pub fn with_room(alloc: Global, rows: usize, terms: usize) -> Result<RowStore, AllocError>
        ensures { IfOk result (λ store. store ≡ []) }
    {
        Ok(RowStore {
            terms: Vec::with_capacity(alloc, terms)?,
            ends: Vec::with_capacity(alloc, rows)?,
        })
    }

    /// Adds a row at the end: coefficients from 1, and each variable once. The store has fewer than 2^32 - 1 rows
    /// before.
    ///
    /// # Errors
    /// Only where memory runs out.
    pub fn push(&mut self, terms: &[Term], degree: u64) -> Result<(), AllocError>
        requires row { IsRow (record { terms = terms.now; degree = degree }) }
        requires room { length self.old < 2 ^ 32 - 1 }
        ensures ok { OnOk result (self.new ≡ self.old ++ record { terms = terms.now; degree = degree } ∷ []) }
        ensures err { OnErr result (self.new ≡ self.old) }
    {
        // The ends first, so that the step after the terms can't fail.
        self.ends.reserve(1)?;
        self.terms.extend_from_slice(terms)?;
        let end = self.terms.len();
        self.ends.push(End { end, degree })?;
        Ok(())
    }

    /// Adds the row "at least `degree` of these literals are true" at the end.
    ///
    /// # Errors
    /// Only where memory runs out.
    pub fn push_at_least(&mut self, literals: &[Lit], degree: u64) -> Result<(), AllocError>
        requires variables { AllPairs (λ l m. l.var ≢ m.var) literals.now }
        requires room { length self.old < 2 ^ 32 - 1 }
        ensures ok { OnOk result (self.new ≡ self.old ++ at_least degree literals.now ∷ []) }
        ensures err { OnErr result (self.new ≡ self.old) }
    {
        self.ends.reserve(1)?;
        add_units(&mut self.terms, literals)?;
        let end = self.terms.len();
        self.ends.push(End { end, degree })?;
        Ok(())
    }

    /// Adds the row "at most `bound` of these literals are true" at the end. It says that at least all but `bound` of
    /// them are false. If there are no more than `bound` literals, its degree is 0.
    ///
    /// # Errors
    /// Only where memory runs out.
    pub fn push_at_most(&mut self, literals: &[Lit], bound: u64) -> Result<(), AllocError>
        requires variables { AllPairs (λ l m. l.var ≢ m.var) literals.now }
        requires room { length self.old < 2 ^ 32 - 1 }
        ensures ok { OnOk result (self.new ≡ self.old ++ at_most bound literals.now ∷ []) }
        ensures err { OnErr result (self.new ≡ self.old) }
    {
        self.ends.reserve(1)?;
        add_negated(&mut self.terms, literals)?;
        let end = self.terms.len();
        let degree = (literals.len() as u64).saturating_sub(bound);
        self.ends.push(End { end, degree })?;
        Ok(())
    }

    /// The number of rows, below 2^32.
    pub fn len(&self) -> usize
        ensures len { result ≡ length self.now }
        ensures few { result < 2 ^ 32 }
        ensures rows { All IsRow self.now }
    {
        self.ends.len()
    }

    /// Whether there is no row.
    pub fn is_empty(&self) -> bool
        ensures { result ≡ (length self.now == 0) }
    {
        self.ends.is_empty()
    }

    /// The terms of the row at place k, from 0.
    pub fn terms(&self, k: usize) -> &[Term]
        requires { k < length self.now }
        ensures { IfSome (slice_get self.now k) (λ row. result.now ≡ row.terms) }
    {
        terms_at(&self.terms, &self.ends, k)
    }

    /// The degree of the row at place k, from 0.
    pub fn degree(&self, k: usize) -> u64
        requires { k < length self.now }
        ensures { IfSome (slice_get self.now k) (λ row. result ≡ row.degree) }
    {
        self.ends[k].degree
    }
}

/// Adds these literals, each with coefficient 1, or where memory runs out nothing.
fn add_units(terms: &mut Vec<Term>, literals: &[Lit]) -> Result<(), AllocError>
    ensures ok { OnOk result (terms.new.items ≡ terms.old.items ++ map unit literals.now) }
    ensures err { OnErr result (terms.new.items ≡ terms.old.items) }
{
    terms.reserve(literals.len())?;
    for literal in literals {
        terms.push(Term {
            coef: 1,
            lit: *literal,
        })?;
    }
    Ok(())
}

/// Adds the negations of these literals, each with coefficient 1, or where memory runs out nothing.
fn add_negated(terms: &mut Vec<Term>, literals: &[Lit]) -> Result<(), AllocError>
    ensures ok { OnOk result (terms.new.items ≡ terms.old.items ++ map unit (map negate literals.now)) }
    ensures err { OnErr result (terms.new.items ≡ terms.old.items) }
{
    terms.reserve(literals.len())?;
    for literal in literals {
        terms.push(Term {
            coef: 1,
            lit: literal.negate(),
        })?;
    }
    Ok(())
}

/// Where the row at place k begins.
fn start_of(ends: &[End], k: usize) -> usize
    requires { k < length ends.now }
    ensures { result ≡ flat.start_of 0 ends.now k }
{
    if k == 0 { 0 } else { ends[k - 1].end }
}

/// The terms from one place to another.
fn part(terms: &[Term], start: usize, end: usize) -> &[Term]
    requires order { start ≤ end }
    requires within { end ≤ length terms.now }
    ensures { result.now ≡ take (end - start) (drop start terms.now) }
{
    &terms[start..end]
}

/// The terms of the row at place k.
fn terms_at<'a>(terms: &'a [Term], ends: &[End], k: usize) -> &'a [Term]
    requires ended { AreEnds 0 ends.now (length terms.now) }
    requires there { k < length ends.now }
    ensures { IfSome (slice_get (flat.cut 0 terms.now ends.now) k) (λ row. result.now ≡ row.terms) }
{
    part(terms, start_of(ends, k), ends[k].end)
}
