//! What variables count in a row that is worked out.
ghost use Rattle.std.specs.Prelude.{◌≡◌, ◌≤◌, nat_lt, pos, slice_index_or};
ghost use Rattle.std.specs.Bool.{OnFalse};
ghost use Rattle.std.specs.List.{fold};
ghost use Rattle.planes.specs.Coefs.{AreAtMost, coef_of, count_divided, counts_divided};
ghost use Rattle.planes.specs.Numbers.{size_of};

use crate::lists::set_at;
use crate::numbers::{as_signed, divided, size};
use rows::Lit;
use std::alloc::{AllocError, Global};

/// A coefficient above this is to be made smaller.
const GREATEST: u64 = 1_000_000_000;

/// What each variable counts, and which of them had a part.
#[derive(Drop)]
pub(crate) struct Counts {
    /// What each variable counts, from variable 1 on: below 0 what its negation counts.
    coefs: Vec<i64>,
    /// Whether each variable is among the touched ones.
    listed: Vec<bool>,
    /// The variables that had a part, as literals.
    pub(crate) touched: Vec<Lit>,
    /// No coefficient is greater.
    greatest: u64,
    ghost at_most: { AreAtMost greatest coefs.items touched.items },
}

impl Counts {
    /// Nothing counts yet, of so many variables.
    ///
    /// # Errors
    /// Only where memory runs out.
    pub(crate) fn new(alloc: Global, vars: u32) -> Result<Counts, AllocError> {
        Ok(Counts {
            coefs: vec![in alloc; 0; vars as usize + 1]?,
            listed: vec![in alloc; false; vars as usize + 1]?,
            touched: Vec::new(alloc),
            greatest: 0,
        })
    }

    /// What a literal counts: 0 or less if its negation counts.
    pub(crate) fn coef(&self, lit: Lit) -> i64
        ensures { result ≡ coef_of self.now.coefs.items lit }
    {
        let count = count_at(&self.coefs, lit);
        if lit.positive() {
            count
        } else {
            count.saturating_neg()
        }
    }

    /// How many variables had a part.
    pub(crate) fn len(&self) -> usize {
        self.touched.len()
    }

    /// The literal that counts of the kth variable that had a part, and what it counts. None where it counts nothing.
    pub(crate) fn term(&self, k: usize) -> Option<(Lit, i64)> {
        let lit = self.touched.get(k).copied()?;
        let coef = self.coef(lit);
        if coef > 0 {
            Some((lit, coef))
        } else if coef < 0 {
            Some((lit.negate(), coef.saturating_neg()))
        } else {
            None
        }
    }

    /// Whether a coefficient may be above the limit.
    #[tactic(auto, using(crate::proofs::CoefLemmas::raised))]
    pub(crate) fn is_too_large(&self) -> bool
        ensures value { result ≡ nat_lt GREATEST self.now.greatest }
        ensures small { OnFalse result (AreAtMost GREATEST self.now.coefs.items self.now.touched.items) }
    {
        self.greatest > GREATEST
    }

    /// The greatest coefficient.
    pub(crate) fn greatest(&self) -> i64 {
        as_signed(greatest(&self.coefs, &self.touched))
    }

    /// Writes what a literal counts, and touches its variable.
    ///
    /// # Errors
    /// Only where memory runs out.
    pub(crate) fn put(&mut self, lit: Lit, count: i64) -> Result<(), AllocError> {
        self.write(lit, count);
        self.list(lit)
    }

    /// Touches a literal's variable.
    fn list(&mut self, lit: Lit) -> Result<(), AllocError>
        requires { size_of (slice_index_or self.old.coefs.items lit.var (pos 0)) ≤ self.old.greatest }
    {
        let at = lit.var() as usize;
        if at < self.listed.len() && !self.listed[at] {
            self.touched.push(lit)?;
            self.listed[at] = true;
        }
        Ok(())
    }

    /// Writes what a literal counts.
    #[tactic(auto, using(crate::proofs::CoefLemmas::raised))]
    pub(crate) fn write(&mut self, lit: Lit, count: i64)
        ensures { size_of (slice_index_or self.new.coefs.items lit.var (pos 0)) ≤ self.new.greatest }
    {
        let signed = if lit.positive() {
            count
        } else {
            count.saturating_neg()
        };
        self.greatest = size(signed).max(self.greatest);
        let at = lit.var() as usize;
        if at < self.coefs.len() {
            self.coefs[at] = signed;
        }
    }

    /// Divides what each touched variable or its negation counts, rounding up.
    pub(crate) fn divide(&mut self, divisor: i64)
        ensures { self.new.coefs.items ≡ fold (counts_divided divisor) self.old.coefs.items self.old.touched.items }
    {
        divide_counts(&mut self.coefs, &self.touched, divisor);
        self.greatest = greatest(&self.coefs, &self.touched);
    }

    /// Makes all 0, and touches none.
    pub(crate) fn clear(&mut self) {
        clear_touched(&mut self.coefs, &mut self.listed, &self.touched);
        self.touched.clear();
        self.greatest = 0;
    }
}

/// What the variable of a literal counts.
fn count_at(coefs: &[i64], lit: Lit) -> i64
    ensures { result ≡ slice_index_or coefs.now lit.var (pos 0) }
{
    coefs.get(lit.var() as usize).copied().unwrap_or(0)
}

/// How far from 0 it is, in 63 bits.
fn size_at(coefs: &[i64], lit: Lit) -> u64
    ensures { result ≡ size_of (slice_index_or coefs.now lit.var (pos 0)) }
{
    size(count_at(coefs, lit))
}

/// The greatest number that one of these variables or its negation counts.
fn greatest(coefs: &[i64], touched: &[Lit]) -> u64
    ensures { AreAtMost result coefs.now touched.now }
{
    let mut most: u64 = 0;
    for lit in touched {
        most = size_at(coefs, *lit).max(most);
    }
    most
}

/// Divides what these variables or their negations count, rounding up.
fn divide_counts(coefs: &mut [i64], touched: &[Lit], divisor: i64)
    ensures { coefs.new ≡ fold (counts_divided divisor) coefs.old touched.now }
{
    for lit in touched {
        divide_count(coefs, *lit, divisor);
    }
}

/// Divides what the variable of a literal or its negation counts, rounding up.
fn divide_count(coefs: &mut [i64], lit: Lit, divisor: i64)
    ensures { coefs.new ≡ counts_divided divisor coefs.old lit }
{
    let at = lit.var() as usize;
    if at < coefs.len() {
        coefs[at] = divided_count(coefs[at], divisor);
    }
}

/// What a variable or its negation counts, divided, rounding up.
fn divided_count(count: i64, divisor: i64) -> i64
    ensures { result ≡ count_divided divisor count }
{
    if count < 0 {
        divided(count.saturating_neg(), divisor).saturating_neg()
    } else {
        divided(count, divisor)
    }
}

/// Makes all that these variables count 0, and takes them off the list.
fn clear_touched(coefs: &mut [i64], listed: &mut [bool], touched: &[Lit]) {
    for lit in touched {
        let at = lit.var() as usize;
        set_at(coefs, at, 0);
        set_at(listed, at, false);
    }
}
