//! The rows in which each literal stands, and the reach of each row. While a row's slack is at least its greatest
//! coefficient, no look at it is needed.
ghost use Rattle.std.specs.Prelude.{◌≡◌, ◌+◌, ◌*◌, ◌^◌, ◌<◌, ◌≤◌, [], length, replicate, IfOk, OnOk};
ghost use Rattle.std.specs.List.{All};
ghost use Rattle.rows.specs.Codes.{code_of};
ghost use Rattle.rows.specs.Rows.{IsRow};
ghost use Rattle.rows.specs.Values.{valued};
ghost use Rattle.rows.specs.declared.partial.Value.TheVariants.{Free};
ghost use Rattle.propagate.specs.Trails.{KnowsVariables};
ghost use Rattle.propagate.specs.Numbered.{row_at};
ghost use Rattle.propagate.specs.Links.{AreLinked};
ghost use Rattle.propagate.specs.Tables.{AreCounted, IsEnough};

use crate::link::Link;
use crate::lists::Lists;
use crate::numbered::NumberedRows;
use rows::{Partial, RowStore, Term};
use std::alloc::{AllocError, Global};

/// For each literal the rows in which it stands, from the first one to the last; for each row its reach, and a reach that
/// is enough: with so much it isn't in conflict and forces no literal.
#[derive(Drop)]
pub(crate) struct Table {
    pub(crate) lists: Lists,
    pub(crate) reach: Vec<u64>,
    pub(crate) enough: Vec<u64>,
}

impl Table {
    /// No row yet, for so many variables, with room for these rows.
    ///
    /// # Errors
    /// Only where memory runs out.
    pub(crate) fn new(alloc: Global, vars: u32, given: &RowStore) -> Result<Table, AllocError>
        ensures lists { IfOk result (λ t. t.lists ≡ replicate (2 * vars + 2) []) }
        ensures reach { IfOk result (λ t. t.reach.items ≡ []) }
        ensures enough { IfOk result (λ t. t.enough.items ≡ []) }
    {
        Ok(Table {
            lists: Lists::new(alloc, vars, given)?,
            reach: Vec::with_capacity(alloc, given.len())?,
            enough: Vec::with_capacity(alloc, given.len())?,
        })
    }

    /// Counts the row at place k, behind those before it.
    ///
    /// # Errors
    /// Only where memory runs out.
    pub(crate) fn count(
        &mut self,
        numbered: &NumberedRows,
        k: usize,
        values: &Partial,
    ) -> Result<(), AllocError>
        requires counted { AreCounted numbered.now k (valued values.now) self.old }
        requires slots { length self.old.lists ≡ 2 * length values.now + 2 }
        requires there { k < length numbered.now }
        requires few { k < 2 ^ 32 }
        requires proper { All IsRow numbered.now }
        requires known { KnowsVariables (length values.now) (row_at numbered.now k) }
        requires few_variables { length values.now < 2 ^ 32 }
        requires free { valued values.now ≡ (λ v. Free) }
        ensures counted { OnOk result (AreCounted numbered.now (k + 1) (valued values.now) self.new) }
        ensures slots { OnOk result (length self.new.lists ≡ length self.old.lists) }
    {
        let terms = numbered.terms(k);
        see_variables(terms);
        let enough = enough_of(terms, numbered.degree(k));
        // A row has fewer than 2^32 variables, and each coefficient is below 2^32.
        let reached = rows::reach(terms, values) as u64;
        self.reach.push(reached)?;
        self.enough.push(enough)?;
        link_terms(&mut self.lists, numbered, k)?;
        Ok(())
    }
}

/// Links the terms of the row at place k, behind those before it.
///
/// # Errors
/// Only where memory runs out.
fn link_terms(lists: &mut Lists, numbered: &NumberedRows, k: usize) -> Result<(), AllocError>
    requires linked { AreLinked numbered.now k lists.old }
    requires there { k < length numbered.now }
    requires few { k < 2 ^ 32 }
    requires proper { All IsRow numbered.now }
    requires slots { All (λ t. code_of t.lit < length lists.old) (row_at numbered.now k).terms }
    ensures linked { OnOk result (AreLinked numbered.now (k + 1) lists.new) }
    ensures slots { OnOk result (length lists.new ≡ length lists.old) }
{
    let terms = numbered.terms(k);
    for term in terms {
        let link = Link {
            row: k as u32,
            coef: term.coef,
        };
        lists.push(term.lit, link)?;
    }
    Ok(())
}

/// Says that variables have numbers from 1.
fn see_variables(terms: &[Term])
    ensures { All (λ t. 1 ≤ t.lit.var) terms.now }
{
    for term in terms {
        let _var = term.lit.var();
    }
}

/// A reach that is enough for a row: its degree and its greatest coefficient.
fn enough_of(terms: &[Term], degree: u64) -> u64
    ensures { IsEnough (record { terms = terms.now; degree = degree }) result }
{
    let mut most = 0;
    for term in terms {
        most = most.max(term.coef);
    }
    degree.saturating_add(u64::from(most))
}
