//! Rows under values that come and go, with the reach of each row kept. This is counter propagation of pseudo-Boolean
//! constraints: a row's slack is its reach less its degree.
ghost use Rattle.std.specs.Prelude.{◌≡◌, ℕ, ◌+◌, ◌-◌, ◌*◌, ◌^◌, ◌<◌, ◌≤◌, length, replicate, true};
ghost use Rattle.std.specs.Prelude.{slice_index_or, slice_set, IfOk, OnOk};
ghost use Rattle.std.specs.List.{All};
ghost use Rattle.rows.specs.Partials as partials;
ghost use Rattle.rows.specs.Partials.{IsQuietRow, as_value, value_of};
ghost use Rattle.rows.specs.Rows.{IsRow};
ghost use Rattle.rows.specs.Values.{valued};
ghost use Rattle.propagate.specs.Links.{IsListed, links_of};
ghost use Rattle.propagate.specs.declared.link.Link.{Link as ALink};
ghost use Rattle.propagate.specs.Numbered.{row_at};
ghost use Rattle.propagate.specs.Tables.{AreCounted};
ghost use Rattle.propagate.specs.Trails.{KnowsVariables};

use crate::link::Link;
use crate::numbered::NumberedRows;
use crate::table::Table;
use rows::{Lit, Partial, RowStore, Term, Value};
use std::alloc::{AllocError, Global};
use std::marker::Model;

/// Rows, and a partial assignment under which the reach of each row is kept. A contract sees the rows, the values, and
/// the links that lead from a literal to the rows in which it stands.
#[derive(Drop)]
pub(crate) struct Counters<'a> {
    rows: NumberedRows<'a>,
    values: Partial,
    table: Table,
}

impl<'a> Model for Counters<'a> {
    ghost use Rattle.propagate.specs.Counters.{SeenCounters};
    ghost use Rattle.propagate.specs.Tables.{IsCounted};

    ghost Value = { SeenCounters };

    ghost view = { λ c. record {
      rows = c.rows;
      values = c.values;
      lists = c.table.lists;
    } };

    ghost invariant = { λ c. IsCounted c.rows c.values c.table };
}

impl<'a> Counters<'a> {
    /// Counters of these rows, with so many variables, all of them free.
    pub(crate) fn new(
        alloc: Global,
        given: &'a RowStore,
        vars: u32,
    ) -> Result<Counters<'a>, AllocError>
        requires { All (KnowsVariables vars) given.now }
        ensures rows { IfOk result (λ c. c.rows ≡ given.now) }
        ensures values { IfOk result (λ c. c.values ≡ replicate vars Value.Free) }
    {
        let values = Partial::new(alloc, vars)?;
        let rows = NumberedRows::new(given);
        let _len = rows.len();
        let mut table = Table::new(alloc, vars, given)?;
        count_all(given.len(), &rows, &values, &mut table)?;
        Ok(Counters {
            rows,
            values,
            table,
        })
    }

    /// The number of rows, below 2^32.
    pub(crate) fn len(&self) -> usize
        ensures len { result ≡ length self.now.rows }
        ensures few { result < 2 ^ 32 }
        ensures proper { All IsRow self.now.rows }
        ensures known { All (KnowsVariables (length self.now.values)) self.now.rows }
    {
        self.rows.len()
    }

    /// The terms of the row at place k, from 0.
    pub(crate) fn terms(&self, k: usize) -> &[Term]
        requires { k < length self.now.rows }
        ensures { result.now ≡ (row_at self.now.rows k).terms }
    {
        self.rows.terms(k)
    }

    /// The degree of the row at place k, from 0.
    pub(crate) fn degree(&self, k: usize) -> u64
        requires { k < length self.now.rows }
        ensures { result ≡ (row_at self.now.rows k).degree }
    {
        self.rows.degree(k)
    }

    /// The value of a literal.
    pub(crate) fn value(&self, lit: Lit) -> Value
        requires { lit.var ≤ length self.now.values }
        ensures { result ≡ value_of (valued self.now.values) lit }
    {
        self.values.value(lit)
    }

    /// The reach of the row at place k.
    pub(crate) fn reach(&self, k: usize) -> u64
        requires { k < length self.now.rows }
        ensures { result ≡ partials.reach (valued self.now.values) (row_at self.now.rows k).terms }
    {
        self.table.reach[k]
    }

    /// Whether the reach of the row at place k is so great that it is surely quiet.
    pub(crate) fn is_enough(&self, k: usize) -> bool
        requires { k < length self.now.rows }
        ensures { result ≡ true → IsQuietRow (valued self.now.values) (row_at self.now.rows k) }
    {
        self.table.enough[k] <= self.table.reach[k]
    }

    /// The rows in which a literal stands.
    pub(crate) fn links(&self, lit: Lit) -> &[Link]
        requires { lit.var ≤ length self.now.values }
        ensures are { result.now ≡ links_of self.now.lists lit }
        ensures listed { IsListed self.now.rows (length self.now.rows) lit result.now }
    {
        self.table.lists.of(lit)
    }

    /// How many of the first `at` links of a literal are left where those at the end are passed over whose rows are surely
    /// quiet.
    pub(crate) fn past_quiet(&self, lit: Lit, at: usize) -> usize
        requires known { lit.var ≤ length self.now.values }
        requires within { at ≤ length (links_of self.now.lists lit) }
        ensures within { result ≤ at }
        ensures quiet { (i : ℕ) (d : ALink) → result ≤ i → i < at → IsQuietRow (valued self.now.values)
            (row_at self.now.rows (slice_index_or (links_of self.now.lists lit) i d).row) }
    {
        let _links = self.links(lit);
        let mut left = at;
        'rows: while left > 0 {
            let link = self.link(lit, left - 1);
            if !self.is_enough(link.row as usize) {
                return left;
            }
            left -= 1;
        }
        0
    }

    /// The row at a place among those in which a literal stands.
    pub(crate) fn link(&self, lit: Lit, at: usize) -> Link
        requires known { lit.var ≤ length self.now.values }
        requires there { at < length (links_of self.now.lists lit) }
        ensures { result ≡ slice_index_or (links_of self.now.lists lit) at result }
    {
        self.table.lists.link(lit, at)
    }

    /// Makes a free literal true.
    pub(crate) fn set(&mut self, lit: Lit)
        requires known { lit.var ≤ length self.old.values }
        requires free { value_of (valued self.old.values) lit ≡ Value.Free }
        ensures { self.new
            ≡ record self.old { values = slice_set self.old.values (lit.var - 1) (as_value lit.positive) } }
    {
        let _var = lit.var();
        self.values.set(lit);
        let falsified = lit.negate();
        let links = self.table.lists.of(falsified);
        let mut at = links.len();
        'rows: while at > 0 {
            let link = self.table.lists.link(falsified, at - 1);
            self.table.reach[link.row as usize] -= u64::from(link.coef);
            at -= 1;
        }
    }

    /// Frees the variable of a literal that is true.
    pub(crate) fn unset(&mut self, lit: Lit)
        requires known { lit.var ≤ length self.old.values }
        requires set { value_of (valued self.old.values) lit ≡ Value.True }
        ensures { self.new ≡ record self.old { values = slice_set self.old.values (lit.var - 1) Value.Free } }
    {
        self.values.unset(lit.var());
        let falsified = lit.negate();
        let links = self.table.lists.of(falsified);
        let mut at = links.len();
        'rows: while at > 0 {
            let link = self.table.lists.link(falsified, at - 1);
            self.table.reach[link.row as usize] += u64::from(link.coef);
            at -= 1;
        }
    }
}

/// Counts so many rows, which are all, under values that are free.
///
/// # Errors
/// Only where memory runs out.
fn count_all(
    count: usize,
    numbered: &NumberedRows,
    values: &Partial,
    table: &mut Table,
) -> Result<(), AllocError>
    requires count { count ≡ length numbered.now }
    requires few { count < 2 ^ 32 }
    requires few_variables { length values.now < 2 ^ 32 }
    requires free { valued values.now ≡ (λ v. Value.Free) }
    requires proper { All IsRow numbered.now }
    requires known { All (KnowsVariables (length values.now)) numbered.now }
    requires slots { length table.old.lists ≡ 2 * length values.now + 2 }
    requires counted { AreCounted numbered.now 0 (valued values.now) table.old }
    ensures slots { OnOk result (length table.new.lists ≡ 2 * length values.now + 2) }
    ensures counted { OnOk result (AreCounted numbered.now count (valued values.now) table.new) }
{
    for k in 0..count {
        table.count(numbered, k, values)?;
    }
    Ok(())
}
