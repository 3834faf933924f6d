//! Rows by their places.
ghost use Rattle.std.specs.Prelude.{◌≡◌, ◌^◌, ◌<◌, length};
ghost use Rattle.std.specs.List.{All};
ghost use Rattle.rows.specs.Rows.{IsRow};
ghost use Rattle.propagate.specs.Numbered.{row_at};

use rows::{RowStore, Term};
use std::marker::Model;

/// The rows that were given: seen as their list.
#[derive(Drop)]
pub(crate) struct NumberedRows<'a> {
    given: &'a RowStore,
}

impl<'a> Model for NumberedRows<'a> {
    ghost use Rattle.std.specs.Prelude.{List};
    ghost use Rattle.rows.specs.Rows.{Row};

    ghost Value = { List Row };

    ghost view = { λ r. r.given.now };
}

impl<'a> NumberedRows<'a> {
    /// The rows of a store.
    pub(crate) fn new(given: &'a RowStore) -> NumberedRows<'a>
        ensures { result ≡ given.now }
    {
        NumberedRows { given }
    }

    /// The number of rows, below 2^32.
    pub(crate) fn len(&self) -> usize
        ensures len { result ≡ length self.now }
        ensures few { result < 2 ^ 32 }
        ensures rows { All IsRow self.now }
    {
        self.given.len()
    }

    /// The terms of the row at place k, from 0.
    pub(crate) fn terms(&self, k: usize) -> &[Term]
        requires { k < length self.now }
        ensures { result.now ≡ (row_at self.now k).terms }
    {
        self.given.terms(k)
    }

    /// The degree of the row at place k, from 0.
    pub(crate) fn degree(&self, k: usize) -> u64
        requires { k < length self.now }
        ensures { result ≡ (row_at self.now k).degree }
    {
        self.given.degree(k)
    }
}
