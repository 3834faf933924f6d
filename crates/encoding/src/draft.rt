//! Rows that are being written.
ghost use Rattle.std.specs.Prelude.{◌≡◌, ◌≢◌, ◌+◌, ◌^◌, ◌<◌, ◌≤◌, ◌++◌, [], length, IfOk, OnOk};
ghost use Rattle.std.specs.List.{AllPairs};
ghost use Rattle.rows.specs.Cardinality.{exactly};
ghost use Rattle.encoding.specs.Ascending.{AreMeetings, AreSlots};
ghost use Rattle.encoding.specs.Lists.{games_in};

use crate::literals::add_games;
use crate::variables::x_count;
use rows::{Lit, RowStore, Term};
use std::alloc::{AllocError, Global};

/// The rows so far, and room to list what one row is made of.
#[derive(Drop)]
pub(crate) struct Draft {
    pub(crate) rows: RowStore,
    pub(crate) literals: Vec<Lit>,
    pub(crate) terms: Vec<Term>,
}

impl Draft {
    /// No rows.
    pub(crate) fn new(alloc: Global) -> Draft
        ensures { result.rows ≡ [] }
    {
        Draft {
            rows: RowStore::new(alloc),
            literals: Vec::new(alloc),
            terms: Vec::new(alloc),
        }
    }

    /// Some rows, with room for the longest list of a league of n teams: none is longer than that of all its games.
    pub(crate) fn with_room(alloc: Global, rows: RowStore, n: u16) -> Result<Draft, AllocError>
        requires { n ≤ 40 }
        ensures { IfOk result (λ draft. draft.rows ≡ rows) }
    {
        Ok(Draft {
            rows,
            literals: Vec::with_capacity(alloc, x_count(n) as usize)?,
            terms: Vec::with_capacity(alloc, n as usize)?,
        })
    }

    /// Lists the games of some meetings in some slots.
    pub(crate) fn list_games(
        &mut self,
        n: u16,
        meetings: &[(u16, u16)],
        slots: &[u16],
    ) -> Result<(), AllocError>
        requires teams { n ≤ 40 }
        requires meetings { AreMeetings n meetings.now }
        requires slots { AreSlots n slots.now }
        ensures listed { OnOk result (self.new.literals.items ≡ games_in n meetings.now slots.now) }
        ensures variables { OnOk result (AllPairs (λ l m. l.var ≢ m.var) self.new.literals.items) }
        ensures rows { self.new.rows ≡ self.old.rows }
    {
        self.literals.clear();
        add_games(&mut self.literals, n, meetings, slots)?;
        Ok(())
    }

    /// Adds that exactly so many of the listed literals are true.
    pub(crate) fn push_exactly(&mut self, count: u64) -> Result<(), AllocError>
        requires variables { AllPairs (λ l m. l.var ≢ m.var) self.old.literals.items }
        requires room { length self.old.rows + 2 < 2 ^ 32 }
        ensures rows { OnOk result (self.new.rows ≡ self.old.rows ++ exactly count self.old.literals.items) }
        ensures few { OnOk result (length self.new.rows ≤ length self.old.rows + 2) }
    {
        self.rows.push_at_least(&self.literals, count)?;
        self.rows.push_at_most(&self.literals, count)?;
        Ok(())
    }

    /// Adds that exactly so many of the games of some meetings in some slots take place.
    pub(crate) fn push_games_exactly(
        &mut self,
        n: u16,
        meetings: &[(u16, u16)],
        slots: &[u16],
        count: u64,
    ) -> Result<(), AllocError>
        requires teams { n ≤ 40 }
        requires meetings { AreMeetings n meetings.now }
        requires slots { AreSlots n slots.now }
        requires room { length self.old.rows + 2 < 2 ^ 32 }
        ensures rows { OnOk result
            (self.new.rows ≡ self.old.rows ++ exactly count (games_in n meetings.now slots.now)) }
        ensures few { OnOk result (length self.new.rows ≤ length self.old.rows + 2) }
    {
        self.list_games(n, meetings, slots)?;
        self.push_exactly(count)
    }
}
