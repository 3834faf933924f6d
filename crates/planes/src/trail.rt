//! The literals that are true at a point of the search, in the order in which they became so.
ghost use Rattle.std.specs.Prelude.{◌≡◌, min, length, slice_get};
ghost use Rattle.rows.specs.Partials.{opposite_of, value_of};
ghost use Rattle.planes.specs.Trails.{is_false_at, level_of, side_at, standing_of, valued};

use crate::lists::set_at;
use rows::{Lit, Value};
use std::alloc::{AllocError, Global};

/// A moment of the search: just before the entry at a place, or the end of a level.
#[derive(Clone, Copy)]
pub(crate) enum Moment {
    Before { place: usize },
    EndOf { level: usize },
}

/// How a literal stands on a trail. What has a value has the level and the place at which it got it.
#[derive(Clone, Copy)]
pub(crate) enum Standing {
    Free,
    True { level: usize },
    False { level: usize, place: usize },
}

/// A literal that was made true at a level. The row that forced it stands at this place of the stock; a decision has
/// none.
#[derive(Clone, Copy)]
pub(crate) struct Entry {
    pub(crate) lit: Lit,
    pub(crate) level: usize,
    pub(crate) reason: Option<usize>,
}

/// The entries, and what each variable got from them. A variable that it doesn't have reads as free.
#[derive(Drop)]
pub(crate) struct Trail {
    /// The value of each variable, and the place of its entry, from variable 1 on.
    values: Vec<Value>,
    places: Vec<usize>,
    entries: Vec<Entry>,
    /// The places of the decisions.
    decisions: Vec<usize>,
    /// So many entries count in the rows.
    pub(crate) counted: usize,
}

impl Trail {
    /// No entry, for so many variables.
    ///
    /// # Errors
    /// Only where memory runs out.
    pub(crate) fn new(alloc: Global, vars: u32) -> Result<Trail, AllocError> {
        Ok(Trail {
            values: vec![in alloc; Value::Free; vars as usize + 1]?,
            places: vec![in alloc; 0; vars as usize + 1]?,
            entries: Vec::new(alloc),
            decisions: Vec::new(alloc),
            counted: 0,
        })
    }

    /// The number of entries.
    pub(crate) fn len(&self) -> usize
        ensures { result ≡ length self.now.entries.items }
    {
        self.entries.len()
    }

    /// The number of decisions.
    pub(crate) fn level(&self) -> usize
        ensures { result ≡ level_of self.now }
    {
        self.decisions.len()
    }

    /// The entry at a place, if there is one.
    pub(crate) fn entry(&self, place: usize) -> Option<Entry>
        ensures { result ≡ slice_get self.now.entries.items place }
    {
        self.entries.get(place).copied()
    }

    /// The first entry that doesn't count yet, if there is one. It counts from here on.
    pub(crate) fn count_next(&mut self) -> Option<Entry> {
        let next = self.entries.get(self.counted).copied();
        if next.is_some() {
            self.counted = self.counted.saturating_add(1);
        }
        next
    }

    /// The value of a literal.
    pub(crate) fn value(&self, lit: Lit) -> Value
        ensures { result ≡ value_of (valued self.now) lit }
    {
        let value = self
            .values
            .get(lit.var() as usize)
            .copied()
            .unwrap_or(Value::Free);
        if lit.positive() {
            value
        } else {
            opposite(value)
        }
    }

    /// How a literal stands.
    #[tactic(auto, unfolding(crate::specs::Trails::standing_of))]
    pub(crate) fn standing(&self, lit: Lit) -> Standing
        ensures { result ≡ standing_of self.now lit }
    {
        let value = self.value(lit);
        if let Value::Free = value {
            return Standing::Free;
        }
        let place = self.places.get(lit.var() as usize).copied().unwrap_or(0);
        let Some(entry) = self.entry(place) else {
            return Standing::Free;
        };
        let level = entry.level;
        match value {
            Value::True => Standing::True { level },
            Value::False | Value::Free => Standing::False { level, place },
        }
    }

    /// Whether a literal was false at a moment.
    pub(crate) fn was_false(&self, lit: Lit, moment: Moment) -> bool
        ensures { result ≡ is_false_at moment (standing_of self.now lit) }
    {
        let Standing::False { level, place } = self.standing(lit) else {
            return false;
        };
        match moment {
            Moment::Before { place: limit } => place < limit,
            Moment::EndOf { level: end } => level <= end,
        }
    }

    /// Whether a literal is true or false at the end of a level.
    pub(crate) fn side(&self, lit: Lit, end: usize) -> Option<bool>
        ensures { result ≡ side_at end (standing_of self.now lit) }
    {
        match self.standing(lit) {
            Standing::True { level } if level <= end => Some(true),
            Standing::False { level, .. } if level <= end => Some(false),
            _ => None,
        }
    }

    /// Makes a literal true, by the row at a place of the stock or by a decision.
    ///
    /// # Errors
    /// Only where memory runs out.
    pub(crate) fn push(&mut self, lit: Lit, reason: Option<usize>) -> Result<(), AllocError> {
        let at = lit.var() as usize;
        let place = self.entries.len();
        let level = self.decisions.len();
        let value = if lit.positive() {
            Value::True
        } else {
            Value::False
        };
        set_at(&mut self.values, at, value);
        set_at(&mut self.places, at, place);
        self.entries.push(Entry { lit, level, reason })?;
        Ok(())
    }

    /// Decides that a literal is true.
    ///
    /// # Errors
    /// Only where memory runs out.
    pub(crate) fn decide(&mut self, lit: Lit) -> Result<(), AllocError> {
        let place = self.entries.len();
        self.decisions.push(place)?;
        self.push(lit, None)
    }

    /// How many entries there are up to the end of a level.
    pub(crate) fn end_of(&self, level: usize) -> usize {
        let end = self.decisions.get(level).copied();
        end.unwrap_or(self.entries.len())
    }

    /// Takes the last entry off, if there is one. It says whether the entry counted.
    pub(crate) fn pop(&mut self) -> Option<(Lit, bool)>
        ensures { level_of self.new ≡ level_of self.old }
    {
        let entry = self.entries.pop()?;
        set_at(&mut self.values, entry.lit.var() as usize, Value::Free);
        let place = self.entries.len();
        let did_count = place < self.counted;
        self.counted = self.counted.min(place);
        Some((entry.lit, did_count))
    }

    /// Leaves the levels above this one, none of which has an entry any more.
    pub(crate) fn leave(&mut self, level: usize)
        ensures { level_of self.new ≡ min level (level_of self.old) }
    {
        self.decisions.truncate(level);
    }
}

/// The value of the negation.
fn opposite(value: Value) -> Value
    ensures { result ≡ opposite_of value }
{
    match value {
        Value::True => Value::False,
        Value::False => Value::True,
        Value::Free => Value::Free,
    }
}
