//! Sets of pairs.
ghost use Rattle.std.specs.Prelude.{◌≡◌, ◌<◌, ◌==◌, ◌&&◌, ◌↔◌, [], length, Contains, IsTrue, OnOk, OnErr, IfOk, Some};
ghost use Rattle.std.specs.Prelude.{nat_lt, not, slice_get};
ghost use Rattle.std.specs.List.{list_all};
ghost use Rattle.std.specs.Bool.{MatchBool};
ghost use Rattle.league.specs.Sets.{IsAscending, with_item, pair_cmp};
ghost use Rattle.league.specs.Instance.{are_meetings, is_meeting};

use crate::ascending::Ascending;
use crate::game::TeamId;
use std::alloc::{AllocError, Global};
use std::marker::Model;

/// A set of pairs, seen (home, away), seen as the list of their numbers, in order of home, then away.
#[derive(Drop)]
pub struct PairSet {
    numbers: Ascending<(u16, u16)>,
}

impl Model for PairSet {
    ghost use Rattle.std.specs.Prelude.{ℕ, List};

    ghost Value = { List (ℕ × ℕ) };

    ghost view = { λ s. s.numbers };
}

impl PairSet {
    /// The empty set. It takes no memory.
    pub fn new(alloc: Global) -> PairSet
        ensures { result ≡ [] }
    {
        PairSet {
            numbers: Ascending::new(alloc),
        }
    }

    /// Adds a pair, and answers whether it is new: false exactly where it was there.
    ///
    /// # Errors
    /// Only where memory runs out.
    pub fn insert(&mut self, pair: (TeamId, TeamId)) -> Result<bool, AllocError>
        ensures ok { OnOk result (self.new ≡ with_item pair_cmp (pair.0.0, pair.1.0) self.old) }
        ensures fresh { IfOk result (λ fresh.
            MatchBool fresh (Contains self.old (pair.0.0, pair.1.0) → ⊥) (Contains self.old (pair.0.0, pair.1.0))) }
        ensures err { OnErr result (self.new ≡ self.old) }
    {
        self.numbers.insert((pair.0.0, pair.1.0))
    }

    /// Whether the pair is in the set.
    pub fn contains(&self, pair: (TeamId, TeamId)) -> bool
        ensures { IsTrue result ↔ Contains self.now (pair.0.0, pair.1.0) }
    {
        self.numbers.contains((pair.0.0, pair.1.0))
    }

    /// The number of pairs.
    pub fn len(&self) -> usize
        ensures len { result ≡ length self.now }
        ensures ascending { IsAscending pair_cmp self.now }
    {
        self.numbers.items().len()
    }

    /// Whether there is no pair.
    pub fn is_empty(&self) -> bool
        ensures { result ≡ (length self.now == 0) }
    {
        self.numbers.items().is_empty()
    }

    /// The pair at place k of the ascending list, from 0.
    pub fn get(&self, k: usize) -> (TeamId, TeamId)
        requires { k < length self.now }
        ensures { slice_get self.now k ≡ Some (result.0.0, result.1.0) }
    {
        let (home, away) = self.numbers.items()[k];
        (TeamId(home), TeamId(away))
    }

    /// The pairs' numbers in ascending order.
    pub fn numbers(&self) -> &[(u16, u16)]
        ensures numbers { result.now ≡ self.now }
        ensures ascending { IsAscending pair_cmp self.now }
    {
        self.numbers.items()
    }

    /// An equal set.
    pub(crate) fn copy(&self) -> Result<PairSet, AllocError>
        ensures { IfOk result (λ copy. copy ≡ self.now) }
    {
        Ok(PairSet {
            numbers: self.numbers.copy()?,
        })
    }

    /// Whether each is a meeting of two different teams of a league of n teams.
    pub(crate) fn are_meetings(&self, n: u16) -> bool
        ensures { result ≡ are_meetings n self.now }
    {
        all_meetings(self.numbers(), n)
    }
}

/// Whether each pair is a meeting of two different teams of a league of n teams.
fn all_meetings(pairs: &[(u16, u16)], n: u16) -> bool
    ensures { result ≡ list_all (is_meeting n) pairs.now }
{
    pairs
        .iter()
        .all(|pair| pair.0 < n && pair.1 < n && pair.0 != pair.1)
}
