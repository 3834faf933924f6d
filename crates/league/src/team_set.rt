//! Sets of teams.
ghost use Rattle.std.specs.Prelude.{◌≡◌, ◌<◌, ◌==◌, ◌↔◌, [], length, Contains, IsTrue, OnOk, OnErr, IfOk, Some};
ghost use Rattle.std.specs.Prelude.{nat_lt, slice_get};
ghost use Rattle.std.specs.Bool.{MatchBool};
ghost use Rattle.std.specs.List.{list_all};
ghost use Rattle.std.specs.Ordering.{nat_cmp};
ghost use Rattle.league.specs.Sets.{IsAscending, with_item};
ghost use Rattle.league.specs.Instance.{are_teams};

use crate::ascending::Ascending;
use crate::game::TeamId;
use std::alloc::{AllocError, Global};
use std::marker::Model;

/// A set of teams, seen as the ascending list of their numbers.
#[derive(Drop)]
pub struct TeamSet {
    numbers: Ascending<u16>,
}

impl Model for TeamSet {
    ghost use Rattle.std.specs.Prelude.{ℕ, List};

    ghost Value = { List ℕ };

    ghost view = { λ s. s.numbers };
}

impl TeamSet {
    /// The empty set. It takes no memory.
    pub fn new(alloc: Global) -> TeamSet
        ensures { result ≡ [] }
    {
        TeamSet {
            numbers: Ascending::new(alloc),
        }
    }

    /// Adds a team, and answers whether it is new: false exactly where it was there.
    ///
    /// # Errors
    /// Only where memory runs out.
    pub fn insert(&mut self, team: TeamId) -> Result<bool, AllocError>
        ensures ok { OnOk result (self.new ≡ with_item nat_cmp team.0 self.old) }
        ensures fresh { IfOk result (λ fresh.
            MatchBool fresh (Contains self.old team.0 → ⊥) (Contains self.old team.0)) }
        ensures err { OnErr result (self.new ≡ self.old) }
    {
        self.numbers.insert(team.0)
    }

    /// Whether the team is in the set.
    pub fn contains(&self, team: TeamId) -> bool
        ensures { IsTrue result ↔ Contains self.now team.0 }
    {
        self.numbers.contains(team.0)
    }

    /// The number of teams.
    pub fn len(&self) -> usize
        ensures len { result ≡ length self.now }
        ensures ascending { IsAscending nat_cmp self.now }
    {
        self.numbers.items().len()
    }

    /// Whether there is no team.
    pub fn is_empty(&self) -> bool
        ensures { result ≡ (length self.now == 0) }
    {
        self.numbers.items().is_empty()
    }

    /// The team at place k of the ascending list, from 0.
    pub fn get(&self, k: usize) -> TeamId
        requires { k < length self.now }
        ensures { slice_get self.now k ≡ Some result.0 }
    {
        TeamId(self.numbers.items()[k])
    }

    /// The teams' numbers in ascending order.
    pub fn numbers(&self) -> &[u16]
        ensures numbers { result.now ≡ self.now }
        ensures ascending { IsAscending nat_cmp self.now }
    {
        self.numbers.items()
    }

    /// An equal set.
    pub(crate) fn copy(&self) -> Result<TeamSet, AllocError>
        ensures { IfOk result (λ copy. copy ≡ self.now) }
    {
        Ok(TeamSet {
            numbers: self.numbers.copy()?,
        })
    }

    /// Whether these are teams of a league of n teams. That they ascend needs no test.
    pub(crate) fn are_below(&self, n: u16) -> bool
        ensures { result ≡ are_teams n self.now }
    {
        all_below(self.numbers(), n)
    }
}

/// Whether each number is below n.
fn all_below(numbers: &[u16], n: u16) -> bool
    ensures { result ≡ list_all (λ t. nat_lt t n) numbers.now }
{
    numbers.iter().all(|number| *number < n)
}
