//! The pairs of some teams, each with its key.
ghost use Rattle.std.specs.Prelude.{◌≡◌, ◌<◌, ◌≤◌, ◌≢◌, ◌+◌, ◌-◌, ◌++◌, ◌==◌, length, map, slice_get, slice_index};
ghost use Rattle.std.specs.Prelude.{Some, IsTrue, IfOk, OnOk};
ghost use Rattle.std.specs.List.{All};
ghost use Rattle.std.specs.Ordering.{nat_cmp};
ghost use Rattle.league.specs.Instance.{are_teams};
ghost use Rattle.league.specs.Meetings.{pairs_of};
ghost use Rattle.league.specs.Sets.{IsAscending};
ghost use Rattle.rule_core.specs.KeptPairs.{key_at};
ghost use Rattle.rule_core.specs.Keys.{with_keys};
ghost use Rattle.rule_core.specs.Pairs.{key_between, keys_with};

use crate::keys::Keys;
use crate::listed::Listed;
use league::{TeamId, TeamSet};
use std::alloc::{AllocError, Global};
use std::marker::Model;

/// Each two of some teams once, the smaller first, in order of the first and then of the second. A pair's key is its
/// place.
///
/// A contract sees it as the ascending list of the teams.
#[derive(Drop)]
pub struct Pairs {
    teams: Listed,
    pairs: Vec<(u16, u16)>,
}

impl Model for Pairs {
    ghost use Rattle.std.specs.Prelude.{ℕ, List};
    ghost use Rattle.rule_core.specs.KeptPairs.{ArePairs};

    ghost Value = { List ℕ };

    ghost view = { λ p. p.teams };

    ghost invariant = { λ p. ArePairs p.teams p.pairs.items };
}

impl Pairs {
    /// The pairs of some teams of a league of n teams.
    ///
    /// # Errors
    /// Only where memory runs out.
    pub fn of_teams(alloc: Global, n: u16, teams: &TeamSet) -> Result<Pairs, AllocError>
        requires at_most { n ≤ 40 }
        requires teams { IsTrue (are_teams n teams.now) }
        ensures { IfOk result (λ pairs. pairs ≡ teams.now) }
    {
        Pairs::of(alloc, teams.numbers())
    }

    /// The pairs of teams with these numbers.
    fn of(alloc: Global, teams: &[u16]) -> Result<Pairs, AllocError>
        requires ascending { IsAscending nat_cmp teams.now }
        requires below { All (λ t. t < 78) teams.now }
        ensures { IfOk result (λ pairs. pairs ≡ teams.now) }
    {
        Ok(Pairs {
            teams: Listed::of(alloc, teams)?,
            pairs: list_pairs(alloc, teams)?,
        })
    }

    /// The teams, in ascending order.
    pub fn teams(&self) -> &[u16]
        ensures { result.now ≡ self.now }
    {
        self.teams.numbers()
    }

    /// The number of teams.
    pub fn team_count(&self) -> usize
        ensures { result ≡ length self.now }
    {
        self.teams.len()
    }

    /// The number of pairs. Their keys are the numbers below it.
    pub fn len(&self) -> usize
        ensures { result ≡ length (pairs_of self.now) }
    {
        self.pairs.len()
    }

    /// Whether there is no pair.
    pub fn is_empty(&self) -> bool
        ensures { result ≡ (length (pairs_of self.now) == 0) }
    {
        self.pairs.is_empty()
    }

    /// The pair of a key. It is one look-up.
    pub fn get(&self, key: usize) -> (TeamId, TeamId)
        requires { key < length (pairs_of self.now) }
        ensures { slice_get (pairs_of self.now) key ≡ Some (result.0.0, result.1.0) }
    {
        let (first, second) = self.pairs[key];
        (TeamId(first), TeamId(second))
    }

    /// Adds the key of the pair of two different teams, in either order, where both are among the teams. It takes no
    /// memory.
    pub fn push_key(&self, one: u16, other: u16, keys: &mut Keys)
        requires differ { one ≢ other }
        requires spare { length keys.old.list + 1 ≤ keys.old.room }
        ensures { keys.new ≡ with_keys keys.old (key_between self.now one other) }
    {
        if let Some(one) = self.teams.key(one) {
            if let Some(other) = self.teams.key(other) {
                keys.push(self.key(one.min(other), one.max(other)));
            }
        }
    }

    /// Adds the keys of all pairs in which a team is, ascending. It takes no memory.
    pub fn push_keys(&self, team: u16, keys: &mut Keys)
        requires { length keys.old.list + (length self.now - 1) ≤ keys.old.room }
        ensures { keys.new ≡ with_keys keys.old (keys_with self.now team) }
    {
        if let Some(place) = self.teams.key(team) {
            self.push_keys_at(place, keys);
        }
    }

    /// Adds the keys of the team at a place with the earlier teams, and then with the later ones.
    fn push_keys_at(&self, place: usize, keys: &mut Keys)
        requires place { place < length self.now }
        requires spare { length keys.old.list + (length self.now - 1) ≤ keys.old.room }
        ensures { keys.new ≡ with_keys keys.old (keys_with self.now (slice_index self.now place)) }
    {
        let count = self.teams.len();
        for first in 0..place {
            keys.push(self.key(first, place));
        }
        for second in place + 1..count {
            keys.push(self.key(place, second));
        }
    }

    /// The key of the teams at two places: those of the last teams, from the first place on, come last.
    fn key(&self, first: usize, second: usize) -> usize
        requires before { first < second }
        requires within { second < length self.now }
        ensures { result ≡ key_at self.now first second }
    {
        let last = self.teams.len() - first;
        self.pairs.len() - last * (last - 1) / 2 + (second - first - 1)
    }
}

/// The pairs of these teams, in order.
fn list_pairs(alloc: Global, teams: &[u16]) -> Result<Vec<(u16, u16)>, AllocError>
    ensures { IfOk result (λ pairs. pairs.items ≡ pairs_of teams.now) }
{
    let mut pairs = Vec::new(alloc);
    for (place, first) in teams.iter().enumerate() {
        push_pairs(*first, &teams[place + 1..], &mut pairs)?;
    }
    Ok(pairs)
}

/// Adds the pairs of a team with each of the later ones.
fn push_pairs(first: u16, later: &[u16], pairs: &mut Vec<(u16, u16)>) -> Result<(), AllocError>
    ensures { OnOk result (pairs.new.items ≡ pairs.old.items ++ map (λ second. (first, second)) later.now) }
{
    for second in later {
        pairs.push((first, *second))?;
    }
    Ok(())
}
