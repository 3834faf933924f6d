//! A list of teams or slots in which a number is found by one look-up.
ghost use Rattle.std.specs.Prelude.{◌≡◌, ◌≢◌, ◌<◌, ◌≤◌, ◌+◌, ◌==◌, ◌||◌, length, slice_index, IsTrue, IfOk};
ghost use Rattle.std.specs.List.{All};
ghost use Rattle.std.specs.Ordering.{nat_cmp};
ghost use Rattle.league.specs.Instance.{are_slots, are_teams};
ghost use Rattle.league.specs.Sets.{IsAscending, is_in};
ghost use Rattle.rule_core.specs.Keys.{keys_where, with_keys};
ghost use Rattle.rule_core.specs.Listed.{IsKeyOf};

use crate::key_places::Places;
use crate::keys::Keys;
use league::{SlotSet, TeamSet};
use std::alloc::{AllocError, Global};
use std::marker::Model;

/// An ascending list of teams or slots, with the place of each. A number's key is its place, counted from 0.
///
/// A contract sees it as the list.
#[derive(Drop)]
pub struct Listed {
    numbers: Vec<u16>,
    places: Places,
}

impl Model for Listed {
    ghost use Rattle.std.specs.Prelude.{ℕ, List};
    ghost use Rattle.rule_core.specs.KeyPlaces.{AreListed};

    ghost Value = { List ℕ };

    ghost view = { λ l. l.numbers.items };

    ghost invariant = { λ l. AreListed l.numbers.items l.places };
}

impl Listed {
    /// Some teams of a league of n teams.
    ///
    /// # Errors
    /// Only where memory runs out.
    pub fn of_teams(alloc: Global, n: u16, teams: &TeamSet) -> Result<Listed, AllocError>
        requires at_most { n ≤ 40 }
        requires teams { IsTrue (are_teams n teams.now) }
        ensures { IfOk result (λ listed. listed ≡ teams.now) }
    {
        Listed::of(alloc, teams.numbers())
    }

    /// Some slots of the season of n teams.
    ///
    /// # Errors
    /// Only where memory runs out.
    pub fn of_slots(alloc: Global, n: u16, slots: &SlotSet) -> Result<Listed, AllocError>
        requires at_most { n ≤ 40 }
        requires slots { IsTrue (are_slots n slots.now) }
        ensures { IfOk result (λ listed. listed ≡ slots.now) }
    {
        Listed::of(alloc, slots.numbers())
    }

    /// A list of these numbers.
    pub(crate) fn of(alloc: Global, numbers: &[u16]) -> Result<Listed, AllocError>
        requires ascending { IsAscending nat_cmp numbers.now }
        requires below { All (λ x. x < 78) numbers.now }
        ensures { IfOk result (λ listed. listed ≡ numbers.now) }
    {
        Ok(Listed {
            numbers: Vec::from_slice(alloc, numbers)?,
            places: Places::of(numbers),
        })
    }

    /// The numbers, in ascending order.
    pub fn numbers(&self) -> &[u16]
        ensures numbers { result.now ≡ self.now }
        ensures few { length self.now ≤ 78 }
        ensures ascending { IsAscending nat_cmp self.now }
    {
        &self.numbers
    }

    /// How many there are. Their keys are the numbers below it.
    pub fn len(&self) -> usize
        ensures { result ≡ length self.now }
    {
        self.numbers.len()
    }

    /// The number of a key.
    pub fn get(&self, key: usize) -> u16
        requires { key < length self.now }
        ensures { result ≡ slice_index self.now key }
    {
        self.numbers[key]
    }

    /// The key of a number, if it is one of these. It is one look-up.
    pub(crate) fn key(&self, number: u16) -> Option<usize>
        ensures key { IsKeyOf self.now number result }
        ensures ascending { IsAscending nat_cmp self.now }
    {
        self.places.place(number)
    }

    /// Whether a number is one of these. It is one look-up.
    pub fn has(&self, number: u16) -> bool
        ensures { result ≡ is_in number self.now }
    {
        self.key(number).is_some()
    }

    /// Adds the key of a number, where it is one of these. It takes no memory.
    pub fn push_key(&self, number: u16, keys: &mut Keys)
        requires { length keys.old.list + 1 ≤ keys.old.room }
        ensures { keys.new ≡ with_keys keys.old (keys_where (λ x. x == number) self.now) }
    {
        keys.push_some(self.key(number));
    }

    /// Adds the keys of two different numbers, as far as they are of these, in ascending order. It takes no memory.
    pub fn push_keys(&self, one: u16, other: u16, keys: &mut Keys)
        requires differ { one ≢ other }
        requires spare { length keys.old.list + 2 ≤ keys.old.room }
        ensures { keys.new ≡ with_keys keys.old (keys_where (λ x. (x == one) || (x == other)) self.now) }
    {
        keys.push_some(self.key(one.min(other)));
        keys.push_some(self.key(one.max(other)));
    }
}
