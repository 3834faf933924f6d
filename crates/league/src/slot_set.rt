//! Sets of slots.
ghost use Rattle.std.specs.Prelude.{◌≡◌, ◌<◌, ◌==◌, ◌↔◌, [], length, Contains, IsTrue, OnOk, OnErr, IfOk, Some};
ghost use Rattle.std.specs.Prelude.{nat_lt, slice_get};
ghost use Rattle.std.specs.Bool.{MatchBool};
ghost use Rattle.std.specs.List.{list_all};
ghost use Rattle.std.specs.Ordering.{nat_cmp};
ghost use Rattle.league.specs.Counts.{slot_count};
ghost use Rattle.league.specs.Sets.{IsAscending, with_item};
ghost use Rattle.league.specs.Instance.{are_slots};

use crate::ascending::Ascending;
use crate::game::SlotId;
use std::alloc::{AllocError, Global};
use std::marker::Model;

/// A set of slots, seen as the ascending list of their numbers.
#[derive(Drop)]
pub struct SlotSet {
    numbers: Ascending<u16>,
}

impl Model for SlotSet {
    ghost use Rattle.std.specs.Prelude.{ℕ, List};

    ghost Value = { List ℕ };

    ghost view = { λ s. s.numbers };
}

impl SlotSet {
    /// The empty set. It takes no memory.
    pub fn new(alloc: Global) -> SlotSet
        ensures { result ≡ [] }
    {
        SlotSet {
            numbers: Ascending::new(alloc),
        }
    }

    /// Adds a slot, and answers whether it is new: false exactly where it was there.
    ///
    /// # Errors
    /// Only where memory runs out.
    pub fn insert(&mut self, slot: SlotId) -> Result<bool, AllocError>
        ensures ok { OnOk result (self.new ≡ with_item nat_cmp slot.0 self.old) }
        ensures fresh { IfOk result (λ fresh.
            MatchBool fresh (Contains self.old slot.0 → ⊥) (Contains self.old slot.0)) }
        ensures err { OnErr result (self.new ≡ self.old) }
    {
        self.numbers.insert(slot.0)
    }

    /// Whether the slot is in the set.
    pub fn contains(&self, slot: SlotId) -> bool
        ensures { IsTrue result ↔ Contains self.now slot.0 }
    {
        self.numbers.contains(slot.0)
    }

    /// The number of slots.
    pub fn len(&self) -> usize
        ensures len { result ≡ length self.now }
        ensures ascending { IsAscending nat_cmp self.now }
    {
        self.numbers.items().len()
    }

    /// Whether there is no slot.
    pub fn is_empty(&self) -> bool
        ensures { result ≡ (length self.now == 0) }
    {
        self.numbers.items().is_empty()
    }

    /// The slot at place k of the ascending list, from 0.
    pub fn get(&self, k: usize) -> SlotId
        requires { k < length self.now }
        ensures { slice_get self.now k ≡ Some result.0 }
    {
        SlotId(self.numbers.items()[k])
    }

    /// The slots' numbers in ascending order.
    pub fn numbers(&self) -> &[u16]
        ensures numbers { result.now ≡ self.now }
        ensures ascending { IsAscending nat_cmp self.now }
    {
        self.numbers.items()
    }

    /// An equal set.
    pub(crate) fn copy(&self) -> Result<SlotSet, AllocError>
        ensures { IfOk result (λ copy. copy ≡ self.now) }
    {
        Ok(SlotSet {
            numbers: self.numbers.copy()?,
        })
    }

    /// Whether each is a slot of the season of n teams.
    pub(crate) fn are_in_season(&self, n: u16) -> bool
        ensures { result ≡ are_slots n self.now }
    {
        all_in_season(self.numbers(), n)
    }
}

/// Whether each number is a slot of the season of n teams.
fn all_in_season(numbers: &[u16], n: u16) -> bool
    ensures { result ≡ list_all (λ s. nat_lt s (slot_count n)) numbers.now }
{
    let end = 2 * u32::from(n.saturating_sub(1));
    numbers.iter().all(|number| u32::from(*number) < end)
}
