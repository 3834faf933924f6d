//! The hard CA1 of a league, grouped by side and set of slots.
ghost use Rattle.std.specs.Prelude.{◌≡◌, ℕ, List, ◌+◌, ◌*◌, ◌^◌, ◌<◌, ◌≤◌, length, take, None, IfOk, OnOk, IsTrue};
ghost use Rattle.std.specs.Prelude.{slice_index_or};
ghost use Rattle.std.specs.BTreeMap.{get};
ghost use Rattle.std.specs.List.{All};
ghost use Rattle.std.specs.Ordering.{nat_cmp};
ghost use Rattle.league.specs.Instance.{are_slots, class_fits, is_one_side};
ghost use Rattle.venue_counts.specs.Groups.{AreAllGroups, AreFound, AreGroups, key_at};
ghost use Rattle.venue_counts.specs.Keys as keys;

use crate::group::Group;
use crate::limit::Limit;
use encoding::{slot_numbers, team_numbers};
use league::{Class, Constraint, League, Side};
use std::alloc::{AllocError, Global};
use std::collections::BTreeMap;

/// Groups, each found by the number of its side and slots.
#[derive(Drop)]
struct Groups<'a> {
    groups: Vec<Group<'a>>,
    places: BTreeMap<u128, usize>,
}

/// What each team needs, for each side and set of slots that hard CA1 bound. All constraints are gone through once.
///
/// # Errors
/// Only where memory runs out.
pub(crate) fn groups_of<'a>(
    alloc: Global,
    league: &'a League,
    limit: Limit,
) -> Result<Vec<Group<'a>>, AllocError>
    ensures { IfOk result (λ groups. AreAllGroups limit league.now.n league.now.constraints groups.items) }
{
    let n = league.n();
    let constraints = league.constraints();
    let mut all = Groups {
        groups: Vec::new(alloc),
        places: BTreeMap::new(alloc),
    };
    for k in 0..constraints.len() {
        all.add(alloc, n, limit, constraints, k)?;
    }
    let Groups { groups, places: _ } = all;
    Ok(groups)
}

impl<'a> Groups<'a> {
    /// Adds what a constraint says to its group, if it is a hard CA1.
    fn add(
        &mut self,
        alloc: Global,
        n: u16,
        limit: Limit,
        constraints: &'a [Constraint],
        k: usize,
    ) -> Result<(), AllocError>
        requires n { n ≤ 40 }
        requires there { k < length constraints.now }
        requires fit { All (λ c. IsTrue (class_fits n c.class)) constraints.now }
        requires found { AreFound self.old.groups.items (get nat_cmp self.old.places) }
        requires groups { AreGroups limit n (take k constraints.now)
            self.old.groups.items (get nat_cmp self.old.places) }
        ensures found { OnOk result (AreFound self.new.groups.items (get nat_cmp self.new.places)) }
        ensures groups { OnOk result (AreGroups limit n (take (k + 1) constraints.now)
            self.new.groups.items (get nat_cmp self.new.places)) }
    {
        let constraint = &constraints[k];
        let Class::Ca1 {
            teams,
            min,
            max,
            side,
            slots,
        } = &constraint.class
        else {
            return Ok(());
        };
        if !constraint.hard {
            return Ok(());
        }
        let teams = team_numbers(n, teams);
        let slots = slot_numbers(n, slots);
        let need = limit.need(*min, *max, slots.len() as u32);
        let place = self.place_of(alloc, n, *side, slots)?;
        self.groups[place].raise(teams, need, k);
        Ok(())
    }

    /// The place of the group of this side and these slots, which is added where it isn't there.
    fn place_of(
        &mut self,
        alloc: Global,
        n: u16,
        side: Side,
        slots: &'a [u16],
    ) -> Result<usize, AllocError>
        requires n { n ≤ 40 }
        requires side { IsTrue (is_one_side side) }
        requires slots { IsTrue (are_slots n slots.now) }
        requires found { AreFound self.old.groups.items (get nat_cmp self.old.places) }
        ensures there { IfOk result (λ place. place < length self.new.groups.items) }
        ensures key { IfOk result (λ place. (d : Group) →
            key_at (slice_index_or self.new.groups.items place d) ≡ keys.key_of side slots.now) }
        ensures found { OnOk result (AreFound self.new.groups.items (get nat_cmp self.new.places)) }
        ensures groups { OnOk result ((limit : Limit) (constraints : List Constraint)
            → AreGroups limit n constraints self.old.groups.items (get nat_cmp self.old.places)
            → AreGroups limit n constraints self.new.groups.items (get nat_cmp self.new.places)) }
    {
        let key = key_of(side, slots);
        match self.places.get(&key) {
            Some(place) => Ok(*place),
            None => self.add_group(alloc, n, side, slots, key),
        }
    }

    /// Adds a group of this side and these slots, in which nothing is needed, and gives its place.
    fn add_group(
        &mut self,
        alloc: Global,
        n: u16,
        side: Side,
        slots: &'a [u16],
        key: u128,
    ) -> Result<usize, AllocError>
        requires side { IsTrue (is_one_side side) }
        requires slots { IsTrue (are_slots n slots.now) }
        requires key { key ≡ keys.key_of side slots.now }
        requires absent { get nat_cmp self.old.places key ≡ None }
        requires found { AreFound self.old.groups.items (get nat_cmp self.old.places) }
        ensures there { IfOk result (λ place. place < length self.new.groups.items) }
        ensures key { IfOk result (λ place. (d : Group) →
            key_at (slice_index_or self.new.groups.items place d) ≡ keys.key_of side slots.now) }
        ensures found { OnOk result (AreFound self.new.groups.items (get nat_cmp self.new.places)) }
        ensures groups { OnOk result ((limit : Limit) (constraints : List Constraint)
            → AreGroups limit n constraints self.old.groups.items (get nat_cmp self.old.places)
            → AreGroups limit n constraints self.new.groups.items (get nat_cmp self.new.places)) }
    {
        let place = self.groups.len();
        let group = Group::new(alloc, n, side, slots)?;
        self.groups.push(group)?;
        self.places.insert(key, place)?;
        Ok(place)
    }
}

/// The number of a side and a set of slots.
fn key_of(side: Side, slots: &[u16]) -> u128
    requires below { All (λ s. s < 78) slots.now }
    requires few { length slots.now ≤ 78 }
    ensures { result ≡ keys.key_of side slots.now }
{
    let mut mask = 0u128;
    for slot in slots {
        mask += 1u128 << u32::from(*slot);
    }
    2 * mask + u128::from(side == Side::H)
}
