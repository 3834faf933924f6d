//! What the three kinds of sets share: a list in ascending order without repeats.
ghost use Rattle.std.specs.Prelude.{◌≡◌, ◌<◌, ◌-◌, ◌↔◌, [], length, Contains, IsTrue, OnOk, OnErr, IfOk};
ghost use Rattle.std.specs.List.{HoldsAt};
ghost use Rattle.std.specs.Bool.{MatchBool};
ghost use Rattle.std.specs.declared.cmp.Ordering.TheVariants.{Less, Equal};
ghost use Rattle.league.specs.Sets.{IsAscending, with_item};

use std::alloc::{AllocError, Global};
use std::marker::Model;

/// What a set may hold: values of which two are the same if neither comes before the other.
pub trait Item: Ord + Copy {
    ghost same: { (a b : Self) → Self.cmp a b ≡ Equal → a ≡ b };
}

/// A set, seen as the ascending list of its items.
#[derive(Drop)]
pub struct Ascending<T: Item> {
    items: Vec<T>,
}

impl<T: Item> Model for Ascending<T> {
    ghost use Rattle.std.specs.Prelude.{List};
    ghost use Rattle.league.specs.Sets.{IsAscending};

    ghost Value = { List T };

    ghost view = { λ s. s.items.items };

    ghost invariant = { λ s. IsAscending T.cmp s.items.items };
}

impl<T: Item> Ascending<T> {
    /// The empty set. It takes no memory.
    pub fn new(alloc: Global) -> Ascending<T>
        ensures { result ≡ [] }
    {
        Ascending {
            items: Vec::new(alloc),
        }
    }

    /// Adds an item at its place, and answers whether it is new: false exactly where it was there.
    ///
    /// # Errors
    /// Only where memory runs out; the set is as before.
    pub fn insert(&mut self, item: T) -> Result<bool, AllocError>
        ensures ok { OnOk result (self.new ≡ with_item T.cmp item self.old) }
        ensures fresh { IfOk result (λ fresh.
            MatchBool fresh (Contains self.old item → ⊥) (Contains self.old item)) }
        ensures err { OnErr result (self.new ≡ self.old) }
    {
        if comes_last(&self.items, item) {
            self.append(item)?;
            return Ok(true);
        }
        self.place(item)
    }

    /// Adds an item that comes after the others.
    fn append(&mut self, item: T) -> Result<(), AllocError>
        requires { 0 < length self.old → HoldsAt (λ last. T.cmp last item ≡ Less) self.old (length self.old - 1) }
        ensures ok { OnOk result (self.new ≡ with_item T.cmp item self.old) }
        ensures fresh { Contains self.old item → ⊥ }
        ensures err { OnErr result (self.new ≡ self.old) }
    {
        self.items.push(item)?;
        Ok(())
    }

    /// Adds an item as `insert` does, at the place that a search finds.
    fn place(&mut self, item: T) -> Result<bool, AllocError>
        ensures ok { OnOk result (self.new ≡ with_item T.cmp item self.old) }
        ensures fresh { IfOk result (λ fresh.
            MatchBool fresh (Contains self.old item → ⊥) (Contains self.old item)) }
        ensures err { OnErr result (self.new ≡ self.old) }
    {
        match self.items.binary_search(&item) {
            Ok(_) => Ok(false),
            Err(place) => {
                self.items.insert(place, item)?;
                Ok(true)
            }
        }
    }

    /// An equal set. Its memory is from where this one's is.
    ///
    /// # Errors
    /// Only where memory runs out.
    pub fn copy(&self) -> Result<Ascending<T>, AllocError>
        ensures { IfOk result (λ copy. copy ≡ self.now) }
    {
        Ok(Ascending {
            items: Vec::from_slice(*self.items.allocator(), &self.items)?,
        })
    }

    /// Whether the item is in the set.
    pub fn contains(&self, item: T) -> bool
        ensures { IsTrue result ↔ Contains self.now item }
    {
        self.items.binary_search(&item).is_ok()
    }

    /// The items in ascending order.
    pub fn items(&self) -> &[T]
        ensures items { result.now ≡ self.now }
        ensures ascending { IsAscending T.cmp self.now }
    {
        &self.items
    }
}

/// Whether the item comes after the last of these, or there is none.
fn comes_last<T: Item>(items: &[T], item: T) -> bool
    ensures { IsTrue result → 0 < length items.now →
        HoldsAt (λ last. T.cmp last item ≡ Less) items.now (length items.now - 1) }
{
    match items.last() {
        Some(last) => last.cmp(&item).is_lt(),
        None => true,
    }
}

impl Item for u16 {
    ghost use Rattle.league.specs.SetLaws.{same-nat_cmp};

    ghost same = { same-nat_cmp };
}

impl Item for (u16, u16) {
    ghost use Rattle.league.specs.SetLaws.{same-pair_cmp};

    ghost same = { same-pair_cmp };
}
