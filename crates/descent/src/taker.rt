//! What becomes of the entries that are evaluated afresh: they are written, or only added up.
ghost use Rattle.std.specs.Prelude.{◌≡◌, ℕ, ◌<◌, ◌≤◌, ◌+◌, ◌^◌, Bool, true, false, if◌then◌else◌};
ghost use Rattle.std.specs.Prelude.{length, slice_index, slice_set};
ghost use Rattle.std.specs.List.{All};
ghost use Rattle.rule_core.specs.Table.{table_counts};
ghost use Rattle.descent.specs.Ready.{IsReady};
ghost use Rattle.descent.specs.Weighing.{IsWeighed, if_written};
ghost use Rattle.descent.specs.declared.kept.Kept.{Kept};

use crate::kept::Kept;
use crate::key_set::KeySet;
use rule_core::{Cells, Rule, Steps};

/// What takes entries of a kept rule that are evaluated afresh, each in the place of the one that lies there.
pub(crate) trait Taker<R> {
    /// The rule, with its entries as they lie.
    ghost kept_of: { Self → Kept R };

    /// The deviation with the entries that were taken.
    ghost deviation_of: { Self → ℕ };

    /// Whether an entry that is taken is written.
    ghost writes: { Bool };

    /// The rule, with its entries as they lie.
    fn kept(&self) -> &Kept<R>
        ensures { result.now ≡ kept_of self.now };

    /// Takes the entry of a key.
    fn take(&mut self, key: usize, entry: u64)
        requires key { key < length (kept_of self.old).vector.items }
        requires part { slice_index (kept_of self.old).vector.items key ≤ deviation_of self.old }
        requires fits { deviation_of self.old + entry < 2 ^ 128 }
        ensures weighted { (kept_of self.new).weighted ≡ (kept_of self.old).weighted }
        ensures watched { (kept_of self.new).watched ≡ (kept_of self.old).watched }
        ensures vector { (kept_of self.new).vector.items ≡ (if writes
            then slice_set (kept_of self.old).vector.items key entry else (kept_of self.old).vector.items) }
        ensures deviation { deviation_of self.new + slice_index (kept_of self.old).vector.items key
            ≡ deviation_of self.old + entry };
}

impl<R> Taker<R> for Kept<R> {
    ghost kept_of = { λ k. k };

    ghost deviation_of = { λ k. k.deviation };

    ghost writes = { true };

    #[inline]
    fn kept(&self) -> &Kept<R> {
        self
    }

    #[inline]
    fn take(&mut self, key: usize, entry: u64) {
        self.deviation = self.deviation - u128::from(self.vector[key]) + u128::from(entry);
        self.vector[key] = entry;
    }
}

/// A kept rule, whose entries stay as they are, and its deviation with the entries that were taken.
#[derive(Drop)]
pub(crate) struct Weigher<'a, R> {
    pub(crate) kept: &'a Kept<R>,
    pub(crate) deviation: u128,
}

impl<R> Taker<R> for Weigher<'_, R> {
    ghost kept_of = { λ w. w.kept.now };

    ghost deviation_of = { λ w. w.deviation };

    ghost writes = { false };

    #[inline]
    fn kept(&self) -> &Kept<R> {
        self.kept
    }

    #[inline]
    fn take(&mut self, key: usize, entry: u64) {
        self.deviation = self.deviation - u128::from(self.kept.vector[key]) + u128::from(entry);
    }
}

/// Evaluates the entries of some keys, and has each of them taken.
#[inline]
pub(crate) fn take_entries<L, R, T>(
    taker: &mut T,
    keys: &KeySet,
    cells: &Cells,
    steps: &mut Steps<L>,
)
where
    R: Rule<L>,
    T: Taker<R>,
    requires ready { IsReady R.Entries cells.now.n keys.now.room (T.kept_of taker.old) }
    requires deviation { T.deviation_of taker.old ≡ (T.kept_of taker.old).deviation }
    requires below { All (λ k. k < R.term_count (T.kept_of taker.old).weighted.rule) keys.now.list }
    ensures weighted { (T.kept_of taker.new).weighted ≡ (T.kept_of taker.old).weighted }
    ensures watched { (T.kept_of taker.new).watched ≡ (T.kept_of taker.old).watched }
    ensures vector { (T.kept_of taker.new).vector.items ≡ if_written T.writes
        (λ k. R.entry (T.kept_of taker.old).weighted.rule k (table_counts cells.now)) keys.now.list
        (T.kept_of taker.old).vector.items }
    ensures weighed { IsWeighed (λ k. R.entry (T.kept_of taker.old).weighted.rule k (table_counts cells.now))
        keys.now.list (T.kept_of taker.old).vector.items (T.deviation_of taker.new) }
    ensures steps { steps.new ≡ steps.old + length keys.now.list }
{
    each_is_word(&taker.kept().vector);
    for place in 0..keys.len() {
        let key = keys.get(place);
        let kept = taker.kept();
        let entry = kept.weighted.rule.term(key, cells, steps);
        taker.take(key, entry);
    }
}

/// What is known of each of some words: that it is below the bound of words.
fn each_is_word(entries: &[u64])
    ensures { (k : ℕ) → slice_index entries.now k < 2 ^ 64 }
{}
