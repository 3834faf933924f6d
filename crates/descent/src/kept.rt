//! A weighted rule with its entries, and how they follow a change of the games.
ghost use Rattle.std.specs.Prelude.{◌≡◌, ◌<◌, ◌≤◌, ◌+◌, ◌*◌, ◌^◌, true, [], length};
ghost use Rattle.std.specs.List.{sum};
ghost use Rattle.league.specs.Counts.{Counts};
ghost use Rattle.rule_core.specs.Table.{table_counts};
ghost use Rattle.descent.specs.Bench.{OnlyUsed};
ghost use Rattle.descent.specs.Change.{LeadsFrom, games_of};
ghost use Rattle.descent.specs.Ready.{IsExact, IsReady};
ghost use Rattle.descent.specs.Tallies.{touched_count, vector_on};

use crate::bench::Bench;
use crate::change::Change;
use crate::taker::{Weigher, take_entries};
use crate::weighted::Weighted;
use league::TeamId;
use rule_core::{Entries, Rule, Steps};

/// A weighted rule with the teams that it watches, its deviation vector and the sum of that.
#[derive(Drop)]
pub(crate) struct Kept<R> {
    pub(crate) weighted: Weighted<R>,
    pub(crate) watched: Vec<TeamId>,
    pub(crate) vector: Vec<u64>,
    pub(crate) deviation: u128,
}

impl<R: Entries> Kept<R> {
    /// Whether the rule watches less than a third of so many teams.
    pub(crate) fn watches_few(&self, teams: usize) -> bool
        ensures { result ≡ true → 0 < teams }
    {
        self.watched.len() < teams / 3
    }

    /// Makes the entries those on the counts that a change led to: each key that it touches is evaluated once.
    pub(crate) fn renew<L>(&mut self, change: &Change, bench: &mut Bench, steps: &mut Steps<L>)
    where
        R: Rule<L>,
        requires ready { IsReady R.Entries change.now.table.n bench.old.found.room self.old }
        requires reach { R.reach_of self.old.weighted.rule ≤ bench.old.keys.room }
        requires clean { bench.old.found.list ≡ [] }
        ensures weighted { self.new.weighted ≡ self.old.weighted }
        ensures ready { IsReady R.Entries change.now.table.n bench.old.found.room self.new }
        ensures bench { OnlyUsed bench.old bench.new }
        ensures exact { (m : Counts) → LeadsFrom m change.now → IsExact R.Entries m self.old
            → IsExact R.Entries (table_counts change.now.table) self.new }
        ensures steps { steps.new ≡ steps.old
            + touched_count R.Entries self.old.weighted.rule (games_of change.now) }
    {
        change.find_keys(self, bench);
        take_entries(self, &bench.found, change.cells(), steps);
        bench.found.clear();
    }

    /// The deviation on the counts that a change led to, while the entries stay as they are: each key that the change
    /// touches is evaluated once.
    pub(crate) fn weigh<L>(&self, change: &Change, bench: &mut Bench, steps: &mut Steps<L>) -> u128
    where
        R: Rule<L>,
        requires ready { IsReady R.Entries change.now.table.n bench.old.found.room self.now }
        requires reach { R.reach_of self.now.weighted.rule ≤ bench.old.keys.room }
        requires clean { bench.old.found.list ≡ [] }
        ensures bench { OnlyUsed bench.old bench.new }
        ensures exact { (m : Counts) → LeadsFrom m change.now → IsExact R.Entries m self.now
            → result ≡ sum (vector_on R.Entries (table_counts change.now.table) self.now.weighted.rule) }
        ensures small { result ≤ 2 ^ 64 * length self.now.vector.items }
        ensures steps { steps.new ≡ steps.old
            + touched_count R.Entries self.now.weighted.rule (games_of change.now) }
    {
        change.find_keys(self, bench);
        let mut weigher = Weigher {
            kept: self,
            deviation: self.deviation,
        };
        take_entries(&mut weigher, &bench.found, change.cells(), steps);
        bench.found.clear();
        weigher.deviation
    }
}
