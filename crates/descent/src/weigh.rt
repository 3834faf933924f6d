//! What kept rules cost, and how the two sums follow a change of the games. To weigh an edit without making it is delta
//! evaluation.
ghost use Rattle.std.specs.Prelude.{◌≡◌, ◌<◌, ◌≤◌, ◌+◌, ◌*◌, ◌^◌, [], length, map};
ghost use Rattle.std.specs.List.{All, sum_by};
ghost use Rattle.league.specs.Counts.{Counts};
ghost use Rattle.rule_core.specs.Table.{table_counts};
ghost use Rattle.descent.specs.Bench.{OnlyUsed};
ghost use Rattle.descent.specs.Change.{LeadsFrom, games_of};
ghost use Rattle.descent.specs.Ready.{AreReady, IsExact, IsReady, hard_cost, soft_cost};
ghost use Rattle.descent.specs.Tallies.{all_touched, cost_on, touched_count};
ghost use Rattle.descent.specs.Weighing.{AreWeighed, if_kind, is_kind, kind_cost, kind_touched};

use crate::bench::Bench;
use crate::change::Change;
use crate::kept::Kept;
use crate::weighted::Weighted;
use rule_core::{Entries, Rule, Steps};

/// What some rules cost: the hard ones, and the soft ones.
#[derive(Clone, Copy)]
pub struct Sums {
    pub infeasibility: u128,
    pub objective: u128,
}

/// What the rules of a kind, hard or soft, may cost.
#[derive(Clone, Copy)]
pub(crate) struct Limit {
    hard: bool,
    most: u128,
}

impl<R: Entries> Kept<R> {
    /// Penalty times deviation.
    pub(crate) fn cost(&self) -> u128
        requires few { length self.now.vector.items < 2 ^ 31 }
        requires small { self.now.deviation ≤ 2 ^ 64 * length self.now.vector.items }
        ensures cost { result ≡ self.now.weighted.penalty * self.now.deviation }
        ensures small { result ≤ 2 ^ 96 * length self.now.vector.items }
    {
        u128::from(self.weighted.penalty) * self.deviation
    }

    /// Evaluates the rule's entries anew on the counts after a change, and brings the sums up to date.
    pub(crate) fn renew_weighed<L>(
        &mut self,
        change: &Change,
        bench: &mut Bench,
        sums: &mut Sums,
        steps: &mut Steps<L>,
    )
    where
        R: Rule<L>,
        requires ready { IsReady R.Entries change.now.table.n bench.old.found.room self.old }
        requires reach { R.reach_of self.old.weighted.rule ≤ bench.old.keys.room }
        requires clean { bench.old.found.list ≡ [] }
        requires infeasibility { hard_cost self.old ≤ sums.old.infeasibility }
        requires infeasibility_room { sums.old.infeasibility ≤ 2 ^ 127 }
        requires objective { soft_cost self.old ≤ sums.old.objective }
        requires objective_room { sums.old.objective ≤ 2 ^ 127 }
        ensures weighted { self.new.weighted ≡ self.old.weighted }
        ensures ready { IsReady R.Entries change.now.table.n bench.old.found.room self.new }
        ensures bench { OnlyUsed bench.old bench.new }
        ensures exact { (m : Counts) → LeadsFrom m change.now → IsExact R.Entries m self.old
            → IsExact R.Entries (table_counts change.now.table) self.new }
        ensures infeasibility { sums.new.infeasibility + hard_cost self.old
            ≡ sums.old.infeasibility + hard_cost self.new }
        ensures objective { sums.new.objective + soft_cost self.old ≡ sums.old.objective + soft_cost self.new }
        ensures steps { steps.new ≡ steps.old
            + touched_count R.Entries self.old.weighted.rule (games_of change.now) }
    {
        let before = self.cost();
        self.renew(change, bench, steps);
        let after = self.cost();
        if self.weighted.hard {
            sums.infeasibility = sums.infeasibility - before + after;
        } else {
            sums.objective = sums.objective - before + after;
        }
    }

    /// What a rule of a kind, hard or soft, would cost on the counts that a change led to, and 0 for a rule of the other
    /// kind.
    fn weigh_cost<L>(
        &self,
        hard: bool,
        change: &Change,
        bench: &mut Bench,
        steps: &mut Steps<L>,
    ) -> u128
    where
        R: Rule<L>,
        requires ready { IsReady R.Entries change.now.table.n bench.old.found.room self.now }
        requires reach { R.reach_of self.now.weighted.rule ≤ bench.old.keys.room }
        requires clean { bench.old.found.list ≡ [] }
        ensures bench { OnlyUsed bench.old bench.new }
        ensures exact { (m : Counts) → LeadsFrom m change.now → IsExact R.Entries m self.now
            → result ≡ if_kind hard (cost_on R.Entries (table_counts change.now.table)) self.now.weighted }
        ensures small { result ≤ 2 ^ 96 * length self.now.vector.items }
        ensures steps { steps.new ≡ steps.old
            + if_kind hard (λ w. touched_count R.Entries w.rule (games_of change.now)) self.now.weighted }
    {
        if !self.weighted.is_kind(hard) {
            return 0;
        }
        let deviation = self.weigh(change, bench, steps);
        u128::from(self.weighted.penalty) * deviation
    }
}

impl<R> Weighted<R> {
    /// Whether the rule is of a kind: hard, or soft.
    fn is_kind(&self, hard: bool) -> bool
        ensures { result ≡ is_kind hard self.now.hard }
    {
        if hard { self.hard } else { !self.hard }
    }
}

/// Evaluates the entries of some rules anew on the counts after a change, and brings the sums up to date.
pub(crate) fn renew_rules<R: Rule<L>, L>(
    rules: &mut [Kept<R>],
    change: &Change,
    bench: &mut Bench,
    sums: &mut Sums,
    steps: &mut Steps<L>,
)
    requires ready { AreReady R.Entries change.now.table.n bench.old rules.old sums.old }
    ensures weights { map (λ k. k.weighted) rules.new ≡ map (λ k. k.weighted) rules.old }
    ensures ready { AreReady R.Entries change.now.table.n bench.new rules.new sums.new }
    ensures exact { (m : Counts) → LeadsFrom m change.now → All (IsExact R.Entries m) rules.old
        → All (IsExact R.Entries (table_counts change.now.table)) rules.new }
    ensures steps { steps.new ≡ steps.old
        + all_touched R.Entries (map (λ k. k.weighted) rules.old) (games_of change.now) }
{
    for kept in rules.iter_mut() {
        kept.renew_weighed(change, bench, sums, steps);
    }
}

/// What the rules of a kind would cost on the counts that a change led to; or a part of it that is above their limit. No
/// rule is asked once the limit is passed.
fn weigh_kind<R: Rule<L>, L>(
    rules: &[Kept<R>],
    limit: Limit,
    change: &Change,
    bench: &mut Bench,
    steps: &mut Steps<L>,
) -> u128
    requires ready { All (IsReady R.Entries change.now.table.n bench.old.found.room) rules.now }
    requires reach { All (λ k. R.reach_of k.weighted.rule ≤ bench.old.keys.room) rules.now }
    requires few { sum_by (λ k. length k.vector.items) rules.now < 2 ^ 31 }
    requires clean { bench.old.found.list ≡ [] }
    ensures bench { OnlyUsed bench.old bench.new }
    ensures part { (m : Counts) → LeadsFrom m change.now → All (IsExact R.Entries m) rules.now
        → result ≤ kind_cost R.Entries (table_counts change.now.table) limit.hard (map (λ k. k.weighted) rules.now) }
    ensures whole { (m : Counts) → LeadsFrom m change.now → All (IsExact R.Entries m) rules.now → result ≤ limit.most
        → result ≡ kind_cost R.Entries (table_counts change.now.table) limit.hard (map (λ k. k.weighted) rules.now) }
    ensures steps { steps.new ≤ steps.old
        + kind_touched R.Entries limit.hard (map (λ k. k.weighted) rules.now) (games_of change.now) }
{
    let mut sum = 0;
    for kept in rules {
        let cost = kept.weigh_cost(limit.hard, change, bench, steps);
        sum += cost;
        if sum > limit.most {
            return sum;
        }
    }
    sum
}

/// What all rules would cost on the counts that a change led to: the hard ones are weighed first, and the soft ones
/// where these are within their bound.
pub(crate) fn weigh_rules<R: Rule<L>, L>(
    rules: &[Kept<R>],
    most: Sums,
    change: &Change,
    bench: &mut Bench,
    steps: &mut Steps<L>,
) -> Sums
    requires ready { All (IsReady R.Entries change.now.table.n bench.old.found.room) rules.now }
    requires reach { All (λ k. R.reach_of k.weighted.rule ≤ bench.old.keys.room) rules.now }
    requires few { sum_by (λ k. length k.vector.items) rules.now < 2 ^ 31 }
    requires clean { bench.old.found.list ≡ [] }
    ensures bench { OnlyUsed bench.old bench.new }
    ensures weighed { (m : Counts) → LeadsFrom m change.now → All (IsExact R.Entries m) rules.now
        → AreWeighed R.Entries most (table_counts change.now.table) (map (λ k. k.weighted) rules.now) result }
    ensures steps { steps.new ≤ steps.old
        + all_touched R.Entries (map (λ k. k.weighted) rules.now) (games_of change.now) }
{
    let hard = Limit {
        hard: true,
        most: most.infeasibility,
    };
    let infeasibility = weigh_kind(rules, hard, change, bench, steps);
    if infeasibility > most.infeasibility {
        return Sums {
            infeasibility,
            objective: 0,
        };
    }
    let soft = Limit {
        hard: false,
        most: most.objective,
    };
    let objective = weigh_kind(rules, soft, change, bench, steps);
    Sums {
        infeasibility,
        objective,
    }
}
