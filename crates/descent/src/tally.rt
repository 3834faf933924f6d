//! Weighted rules with their deviation vectors and costs, kept exact while games come and go.
ghost use Rattle.std.specs.Prelude.{◌≡◌, ℕ, ◌<◌, ◌≤◌, ◌+◌, ◌++◌, ◌^◌, length, map, slice_get, Some, IfOk, IfSome, MatchOption};
ghost use Rattle.std.specs.List.{All, sum};
ghost use Rattle.league.specs.Counts.{Counts, counts_of};
ghost use Rattle.league.specs.Instance.{IsGame};
ghost use Rattle.rule_core.specs.Table.{table_counts};
ghost use Rattle.moves.specs.Round.{edited};
ghost use Rattle.descent.specs.Tallies.{IsWithin, OnlyTallied, all_terms, all_touched, infeasibility_on, objective_on, vector_on};
ghost use Rattle.descent.specs.Weighing.{AreWeighed};

use crate::bench::Bench;
use crate::by_team::{GameList, list_edit, team_lists};
use crate::change::Change;
use crate::exchange::exchange_games;
use crate::keep::{costs, greatest_reach, greatest_terms, keep_rules};
use crate::kept::Kept;
use crate::weigh::{Sums, renew_rules, weigh_rules};
use crate::weighted::Weighted;
use league::Game;
use moves::Edit;
use rule_core::{Cells, Entries, Rule, Steps};
use std::alloc::{AllocError, Global};
use std::marker::Model;

/// Weighted rules, and the counts of a schedule's games. The rules' deviation vectors, what the hard ones cost (the
/// infeasibility) and what the soft ones cost (the objective) are kept, and are at every moment those on these counts.
pub struct Tally<R: Entries> {
    rules: Vec<Kept<R>>,
    cells: Cells,
    by_team: Vec<GameList>,
    bench: Bench,
    sums: Sums,
}

impl<R: Entries> Drop for Tally<R> {
    fn drop(self) {
        let Tally {
            rules: _,
            cells: _,
            by_team: _,
            bench: _,
            sums: _,
        } = self;
    }
}

impl<R: Entries> Model for Tally<R> {
    ghost use Rattle.std.specs.Prelude.{map};
    ghost use Rattle.descent.specs.Ready.{IsTallied};
    ghost use Rattle.descent.specs.Tallies.{Tallied};

    ghost Value = { Tallied R };

    ghost view = { λ t. record { weights = map (λ k. k.weighted) t.rules.items; table = t.cells } };

    ghost invariant = { λ t. IsTallied R.Entries t.rules.items t.cells t.by_team.items t.bench t.sums };
}

impl<R: Entries> Tally<R> {
    /// Evaluates each entry of the rules once on these counts.
    ///
    /// # Errors
    /// Only where memory runs out; then the rules and the counts are given up.
    pub fn new<L>(
        alloc: Global,
        rules: Vec<Weighted<R>>,
        cells: Cells,
        steps: &mut Steps<L>,
    ) -> Result<Tally<R>, AllocError>
    where
        R: Rule<L>,
        requires teams { All (λ w. R.team_count w.rule ≡ cells.n) rules.items }
        requires few { all_terms R.Entries rules.items < 2 ^ 31 }
        ensures weights { IfOk result (λ tally. tally.weights ≡ rules.items) }
        ensures table { IfOk result (λ tally. tally.table ≡ cells) }
        ensures steps { steps.new ≤ steps.old + all_terms R.Entries rules.items }
    {
        let by_team = team_lists(alloc, cells.n())?;
        let room = greatest_terms(&rules);
        let bench = Bench::new(alloc, greatest_reach(&rules), room)?;
        let rules = keep_rules(alloc, rules, &cells, room, steps)?;
        let sums = costs(&rules, &cells, room);
        Ok(Tally {
            rules,
            cells,
            by_team,
            bench,
            sums,
        })
    }

    /// Takes the games of an edit's `out` off the counts and puts those of its `into` on, of which there are as many.
    /// Each key that one of these games touches is evaluated once, and no other. It takes no memory.
    pub fn apply<L>(&mut self, edit: &Edit, steps: &mut Steps<L>)
    where
        R: Rule<L>,
        requires out_fit { All (IsGame self.old.table.n) edit.now.out }
        requires into_fit { All (IsGame self.old.table.n) edit.now.into }
        requires there { (i j s : ℕ) → counts_of edit.now.out i j s ≤ table_counts self.old.table i j s }
        ensures weights { self.new.weights ≡ self.old.weights }
        ensures n { self.new.table.n ≡ self.old.table.n }
        ensures counts { (i j s : ℕ) → table_counts self.new.table i j s + counts_of edit.now.out i j s
            ≡ table_counts self.old.table i j s + counts_of edit.now.into i j s }
        ensures total { sum self.new.table.list ≡ sum self.old.table.list }
        ensures steps { steps.new ≤ steps.old
            + all_touched R.Entries self.old.weights (edit.now.out ++ edit.now.into) }
    {
        self.exchange(edit.out(), edit.into_games(), steps);
    }

    /// Takes an edit back: `apply` with its two lists exchanged.
    pub fn undo<L>(&mut self, edit: &Edit, steps: &mut Steps<L>)
    where
        R: Rule<L>,
        requires out_fit { All (IsGame self.old.table.n) edit.now.out }
        requires into_fit { All (IsGame self.old.table.n) edit.now.into }
        requires there { (i j s : ℕ) → counts_of edit.now.into i j s ≤ table_counts self.old.table i j s }
        ensures weights { self.new.weights ≡ self.old.weights }
        ensures n { self.new.table.n ≡ self.old.table.n }
        ensures counts { (i j s : ℕ) → table_counts self.new.table i j s + counts_of edit.now.into i j s
            ≡ table_counts self.old.table i j s + counts_of edit.now.out i j s }
        ensures total { sum self.new.table.list ≡ sum self.old.table.list }
        ensures steps { steps.new ≤ steps.old
            + all_touched R.Entries self.old.weights (edit.now.into ++ edit.now.out) }
    {
        self.exchange(edit.into_games(), edit.out(), steps);
    }

    /// Takes some games off the counts and puts as many others on.
    fn exchange<L>(&mut self, out: &[Game], into: &[Game], steps: &mut Steps<L>)
    where
        R: Rule<L>,
        requires out_fit { All (IsGame self.old.table.n) out.now }
        requires into_fit { All (IsGame self.old.table.n) into.now }
        requires there { (i j s : ℕ) → counts_of out.now i j s ≤ table_counts self.old.table i j s }
        requires as_many { length into.now ≡ length out.now }
        ensures weights { self.new.weights ≡ self.old.weights }
        ensures n { self.new.table.n ≡ self.old.table.n }
        ensures counts { (i j s : ℕ) → table_counts self.new.table i j s + counts_of out.now i j s
            ≡ table_counts self.old.table i j s + counts_of into.now i j s }
        ensures total { sum self.new.table.list ≡ sum self.old.table.list }
        ensures steps { steps.new ≤ steps.old + all_touched R.Entries self.old.weights (out.now ++ into.now) }
    {
        let _few = self.cells.games();
        let listed = list_edit(&mut self.by_team, self.cells.n(), out, into);
        exchange_games(&mut self.cells, out, into);
        let change = Change::new(out, into, &self.by_team[..listed], &self.cells);
        renew_rules(
            &mut self.rules,
            &change,
            &mut self.bench,
            &mut self.sums,
            steps,
        );
    }

    /// What the rules would cost on the counts to which an edit leads, of which `out` has as many games as `into`. The
    /// rules and the counts stay as they are, and no entry is written. Each key that one of the edit's games touches is
    /// evaluated once, and no other. It takes no memory.
    pub fn weigh<L>(&mut self, edit: &Edit, steps: &mut Steps<L>) -> Sums
    where
        R: Rule<L>,
        requires out_fit { All (IsGame self.old.table.n) edit.now.out }
        requires into_fit { All (IsGame self.old.table.n) edit.now.into }
        requires there { (i j s : ℕ) → counts_of edit.now.out i j s ≤ table_counts self.old.table i j s }
        ensures keeps { OnlyTallied self.old self.new }
        ensures infeasibility { result.infeasibility
            ≡ infeasibility_on R.Entries (edited (table_counts self.old.table) edit.now) self.old.weights }
        ensures objective { result.objective
            ≡ objective_on R.Entries (edited (table_counts self.old.table) edit.now) self.old.weights }
        ensures steps { steps.new ≤ steps.old
            + all_touched R.Entries self.old.weights (edit.now.out ++ edit.now.into) }
    {
        let no_bound = Sums {
            infeasibility: u128::MAX,
            objective: u128::MAX,
        };
        self.weigh_games(edit.out(), edit.into_games(), no_bound, steps)
    }

    /// What the rules would cost after an edit, as `weigh` says, where neither number is above its bound; else nothing.
    /// A bound of `u128::MAX` is none. The rules and the counts stay as they are. The hard rules are weighed before the
    /// soft ones, and no further rule once a sum is above its bound. It takes no memory.
    pub fn weigh_within<L>(&mut self, edit: &Edit, most: Sums, steps: &mut Steps<L>) -> Option<Sums>
    where
        R: Rule<L>,
        requires out_fit { All (IsGame self.old.table.n) edit.now.out }
        requires into_fit { All (IsGame self.old.table.n) edit.now.into }
        requires there { (i j s : ℕ) → counts_of edit.now.out i j s ≤ table_counts self.old.table i j s }
        ensures keeps { OnlyTallied self.old self.new }

        // Nothing comes exactly where a number is above its bound.
        ensures within { MatchOption result
            (IsWithin R.Entries most (edited (table_counts self.old.table) edit.now) self.old.weights → ⊥)
            (λ _sums. IsWithin R.Entries most (edited (table_counts self.old.table) edit.now) self.old.weights) }
        ensures infeasibility { IfSome result (λ sums. sums.infeasibility
            ≡ infeasibility_on R.Entries (edited (table_counts self.old.table) edit.now) self.old.weights) }
        ensures objective { IfSome result (λ sums. sums.objective
            ≡ objective_on R.Entries (edited (table_counts self.old.table) edit.now) self.old.weights) }
        ensures steps { steps.new ≤ steps.old
            + all_touched R.Entries self.old.weights (edit.now.out ++ edit.now.into) }
    {
        let sums = self.weigh_games(edit.out(), edit.into_games(), most, steps);
        if sums.infeasibility > most.infeasibility || sums.objective > most.objective {
            return None;
        }
        Some(sums)
    }

    /// What the rules would cost with some games taken off the counts and as many others put on; or parts of it, one of
    /// which is above its bound.
    fn weigh_games<L>(
        &mut self,
        out: &[Game],
        into: &[Game],
        most: Sums,
        steps: &mut Steps<L>,
    ) -> Sums
    where
        R: Rule<L>,
        requires out_fit { All (IsGame self.old.table.n) out.now }
        requires into_fit { All (IsGame self.old.table.n) into.now }
        requires there { (i j s : ℕ) → counts_of out.now i j s ≤ table_counts self.old.table i j s }
        requires as_many { length into.now ≡ length out.now }
        ensures keeps { OnlyTallied self.old self.new }
        ensures weighed { (m : Counts) → ((i j s : ℕ) → m i j s + counts_of out.now i j s
            ≡ table_counts self.old.table i j s + counts_of into.now i j s)
            → AreWeighed R.Entries most m self.old.weights result }
        ensures steps { steps.new ≤ steps.old + all_touched R.Entries self.old.weights (out.now ++ into.now) }
    {
        let _few = self.cells.games();
        let listed = list_edit(&mut self.by_team, self.cells.n(), out, into);
        exchange_games(&mut self.cells, out, into);
        let change = Change::new(out, into, &self.by_team[..listed], &self.cells);
        let sums = weigh_rules(&self.rules, most, &change, &mut self.bench, steps);
        exchange_games(&mut self.cells, into, out);
        sums
    }

    /// What the hard rules cost: penalty times deviation, summed.
    pub fn infeasibility(&self) -> u128
        ensures { result ≡ infeasibility_on R.Entries (table_counts self.now.table) self.now.weights }
    {
        self.sums.infeasibility
    }

    /// What the soft rules cost: penalty times deviation, summed.
    pub fn objective(&self) -> u128
        ensures { result ≡ objective_on R.Entries (table_counts self.now.table) self.now.weights }
    {
        self.sums.objective
    }

    /// The number of rules.
    pub fn rule_count(&self) -> usize
        ensures { result ≡ length self.now.weights }
    {
        self.rules.len()
    }

    /// The deviation vector of the rule at place k, from 0.
    pub fn vector(&self, k: usize) -> &[u64]
        requires { k < length self.now.weights }
        ensures { slice_get (map (λ w. vector_on R.Entries (table_counts self.now.table) w.rule) self.now.weights) k
            ≡ Some result.now }
    {
        &self.rules[k].vector
    }

    /// The counts of the games.
    pub fn cells(&self) -> &Cells
        ensures { result.now ≡ self.now.table }
    {
        &self.cells
    }
}
