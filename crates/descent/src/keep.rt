//! Rules made ready: their entries evaluated once, and what they cost.
ghost use Rattle.std.specs.Prelude.{◌≡◌, ◌<◌, ◌≤◌, ◌+◌, ◌*◌, ◌^◌, ℕ, length, map, IfOk};
ghost use Rattle.std.specs.List.{All, sum_by};
ghost use Rattle.rule_core.specs.Table.{table_counts};
ghost use Rattle.descent.specs.Ready.{HasWatched, IsExact, IsReady, hard_cost, soft_cost};
ghost use Rattle.descent.specs.Tallies.{all_terms};

use crate::kept::Kept;
use crate::weigh::Sums;
use crate::weighted::Weighted;
use deviation::{entries_of, total};
use league::TeamId;
use rule_core::{Cells, Entries, Rule, Steps};
use std::alloc::{AllocError, Global};

/// A number that no rule's reach exceeds.
pub(crate) fn greatest_reach<R: Entries>(rules: &[Weighted<R>]) -> usize
    ensures { All (λ w. R.reach_of w.rule ≤ result) rules.now }
{
    let mut greatest = 0;
    for weighted in rules {
        greatest = larger(greatest, weighted.rule.reach());
    }
    greatest
}

/// A number that no rule's number of entries exceeds.
pub(crate) fn greatest_terms<R: Entries>(rules: &[Weighted<R>]) -> usize
    ensures { All (λ w. R.term_count w.rule ≤ result) rules.now }
{
    let mut greatest = 0;
    for weighted in rules {
        greatest = larger(greatest, weighted.rule.terms());
    }
    greatest
}

impl<R: Entries> Kept<R> {
    /// Evaluates each entry of a rule.
    fn new<L>(
        alloc: Global,
        weighted: Weighted<R>,
        cells: &Cells,
        steps: &mut Steps<L>,
    ) -> Result<Kept<R>, AllocError>
    where
        R: Rule<L>,
        requires teams { cells.now.n ≡ R.team_count weighted.rule }
        requires few { R.term_count weighted.rule < 2 ^ 31 }
        ensures weighted { IfOk result (λ kept. kept.weighted ≡ weighted) }
        ensures ready { IfOk result (λ kept. (room : ℕ) → R.term_count weighted.rule ≤ room
            → IsReady R.Entries cells.now.n room kept) }
        ensures exact { IfOk result (λ kept. IsExact R.Entries (table_counts cells.now) kept) }
        ensures steps { steps.new ≤ steps.old + R.term_count weighted.rule }
    {
        let watched = watched_teams(alloc, &weighted.rule)?;
        let vector = entries_of(alloc, &weighted.rule, cells, steps)?;
        let deviation = total(&vector);
        at_most_half_word(weighted.penalty);
        Ok(Kept {
            weighted,
            watched,
            vector,
            deviation,
        })
    }
}

/// The teams that a rule watches.
fn watched_teams<R: Entries>(alloc: Global, rule: &R) -> Result<Vec<TeamId>, AllocError>
    ensures of_league { IfOk result (λ teams. All (λ t. t.0 < R.team_count rule.now) teams.items) }
    ensures watched { IfOk result (λ teams. HasWatched R.Entries rule.now teams.items) }
{
    let mut teams = Vec::new(alloc);
    for number in 0..rule.teams() {
        let team = TeamId(number);
        if rule.watches(team) {
            teams.push(team)?;
        }
    }
    Ok(teams)
}

/// Evaluates each entry of some rules, in their order.
pub(crate) fn keep_rules<R: Rule<L>, L>(
    alloc: Global,
    rules: Vec<Weighted<R>>,
    cells: &Cells,
    room: usize,
    steps: &mut Steps<L>,
) -> Result<Vec<Kept<R>>, AllocError>
    requires teams { All (λ w. R.team_count w.rule ≡ cells.now.n) rules.items }
    requires room { All (λ w. R.term_count w.rule ≤ room) rules.items }
    requires few { all_terms R.Entries rules.items < 2 ^ 31 }
    ensures weights { IfOk result (λ kept. map (λ k. k.weighted) kept.items ≡ rules.items) }
    ensures ready { IfOk result (λ kept. All (IsReady R.Entries cells.now.n room) kept.items) }
    ensures exact { IfOk result (λ kept. All (IsExact R.Entries (table_counts cells.now)) kept.items) }
    ensures steps { steps.new ≤ steps.old + all_terms R.Entries rules.items }
{
    let mut kept = Vec::new(alloc);
    for weighted in rules {
        kept.push(Kept::new(alloc, weighted, cells, steps)?)?;
    }
    Ok(kept)
}

/// What kept rules cost.
pub(crate) fn costs<R: Entries>(rules: &[Kept<R>], cells: &Cells, room: usize) -> Sums
    requires ready { All (IsReady R.Entries cells.now.n room) rules.now }
    requires few { sum_by (λ k. length k.vector.items) rules.now < 2 ^ 31 }
    ensures infeasibility { result.infeasibility ≡ sum_by hard_cost rules.now }
    ensures objective { result.objective ≡ sum_by soft_cost rules.now }
{
    let mut sums = Sums {
        infeasibility: 0,
        objective: 0,
    };
    for kept in rules {
        sums.add(kept);
    }
    sums
}

impl Sums {
    /// Adds what a rule costs.
    fn add<R: Entries>(&mut self, kept: &Kept<R>)
        requires few { length kept.now.vector.items < 2 ^ 31 }
        requires small { kept.now.deviation ≤ 2 ^ 64 * length kept.now.vector.items }
        requires infeasibility_room { self.old.infeasibility ≤ 2 ^ 127 }
        requires objective_room { self.old.objective ≤ 2 ^ 127 }
        ensures infeasibility { self.new.infeasibility ≡ self.old.infeasibility + hard_cost kept.now }
        ensures objective { self.new.objective ≡ self.old.objective + soft_cost kept.now }
    {
        let cost = kept.cost();
        if kept.weighted.hard {
            self.infeasibility += cost;
        } else {
            self.objective += cost;
        }
    }
}

/// The larger of two numbers.
fn larger(a: usize, b: usize) -> usize
    ensures first { a ≤ result }
    ensures second { b ≤ result }
{
    if a < b { b } else { a }
}

/// What is known of a penalty: that it is of 32 bits.
fn at_most_half_word(penalty: u32)
    ensures { penalty < 2 ^ 32 }
{}
