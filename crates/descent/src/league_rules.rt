//! The rules of a league's constraints, and the tally of them.
ghost use Rattle.std.specs.Prelude.{◌≡◌, ◌<◌, ◌≤◌, ◌+◌, ◌^◌, length, IfOk, IsTrue};
ghost use Rattle.std.specs.List.{All, sum};
ghost use Rattle.league.specs.Counts.{counts_of};
ghost use Rattle.league.specs.Instance.{IsGame, class_fits};
ghost use Rattle.rule_core.specs.Table.{table_counts};
ghost use Rattle.descent.specs.League.{AreRulesOf, IsWeightedOf, price_of};
ghost use Rattle.descent.specs.Tallies.{all_terms};

use crate::tally::Tally;
use crate::weighted::Weighted;
use deviation::{AnyRule, counted};
use league::{Constraint, Game, League};
use rule_core::{Entries, Steps};
use std::alloc::{AllocError, Global};

/// What a unit of a constraint's deviation costs, where one of a hard constraint costs at least so much.
fn price(constraint: &Constraint, least: u32) -> u32
    ensures { result ≡ price_of least constraint.now }
{
    if constraint.hard {
        constraint.penalty.max(least)
    } else {
        constraint.penalty
    }
}

/// The weighted rule of a constraint that fits a league of n teams.
fn weighted_rule(
    alloc: Global,
    n: u16,
    constraint: &Constraint,
    least: u32,
) -> Result<Weighted<AnyRule>, AllocError>
    requires at_most { n ≤ 40 }
    requires fits { IsTrue (class_fits n constraint.now.class) }
    ensures { IfOk result (IsWeightedOf ⟦<AnyRule as Entries>⟧ n least constraint.now) }
{
    Ok(Weighted {
        rule: AnyRule::new(alloc, n, constraint)?,
        hard: constraint.hard,
        penalty: price(constraint, least),
    })
}

/// The weighted rules of a league's constraints, in their order, each with its penalty, but that of a hard constraint
/// is at least `least`. With 0 the penalties stay as they are; with 1 no hard constraint is free, so that the hard
/// rules cost nothing only where each hard constraint is met.
///
/// # Errors
/// Only where memory runs out.
pub fn weighted_rules(
    alloc: Global,
    league: &League,
    least: u32,
) -> Result<Vec<Weighted<AnyRule>>, AllocError>
    ensures rules { IfOk result (λ rules. AreRulesOf ⟦<AnyRule as Entries>⟧ least league.now rules.items) }
    ensures teams { IfOk result (λ rules. All (λ w. ⟦<AnyRule as Entries>⟧.team_count w.rule ≡ league.now.n)
        rules.items) }
    ensures few { IfOk result (λ rules. all_terms ⟦<AnyRule as Entries>⟧ rules.items < 2 ^ 31) }
{
    let n = league.n();
    let mut rules = Vec::new(alloc);
    for constraint in league.constraints() {
        let weighted = weighted_rule(alloc, n, constraint, least)?;
        rules.push(weighted)?;
    }
    Ok(rules)
}

/// The tally of a league's constraints on at most 10,000 games, weighted as `weighted_rules` does.
///
/// # Errors
/// Only where memory runs out.
pub fn league_tally<L>(
    alloc: Global,
    league: &League,
    least: u32,
    games: &[Game],
    steps: &mut Steps<L>,
) -> Result<Tally<AnyRule>, AllocError>
    requires few { length games.now ≤ 10000 }
    requires fit { All (IsGame league.now.n) games.now }
    ensures rules { IfOk result (λ tally. AreRulesOf ⟦<AnyRule as Entries>⟧ least league.now tally.weights) }
    ensures n { IfOk result (λ tally. tally.table.n ≡ league.now.n) }
    ensures counts { IfOk result (λ tally. table_counts tally.table ≡ counts_of games.now) }
    ensures total { IfOk result (λ tally. sum tally.table.list ≡ length games.now) }

    // Each entry is evaluated once.
    ensures steps { IfOk result (λ tally. steps.new
        ≤ steps.old + all_terms ⟦<AnyRule as Entries>⟧ tally.weights) }
{
    let cells = counted(alloc, league.n(), games)?;
    let rules = weighted_rules(alloc, league, least)?;
    Tally::new(alloc, rules, cells, steps)
}
