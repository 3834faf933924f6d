//! A rule of any class.
ghost use Rattle.std.specs.Prelude.{◌≤◌, IfOk, IsTrue};
ghost use Rattle.league.specs.Instance.{class_fits};
ghost use Rattle.rule_core.specs.Rule.{IsRuleOf};

use crate::br1::Br1;
use crate::br2::Br2;
use crate::ca1::Ca1;
use crate::ca2::Ca2;
use crate::ca3::Ca3;
use crate::ca4::Ca4;
use crate::fa2::Fa2;
use crate::ga1::Ga1;
use crate::se1::Se1;
use league::{ClassName, Constraint, Game, TeamId};
use rule_core::{Cells, Entries, Keys, Rule, Steps};
use std::alloc::{AllocError, Global};

/// A constraint of any of the nine classes of the competition (RobinX, ITC 2021), ready for evaluation.
pub enum AnyRule {
    Ca1(Ca1),
    Ca2(Ca2),
    Ca3(Ca3),
    Ca4(Ca4),
    Ga1(Ga1),
    Br1(Br1),
    Br2(Br2),
    Fa2(Fa2),
    Se1(Se1),
}

impl Drop for AnyRule {
    fn drop(self) {
        match self {
            AnyRule::Ca1(_) => {}
            AnyRule::Ca2(_) => {}
            AnyRule::Ca3(_) => {}
            AnyRule::Ca4(_) => {}
            AnyRule::Ga1(_) => {}
            AnyRule::Br1(_) => {}
            AnyRule::Br2(_) => {}
            AnyRule::Fa2(_) => {}
            AnyRule::Se1(_) => {}
        }
    }
}

impl AnyRule {
    /// The rule of a constraint that fits a league of n teams.
    ///
    /// # Errors
    /// Only where memory runs out.
    pub fn new(alloc: Global, n: u16, constraint: &Constraint) -> Result<AnyRule, AllocError>
        requires at_most { n ≤ 40 }
        requires fits { IsTrue (class_fits n constraint.now.class) }
        ensures rule { IfOk result (IsRuleOf ⟦<AnyRule as Entries>⟧ n constraint.now.class) }
    {
        match constraint.class.name() {
            ClassName::Ca1 => Ok(AnyRule::Ca1(Ca1::new(alloc, n, constraint)?)),
            ClassName::Ca2 => Ok(AnyRule::Ca2(Ca2::new(alloc, n, constraint)?)),
            ClassName::Ca3 => Ok(AnyRule::Ca3(Ca3::new(alloc, n, constraint)?)),
            ClassName::Ca4 => Ok(AnyRule::Ca4(Ca4::new(alloc, n, constraint)?)),
            ClassName::Ga1 => Ok(AnyRule::Ga1(Ga1::new(alloc, n, constraint)?)),
            ClassName::Br1 => Ok(AnyRule::Br1(Br1::new(alloc, n, constraint)?)),
            ClassName::Br2 => Ok(AnyRule::Br2(Br2::new(alloc, n, constraint)?)),
            ClassName::Fa2 => Ok(AnyRule::Fa2(Fa2::new(alloc, n, constraint)?)),
            ClassName::Se1 => Ok(AnyRule::Se1(Se1::new(alloc, n, constraint)?)),
        }
    }
}

impl Entries for AnyRule {
    ghost use Rattle.deviation.specs.declared.any_rule.AnyRule.TheVariants.{Ca1, Ca2, Ca3, Ca4, Ga1};
    ghost use Rattle.deviation.specs.declared.any_rule.AnyRule.TheVariants.{Br1, Br2, Fa2, Se1};
    ghost use Rattle.deviation.specs.contracts.ca1.Ca1Entries.TheImpl.Laws as ca1_laws;
    ghost use Rattle.deviation.specs.contracts.ca2.Ca2Entries.TheImpl.Laws as ca2_laws;
    ghost use Rattle.deviation.specs.contracts.ca3.Ca3Entries.TheImpl.Laws as ca3_laws;
    ghost use Rattle.deviation.specs.contracts.ca4.Ca4Entries.TheImpl.Laws as ca4_laws;
    ghost use Rattle.deviation.specs.contracts.ga1.Ga1Entries.TheImpl.Laws as ga1_laws;
    ghost use Rattle.deviation.specs.contracts.br1.Br1Entries.TheImpl.Laws as br1_laws;
    ghost use Rattle.deviation.specs.contracts.br2.Br2Entries.TheImpl.Laws as br2_laws;
    ghost use Rattle.deviation.specs.contracts.fa2.Fa2Entries.TheImpl.Laws as fa2_laws;
    ghost use Rattle.deviation.specs.contracts.se1.Se1Entries.TheImpl.Laws as se1_laws;

    ghost team_count = { elim [
      | Ca1 r ↦ ⟦<Ca1 as Entries>⟧.team_count r
      | Ca2 r ↦ ⟦<Ca2 as Entries>⟧.team_count r
      | Ca3 r ↦ ⟦<Ca3 as Entries>⟧.team_count r
      | Ca4 r ↦ ⟦<Ca4 as Entries>⟧.team_count r
      | Ga1 r ↦ ⟦<Ga1 as Entries>⟧.team_count r
      | Br1 r ↦ ⟦<Br1 as Entries>⟧.team_count r
      | Br2 r ↦ ⟦<Br2 as Entries>⟧.team_count r
      | Fa2 r ↦ ⟦<Fa2 as Entries>⟧.team_count r
      | Se1 r ↦ ⟦<Se1 as Entries>⟧.team_count r
    ] };

    ghost term_count = { elim [
      | Ca1 r ↦ ⟦<Ca1 as Entries>⟧.term_count r
      | Ca2 r ↦ ⟦<Ca2 as Entries>⟧.term_count r
      | Ca3 r ↦ ⟦<Ca3 as Entries>⟧.term_count r
      | Ca4 r ↦ ⟦<Ca4 as Entries>⟧.term_count r
      | Ga1 r ↦ ⟦<Ga1 as Entries>⟧.term_count r
      | Br1 r ↦ ⟦<Br1 as Entries>⟧.term_count r
      | Br2 r ↦ ⟦<Br2 as Entries>⟧.term_count r
      | Fa2 r ↦ ⟦<Fa2 as Entries>⟧.term_count r
      | Se1 r ↦ ⟦<Se1 as Entries>⟧.term_count r
    ] };

    ghost reach_of = { elim [
      | Ca1 r ↦ ⟦<Ca1 as Entries>⟧.reach_of r
      | Ca2 r ↦ ⟦<Ca2 as Entries>⟧.reach_of r
      | Ca3 r ↦ ⟦<Ca3 as Entries>⟧.reach_of r
      | Ca4 r ↦ ⟦<Ca4 as Entries>⟧.reach_of r
      | Ga1 r ↦ ⟦<Ga1 as Entries>⟧.reach_of r
      | Br1 r ↦ ⟦<Br1 as Entries>⟧.reach_of r
      | Br2 r ↦ ⟦<Br2 as Entries>⟧.reach_of r
      | Fa2 r ↦ ⟦<Fa2 as Entries>⟧.reach_of r
      | Se1 r ↦ ⟦<Se1 as Entries>⟧.reach_of r
    ] };

    ghost entry = { elim [
      | Ca1 r ↦ ⟦<Ca1 as Entries>⟧.entry r
      | Ca2 r ↦ ⟦<Ca2 as Entries>⟧.entry r
      | Ca3 r ↦ ⟦<Ca3 as Entries>⟧.entry r
      | Ca4 r ↦ ⟦<Ca4 as Entries>⟧.entry r
      | Ga1 r ↦ ⟦<Ga1 as Entries>⟧.entry r
      | Br1 r ↦ ⟦<Br1 as Entries>⟧.entry r
      | Br2 r ↦ ⟦<Br2 as Entries>⟧.entry r
      | Fa2 r ↦ ⟦<Fa2 as Entries>⟧.entry r
      | Se1 r ↦ ⟦<Se1 as Entries>⟧.entry r
    ] };

    ghost touches = { elim [
      | Ca1 r ↦ ⟦<Ca1 as Entries>⟧.touches r
      | Ca2 r ↦ ⟦<Ca2 as Entries>⟧.touches r
      | Ca3 r ↦ ⟦<Ca3 as Entries>⟧.touches r
      | Ca4 r ↦ ⟦<Ca4 as Entries>⟧.touches r
      | Ga1 r ↦ ⟦<Ga1 as Entries>⟧.touches r
      | Br1 r ↦ ⟦<Br1 as Entries>⟧.touches r
      | Br2 r ↦ ⟦<Br2 as Entries>⟧.touches r
      | Fa2 r ↦ ⟦<Fa2 as Entries>⟧.touches r
      | Se1 r ↦ ⟦<Se1 as Entries>⟧.touches r
    ] };

    ghost watched = { elim [
      | Ca1 r ↦ ⟦<Ca1 as Entries>⟧.watched r
      | Ca2 r ↦ ⟦<Ca2 as Entries>⟧.watched r
      | Ca3 r ↦ ⟦<Ca3 as Entries>⟧.watched r
      | Ca4 r ↦ ⟦<Ca4 as Entries>⟧.watched r
      | Ga1 r ↦ ⟦<Ga1 as Entries>⟧.watched r
      | Br1 r ↦ ⟦<Br1 as Entries>⟧.watched r
      | Br2 r ↦ ⟦<Br2 as Entries>⟧.watched r
      | Fa2 r ↦ ⟦<Fa2 as Entries>⟧.watched r
      | Se1 r ↦ ⟦<Se1 as Entries>⟧.watched r
    ] };

    ghost few = { elim [
      | Ca1 r ↦ ca1_laws.few-law r
      | Ca2 r ↦ ca2_laws.few-law r
      | Ca3 r ↦ ca3_laws.few-law r
      | Ca4 r ↦ ca4_laws.few-law r
      | Ga1 r ↦ ga1_laws.few-law r
      | Br1 r ↦ br1_laws.few-law r
      | Br2 r ↦ br2_laws.few-law r
      | Fa2 r ↦ fa2_laws.few-law r
      | Se1 r ↦ se1_laws.few-law r
    ] };

    ghost below = { elim [
      | Ca1 r ↦ ca1_laws.below-law r
      | Ca2 r ↦ ca2_laws.below-law r
      | Ca3 r ↦ ca3_laws.below-law r
      | Ca4 r ↦ ca4_laws.below-law r
      | Ga1 r ↦ ga1_laws.below-law r
      | Br1 r ↦ br1_laws.below-law r
      | Br2 r ↦ br2_laws.below-law r
      | Fa2 r ↦ fa2_laws.below-law r
      | Se1 r ↦ se1_laws.below-law r
    ] };

    ghost ascending = { elim [
      | Ca1 r ↦ ca1_laws.ascending-law r
      | Ca2 r ↦ ca2_laws.ascending-law r
      | Ca3 r ↦ ca3_laws.ascending-law r
      | Ca4 r ↦ ca4_laws.ascending-law r
      | Ga1 r ↦ ga1_laws.ascending-law r
      | Br1 r ↦ br1_laws.ascending-law r
      | Br2 r ↦ br2_laws.ascending-law r
      | Fa2 r ↦ fa2_laws.ascending-law r
      | Se1 r ↦ se1_laws.ascending-law r
    ] };

    ghost frame = { elim [
      | Ca1 r ↦ ca1_laws.frame-law r
      | Ca2 r ↦ ca2_laws.frame-law r
      | Ca3 r ↦ ca3_laws.frame-law r
      | Ca4 r ↦ ca4_laws.frame-law r
      | Ga1 r ↦ ga1_laws.frame-law r
      | Br1 r ↦ br1_laws.frame-law r
      | Br2 r ↦ br2_laws.frame-law r
      | Fa2 r ↦ fa2_laws.frame-law r
      | Se1 r ↦ se1_laws.frame-law r
    ] };

    ghost quiet = { elim [
      | Ca1 r ↦ ca1_laws.quiet-law r
      | Ca2 r ↦ ca2_laws.quiet-law r
      | Ca3 r ↦ ca3_laws.quiet-law r
      | Ca4 r ↦ ca4_laws.quiet-law r
      | Ga1 r ↦ ga1_laws.quiet-law r
      | Br1 r ↦ br1_laws.quiet-law r
      | Br2 r ↦ br2_laws.quiet-law r
      | Fa2 r ↦ fa2_laws.quiet-law r
      | Se1 r ↦ se1_laws.quiet-law r
    ] };

    fn teams(&self) -> u16 {
        match self {
            AnyRule::Ca1(rule) => rule.teams(),
            AnyRule::Ca2(rule) => rule.teams(),
            AnyRule::Ca3(rule) => rule.teams(),
            AnyRule::Ca4(rule) => rule.teams(),
            AnyRule::Ga1(rule) => rule.teams(),
            AnyRule::Br1(rule) => rule.teams(),
            AnyRule::Br2(rule) => rule.teams(),
            AnyRule::Fa2(rule) => rule.teams(),
            AnyRule::Se1(rule) => rule.teams(),
        }
    }

    fn terms(&self) -> usize {
        match self {
            AnyRule::Ca1(rule) => rule.terms(),
            AnyRule::Ca2(rule) => rule.terms(),
            AnyRule::Ca3(rule) => rule.terms(),
            AnyRule::Ca4(rule) => rule.terms(),
            AnyRule::Ga1(rule) => rule.terms(),
            AnyRule::Br1(rule) => rule.terms(),
            AnyRule::Br2(rule) => rule.terms(),
            AnyRule::Fa2(rule) => rule.terms(),
            AnyRule::Se1(rule) => rule.terms(),
        }
    }

    fn reach(&self) -> usize {
        match self {
            AnyRule::Ca1(rule) => rule.reach(),
            AnyRule::Ca2(rule) => rule.reach(),
            AnyRule::Ca3(rule) => rule.reach(),
            AnyRule::Ca4(rule) => rule.reach(),
            AnyRule::Ga1(rule) => rule.reach(),
            AnyRule::Br1(rule) => rule.reach(),
            AnyRule::Br2(rule) => rule.reach(),
            AnyRule::Fa2(rule) => rule.reach(),
            AnyRule::Se1(rule) => rule.reach(),
        }
    }

    fn touched(&self, game: Game, keys: &mut Keys) {
        match self {
            AnyRule::Ca1(rule) => rule.touched(game, keys),
            AnyRule::Ca2(rule) => rule.touched(game, keys),
            AnyRule::Ca3(rule) => rule.touched(game, keys),
            AnyRule::Ca4(rule) => rule.touched(game, keys),
            AnyRule::Ga1(rule) => rule.touched(game, keys),
            AnyRule::Br1(rule) => rule.touched(game, keys),
            AnyRule::Br2(rule) => rule.touched(game, keys),
            AnyRule::Fa2(rule) => rule.touched(game, keys),
            AnyRule::Se1(rule) => rule.touched(game, keys),
        }
    }

    fn watches(&self, team: TeamId) -> bool {
        match self {
            AnyRule::Ca1(rule) => rule.watches(team),
            AnyRule::Ca2(rule) => rule.watches(team),
            AnyRule::Ca3(rule) => rule.watches(team),
            AnyRule::Ca4(rule) => rule.watches(team),
            AnyRule::Ga1(rule) => rule.watches(team),
            AnyRule::Br1(rule) => rule.watches(team),
            AnyRule::Br2(rule) => rule.watches(team),
            AnyRule::Fa2(rule) => rule.watches(team),
            AnyRule::Se1(rule) => rule.watches(team),
        }
    }
}

impl<L> Rule<L> for AnyRule {
    fn term(&self, key: usize, cells: &Cells, steps: &mut Steps<L>) -> u64 {
        match self {
            AnyRule::Ca1(rule) => rule.term(key, cells, steps),
            AnyRule::Ca2(rule) => rule.term(key, cells, steps),
            AnyRule::Ca3(rule) => rule.term(key, cells, steps),
            AnyRule::Ca4(rule) => rule.term(key, cells, steps),
            AnyRule::Ga1(rule) => rule.term(key, cells, steps),
            AnyRule::Br1(rule) => rule.term(key, cells, steps),
            AnyRule::Br2(rule) => rule.term(key, cells, steps),
            AnyRule::Fa2(rule) => rule.term(key, cells, steps),
            AnyRule::Se1(rule) => rule.term(key, cells, steps),
        }
    }

    fn every(&self, cells: &Cells, entries: &mut Vec<u64>, steps: &mut Steps<L>) {
        match self {
            AnyRule::Ca1(rule) => rule.every(cells, entries, steps),
            AnyRule::Ca2(rule) => rule.every(cells, entries, steps),
            AnyRule::Ca3(rule) => rule.every(cells, entries, steps),
            AnyRule::Ca4(rule) => rule.every(cells, entries, steps),
            AnyRule::Ga1(rule) => rule.every(cells, entries, steps),
            AnyRule::Br1(rule) => rule.every(cells, entries, steps),
            AnyRule::Br2(rule) => rule.every(cells, entries, steps),
            AnyRule::Fa2(rule) => rule.every(cells, entries, steps),
            AnyRule::Se1(rule) => rule.every(cells, entries, steps),
        }
    }
}
