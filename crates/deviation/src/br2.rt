//! BR2: at most so many breaks of all of some teams together, at some slots.
ghost use Rattle.std.specs.Prelude.{◌≡◌, ◌≤◌, IfOk, IsTrue};
ghost use Rattle.league.specs.declared.class.Class.TheVariants as class;
ghost use Rattle.rule_core.specs.Ready.{IsReady};

use crate::break_sums::all_breaks;
use crate::scope::Scope;
use league::{Class, ClassName, Constraint, Game, TeamId};
use rule_core::{Cells, Entries, Keys, Rule, Steps};
use std::alloc::{AllocError, Global};

/// The breaks of some teams together, at home and away, at some slots, beyond a bound: one entry.
#[derive(Drop)]
pub struct Br2 {
    n: u16,
    scope: Scope,
    intp: u32,
    ghost ready: { IsReady n (class.Br2 scope.teams intp scope.slots) },
}

impl Br2 {
    ghost use Rattle.league.specs.Instance.{class_fits};
    ghost use Rattle.league.specs.Names.{name_of};
    ghost use Rattle.rule_core.specs.Rule.{IsRuleOf};

    /// The rule of a BR2 that fits a league of n teams, n at most 40.
    ///
    /// # Errors
    /// Only where memory runs out.
    pub fn new(alloc: Global, n: u16, constraint: &Constraint) -> Result<Br2, AllocError>
        requires at_most { n ≤ 40 }
        requires class { name_of constraint.now.class ≡ ClassName.Br2 }
        requires fits { IsTrue (class_fits n constraint.now.class) }
        ensures rule { IfOk result (IsRuleOf ⟦<Br2 as Entries>⟧ n constraint.now.class) }
    {
        let Class::Br2 { teams, intp, slots } = &constraint.class else {
            unreachable!()
        };
        Ok(Br2 {
            n,
            scope: Scope::of(alloc, n, teams, slots)?,
            intp: *intp,
        })
    }
}

impl Entries for Br2 {
    ghost use Rattle.league.specs.Deviation.{entry_of};
    ghost use Rattle.rule_core.specs.Ready.{entry_count};
    ghost use Rattle.rule_core.specs.Touched.{is_watched, most_touched, touched_keys};
    ghost use Rattle.rule_core.proofs.FrameLemmas.{touched_keys-frame};
    ghost use Rattle.rule_core.proofs.TouchedLemmas.{touched_keys-ascending, touched_keys-below, touched_keys-few};
    ghost use Rattle.rule_core.proofs.WatchLemmas.{touched_keys-quiet};
    ghost use Rattle.deviation.specs.Br2.{class_of};

    ghost team_count = { λ r. r.n };

    ghost term_count = { λ r. entry_count (class_of r) };

    ghost reach_of = { λ r. most_touched (class_of r) };

    ghost entry = { λ r k m. entry_of r.n m (class_of r) k };

    ghost touches = { λ r. touched_keys (class_of r) };

    ghost watched = { λ r. is_watched (class_of r) };

    ghost few = { λ r. touched_keys-few r.n (class_of r) r.ready };

    ghost below = { λ r g fits. touched_keys-below (class_of r) g };

    ghost ascending = { λ r g fits. touched_keys-ascending (class_of r) g };

    ghost frame = { λ r. touched_keys-frame r.n (class_of r) };

    ghost quiet = { λ r g fits. touched_keys-quiet (class_of r) g };

    fn teams(&self) -> u16 {
        self.n
    }

    fn terms(&self) -> usize {
        1
    }

    fn reach(&self) -> usize {
        1
    }

    fn touched(&self, game: Game, keys: &mut Keys) {
        if self.scope.can_break(game.slot) && self.scope.has_team(game) {
            keys.push(0);
        }
    }

    fn watches(&self, team: TeamId) -> bool {
        self.scope.teams.has(team.0)
    }
}

impl<L> Rule<L> for Br2 {
    fn term(&self, _key: usize, cells: &Cells, steps: &mut Steps<L>) -> u64 {
        steps.tick();
        let breaks = all_breaks(cells, self.scope.teams.numbers(), &self.scope);
        breaks.saturating_sub(u64::from(self.intp))
    }
}
