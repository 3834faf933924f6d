//! SE1: at least so many slots between the games of the same two teams.
ghost use Rattle.std.specs.Prelude.{◌≡◌, ◌≤◌, IfOk, IsTrue};
ghost use Rattle.league.specs.declared.class.Class.TheVariants as class;
ghost use Rattle.rule_core.specs.Ready.{IsReady};

use crate::gaps::lacking;
use crate::team_gaps::push_lacking;
use league::{Class, ClassName, Constraint, Game, TeamId};
use rule_core::{Cells, Entries, Keys, Pairs, Rule, Steps};
use std::alloc::{AllocError, Global};

/// What the slots between neighbouring games of two teams lack of `min`: one entry for each two of some teams.
#[derive(Drop)]
pub struct Se1 {
    n: u16,
    pairs: Pairs,
    min: u32,
    ghost ready: { IsReady n (class.Se1 pairs min) },
}

impl Se1 {
    ghost use Rattle.league.specs.Instance.{class_fits};
    ghost use Rattle.league.specs.Names.{name_of};
    ghost use Rattle.rule_core.specs.Rule.{IsRuleOf};

    /// The rule of an SE1 that fits a league of n teams.
    ///
    /// # Errors
    /// Only where memory runs out.
    pub fn new(alloc: Global, n: u16, constraint: &Constraint) -> Result<Se1, AllocError>
        requires at_most { n ≤ 40 }
        requires class { name_of constraint.now.class ≡ ClassName.Se1 }
        requires fits { IsTrue (class_fits n constraint.now.class) }
        ensures rule { IfOk result (IsRuleOf ⟦<Se1 as Entries>⟧ n constraint.now.class) }
    {
        let Class::Se1 { teams, min } = &constraint.class else {
            unreachable!()
        };
        Ok(Se1 {
            n,
            pairs: Pairs::of_teams(alloc, n, teams)?,
            min: *min,
        })
    }
}

impl Entries for Se1 {
    ghost use Rattle.league.specs.Deviation.{entry_of};
    ghost use Rattle.rule_core.specs.Ready.{entry_count};
    ghost use Rattle.rule_core.specs.Touched.{is_watched, most_touched, touched_keys};
    ghost use Rattle.rule_core.proofs.FrameLemmas.{touched_keys-frame};
    ghost use Rattle.rule_core.proofs.TouchedLemmas.{touched_keys-ascending, touched_keys-below, touched_keys-few};
    ghost use Rattle.rule_core.proofs.WatchLemmas.{touched_keys-quiet};
    ghost use Rattle.deviation.specs.Se1.{class_of};

    ghost team_count = { λ r. r.n };

    ghost term_count = { λ r. entry_count (class_of r) };

    ghost reach_of = { λ r. most_touched (class_of r) };

    ghost entry = { λ r k m. entry_of r.n m (class_of r) k };

    ghost touches = { λ r. touched_keys (class_of r) };

    ghost watched = { λ r. is_watched (class_of r) };

    ghost few = { λ r. touched_keys-few r.n (class_of r) r.ready };

    ghost below = { λ r g fits. touched_keys-below (class_of r) g };

    ghost ascending = { λ r g fits. touched_keys-ascending (class_of r) g };

    ghost frame = { λ r. touched_keys-frame r.n (class_of r) };

    ghost quiet = { λ r g fits. touched_keys-quiet (class_of r) g };

    fn teams(&self) -> u16 {
        self.n
    }

    fn terms(&self) -> usize {
        self.pairs.len()
    }

    fn reach(&self) -> usize {
        1
    }

    fn touched(&self, game: Game, keys: &mut Keys) {
        self.pairs.push_key(game.home.0, game.away.0, keys);
    }

    fn watches(&self, team: TeamId) -> bool {
        self.pairs.teams().contains(&team.0)
    }
}

impl<L> Rule<L> for Se1 {
    fn term(&self, key: usize, cells: &Cells, steps: &mut Steps<L>) -> u64 {
        steps.tick();
        let (first, second) = self.pairs.get(key);
        lacking(cells, first, second, self.min)
    }

    /// Each team's slots are gone over once for all its pairs.
    fn every(&self, cells: &Cells, entries: &mut Vec<u64>, steps: &mut Steps<L>) {
        push_lacking(cells, self.pairs.teams(), self.min, entries);
        steps.tick_all(self.pairs.len());
    }
}
