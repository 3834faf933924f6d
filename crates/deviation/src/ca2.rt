//! CA2: from so many to so many games of a team against some others, at home, away or both, in some slots.
ghost use Rattle.std.specs.Prelude.{◌≡◌, ◌≤◌, IfOk, IsTrue};
ghost use Rattle.league.specs.declared.class.Class.TheVariants as class;
ghost use Rattle.rule_core.specs.Ready.{IsReady};

use crate::opponents::Opponents;
use league::{Class, ClassName, Constraint, Game, TeamId};
use rule_core::{Cells, Entries, Keys, Listed, Rule, Steps, outside};
use std::alloc::{AllocError, Global};

/// How far the games of each of some teams against others, at home, away or both, in some slots are outside of `min` to
/// `max`: one entry for each team.
#[derive(Drop)]
pub struct Ca2 {
    n: u16,
    opponents: Opponents,
    min: u32,
    max: u32,
    slots: Listed,
    ghost ready: { IsReady n (class.Ca2 opponents.teams1 opponents.teams2 min max opponents.side slots) },
}

impl Ca2 {
    ghost use Rattle.league.specs.Instance.{class_fits};
    ghost use Rattle.league.specs.Names.{name_of};
    ghost use Rattle.rule_core.specs.Rule.{IsRuleOf};

    /// The rule of a CA2 that fits a league of n teams.
    ///
    /// # Errors
    /// Only where memory runs out.
    pub fn new(alloc: Global, n: u16, constraint: &Constraint) -> Result<Ca2, AllocError>
        requires at_most { n ≤ 40 }
        requires class { name_of constraint.now.class ≡ ClassName.Ca2 }
        requires fits { IsTrue (class_fits n constraint.now.class) }
        ensures rule { IfOk result (IsRuleOf ⟦<Ca2 as Entries>⟧ n constraint.now.class) }
    {
        let Class::Ca2 {
            teams1,
            teams2,
            min,
            max,
            side,
            slots,
        } = &constraint.class
        else {
            unreachable!()
        };
        Ok(Ca2 {
            n,
            opponents: Opponents::of(alloc, n, teams1, teams2, *side)?,
            min: *min,
            max: *max,
            slots: Listed::of_slots(alloc, n, slots)?,
        })
    }
}

impl Entries for Ca2 {
    ghost use Rattle.league.specs.Deviation.{entry_of};
    ghost use Rattle.rule_core.specs.Ready.{entry_count};
    ghost use Rattle.rule_core.specs.Touched.{is_watched, most_touched, touched_keys};
    ghost use Rattle.rule_core.proofs.FrameLemmas.{touched_keys-frame};
    ghost use Rattle.rule_core.proofs.TouchedLemmas.{touched_keys-ascending, touched_keys-below, touched_keys-few};
    ghost use Rattle.rule_core.proofs.WatchLemmas.{touched_keys-quiet};
    ghost use Rattle.deviation.specs.Ca2.{class_of};

    ghost team_count = { λ r. r.n };

    ghost term_count = { λ r. entry_count (class_of r) };

    ghost reach_of = { λ r. most_touched (class_of r) };

    ghost entry = { λ r k m. entry_of r.n m (class_of r) k };

    ghost touches = { λ r. touched_keys (class_of r) };

    ghost watched = { λ r. is_watched (class_of r) };

    ghost few = { λ r. touched_keys-few r.n (class_of r) r.ready };

    ghost below = { λ r g fits. touched_keys-below (class_of r) g };

    ghost ascending = { λ r g fits. touched_keys-ascending (class_of r) g };

    ghost frame = { λ r. touched_keys-frame r.n (class_of r) };

    ghost quiet = { λ r g fits. touched_keys-quiet (class_of r) g };

    fn teams(&self) -> u16 {
        self.n
    }

    fn terms(&self) -> usize {
        self.opponents.teams1.len()
    }

    fn reach(&self) -> usize {
        2
    }

    fn touched(&self, game: Game, keys: &mut Keys) {
        if self.slots.has(game.slot.0) {
            self.opponents.touched(game, keys);
        }
    }

    fn watches(&self, team: TeamId) -> bool {
        self.opponents.teams1.has(team.0)
    }
}

impl<L> Rule<L> for Ca2 {
    fn term(&self, key: usize, cells: &Cells, steps: &mut Steps<L>) -> u64 {
        steps.tick();
        let games = self.opponents.games_in(key, cells, self.slots.numbers());
        outside(self.min, self.max, games)
    }
}
