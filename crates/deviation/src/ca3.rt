//! CA3: from so many to so many games of a team against some others, at home, away or both, in each window of
//! consecutive slots.
ghost use Rattle.std.specs.Prelude.{◌≡◌, ℕ, ◌<◌, ◌≤◌, ◌+◌, ◌-◌, length, slice_index, IfOk, IsTrue};
ghost use Rattle.std.specs.List.{range_with_len, sum_by};
ghost use Rattle.league.specs.Bounds as bounds;
ghost use Rattle.league.specs.declared.class.Class.TheVariants as class;
ghost use Rattle.rule_core.specs.Ready.{IsReady};

use crate::opponents::Opponents;
use league::{Class, ClassName, Constraint, Game, TeamId};
use rule_core::{Cells, Entries, Keys, Rule, Steps, outside};
use std::alloc::{AllocError, Global};

/// How far the games of each of some teams against others, at home, away or both, are outside of `min` to `max` in each
/// window of so many consecutive slots: one entry for each team, summed over the windows.
#[derive(Drop)]
pub struct Ca3 {
    n: u16,
    opponents: Opponents,
    min: u32,
    max: u32,
    intp: u32,
    ghost ready: { IsReady n (class.Ca3 opponents.teams1 opponents.teams2 min max intp opponents.side) },
}

impl Ca3 {
    ghost use Rattle.league.specs.Instance.{class_fits};
    ghost use Rattle.league.specs.Names.{name_of};
    ghost use Rattle.rule_core.specs.Rule.{IsRuleOf};

    /// The rule of a CA3 that fits a league of n teams. A season has no window that is longer than itself, so the
    /// entries are then 0.
    ///
    /// # Errors
    /// Only where memory runs out.
    pub fn new(alloc: Global, n: u16, constraint: &Constraint) -> Result<Ca3, AllocError>
        requires at_most { n ≤ 40 }
        requires class { name_of constraint.now.class ≡ ClassName.Ca3 }
        requires fits { IsTrue (class_fits n constraint.now.class) }
        ensures rule { IfOk result (IsRuleOf ⟦<Ca3 as Entries>⟧ n constraint.now.class) }
    {
        let Class::Ca3 {
            teams1,
            teams2,
            min,
            max,
            intp,
            side,
        } = &constraint.class
        else {
            unreachable!()
        };
        Ok(Ca3 {
            n,
            opponents: Opponents::of(alloc, n, teams1, teams2, *side)?,
            min: *min,
            max: *max,
            intp: *intp,
        })
    }
}

impl Entries for Ca3 {
    ghost use Rattle.league.specs.Deviation.{entry_of};
    ghost use Rattle.rule_core.specs.Ready.{entry_count};
    ghost use Rattle.rule_core.specs.Touched.{is_watched, most_touched, touched_keys};
    ghost use Rattle.rule_core.proofs.FrameLemmas.{touched_keys-frame};
    ghost use Rattle.rule_core.proofs.TouchedLemmas.{touched_keys-ascending, touched_keys-below, touched_keys-few};
    ghost use Rattle.rule_core.proofs.WatchLemmas.{touched_keys-quiet};
    ghost use Rattle.deviation.specs.Ca3.{class_of};

    ghost team_count = { λ r. r.n };

    ghost term_count = { λ r. entry_count (class_of r) };

    ghost reach_of = { λ r. most_touched (class_of r) };

    ghost entry = { λ r k m. entry_of r.n m (class_of r) k };

    ghost touches = { λ r. touched_keys (class_of r) };

    ghost watched = { λ r. is_watched (class_of r) };

    ghost few = { λ r. touched_keys-few r.n (class_of r) r.ready };

    ghost below = { λ r g fits. touched_keys-below (class_of r) g };

    ghost ascending = { λ r g fits. touched_keys-ascending (class_of r) g };

    ghost frame = { λ r. touched_keys-frame r.n (class_of r) };

    ghost quiet = { λ r g fits. touched_keys-quiet (class_of r) g };

    fn teams(&self) -> u16 {
        self.n
    }

    fn terms(&self) -> usize {
        self.opponents.teams1.len()
    }

    fn reach(&self) -> usize {
        2
    }

    fn touched(&self, game: Game, keys: &mut Keys) {
        self.opponents.touched(game, keys);
    }

    fn watches(&self, team: TeamId) -> bool {
        self.opponents.teams1.has(team.0)
    }
}

impl<L> Rule<L> for Ca3 {
    fn term(&self, key: usize, cells: &Cells, steps: &mut Steps<L>) -> u64 {
        steps.tick();
        let slots = cells.slots() as usize;
        if self.intp as usize > slots {
            return 0;
        }
        let before = self.opponents.games_before(key, cells);
        outside_in_windows(&before, slots, self.intp as usize, self.min, self.max)
    }
}

/// From the games before each slot, and before the end, of a season: how far those in each window are outside of `min`
/// to `max`, summed. The games in a window are those before its end, less those before its first slot.
fn outside_in_windows(before: &[u64], slots: usize, intp: usize, min: u32, max: u32) -> u64
    requires slots { slots < length before.now }
    requires few { slots ≤ 78 }
    requires at_most { (t : ℕ) → slice_index before.now t ≤ 121680000 }
    ensures { result ≡ sum_by
        (λ first. bounds.outside min max (slice_index before.now (first + intp) - slice_index before.now first))
        (range_with_len 0 (slots + 1 - intp)) }
{
    let mut sum = 0;
    for first in 0..(slots + 1).saturating_sub(intp) {
        let games = before[first + intp].saturating_sub(before[first]);
        sum += outside(min, max, games);
    }
    sum
}
