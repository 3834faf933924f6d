//! GA1: from so many to so many games of some meetings in some slots.
ghost use Rattle.std.specs.Prelude.{◌≡◌, ◌<◌, ◌≤◌, IfOk, IsTrue};
ghost use Rattle.league.specs.declared.class.Class.TheVariants as class;
ghost use Rattle.rule_core.specs.Ready.{IsReady};

use crate::by_slot::games_by_slot;
use league::{Class, ClassName, Constraint, Game, TeamId};
use rule_core::{Cells, Entries, Keys, Listed, Meetings, Rule, Steps, outside};
use std::alloc::{AllocError, Global};

/// How far the games of some meetings in some slots are outside of `min` to `max`: one entry.
#[derive(Drop)]
pub struct Ga1 {
    meetings: Meetings,
    /// Whether the meetings are more than the teams, so that a slot is sooner gone over by its home teams.
    are_many: bool,
    min: u32,
    max: u32,
    slots: Listed,
    ghost ready: { IsReady meetings.n (class.Ga1 meetings.list min max slots) },
}

impl Ga1 {
    ghost use Rattle.league.specs.Instance.{class_fits};
    ghost use Rattle.league.specs.Names.{name_of};
    ghost use Rattle.rule_core.specs.Rule.{IsRuleOf};

    /// The rule of a GA1 that fits a league of n teams.
    ///
    /// # Errors
    /// Only where memory runs out.
    pub fn new(alloc: Global, n: u16, constraint: &Constraint) -> Result<Ga1, AllocError>
        requires at_most { n ≤ 40 }
        requires class { name_of constraint.now.class ≡ ClassName.Ga1 }
        requires fits { IsTrue (class_fits n constraint.now.class) }
        ensures rule { IfOk result (IsRuleOf ⟦<Ga1 as Entries>⟧ n constraint.now.class) }
    {
        let Class::Ga1 {
            meetings,
            min,
            max,
            slots,
        } = &constraint.class
        else {
            unreachable!()
        };
        Ok(Ga1 {
            meetings: Meetings::of_set(alloc, n, meetings)?,
            are_many: meetings.len() > n as usize,
            min: *min,
            max: *max,
            slots: Listed::of_slots(alloc, n, slots)?,
        })
    }
}

impl Ga1 {
    ghost use Rattle.league.specs.Meetings.{games_of};
    ghost use Rattle.rule_core.specs.Table.{table_counts};
    ghost use Rattle.rule_core.specs.Touched.{is_host};

    /// Whether a team is at home in one of the meetings: a look-up for each team that can be its guest.
    fn is_host(&self, team: TeamId) -> bool
        requires team { team.0 < self.now.meetings.n }
        ensures { result ≡ is_host self.now.meetings.list team.0 }
    {
        (0..self.meetings.n()).any(|away| self.meetings.has(team, TeamId(away)))
    }

    /// The games of the meetings in the slots: meeting by meeting, or slot by slot where there are many.
    fn games(&self, cells: &Cells) -> u64
        requires teams { cells.now.n ≡ self.now.meetings.n }
        ensures { result ≡ games_of (table_counts cells.now) self.now.meetings.list self.now.slots }
    {
        let slots = self.slots.numbers();
        if self.are_many {
            games_by_slot(&self.meetings, cells, slots)
        } else {
            self.meetings.games(cells, slots)
        }
    }
}

impl Entries for Ga1 {
    ghost use Rattle.league.specs.Deviation.{entry_of};
    ghost use Rattle.rule_core.specs.Ready.{entry_count};
    ghost use Rattle.rule_core.specs.Touched.{is_watched, most_touched, touched_keys};
    ghost use Rattle.rule_core.proofs.FrameLemmas.{touched_keys-frame};
    ghost use Rattle.rule_core.proofs.TouchedLemmas.{touched_keys-ascending, touched_keys-below, touched_keys-few};
    ghost use Rattle.rule_core.proofs.WatchLemmas.{touched_keys-quiet};
    ghost use Rattle.deviation.specs.Ga1.{class_of};

    ghost team_count = { λ r. r.meetings.n };

    ghost term_count = { λ r. entry_count (class_of r) };

    ghost reach_of = { λ r. most_touched (class_of r) };

    ghost entry = { λ r k m. entry_of r.meetings.n m (class_of r) k };

    ghost touches = { λ r. touched_keys (class_of r) };

    ghost watched = { λ r. is_watched (class_of r) };

    ghost few = { λ r. touched_keys-few r.meetings.n (class_of r) r.ready };

    ghost below = { λ r g fits. touched_keys-below (class_of r) g };

    ghost ascending = { λ r g fits. touched_keys-ascending (class_of r) g };

    ghost frame = { λ r. touched_keys-frame r.meetings.n (class_of r) };

    ghost quiet = { λ r g fits. touched_keys-quiet (class_of r) g };

    fn teams(&self) -> u16 {
        self.meetings.n()
    }

    fn terms(&self) -> usize {
        1
    }

    fn reach(&self) -> usize {
        1
    }

    fn touched(&self, game: Game, keys: &mut Keys) {
        if self.meetings.has(game.home, game.away) && self.slots.has(game.slot.0) {
            keys.push(0);
        }
    }

    fn watches(&self, team: TeamId) -> bool {
        self.is_host(team)
    }
}

impl<L> Rule<L> for Ga1 {
    fn term(&self, _key: usize, cells: &Cells, steps: &mut Steps<L>) -> u64 {
        steps.tick();
        let games = self.games(cells);
        outside(self.min, self.max, games)
    }
}
