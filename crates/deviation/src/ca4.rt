//! CA4: from so many to so many games of some teams with others in some slots, together or in each slot.
ghost use Rattle.std.specs.Prelude.{◌≡◌, ◌<◌, ◌≤◌, ◌+◌, [], length, slice_index_or, IfOk, IsTrue};
ghost use Rattle.std.specs.List.{filter};
ghost use Rattle.league.specs.Counts.{teams_of};
ghost use Rattle.league.specs.Deviation.{spans};
ghost use Rattle.league.specs.Sets.{is_in};
ghost use Rattle.league.specs.declared.class.Class.TheVariants as class;
ghost use Rattle.deviation.specs.Between.{can_host};
ghost use Rattle.rule_core.specs.Keys.{keys_where, with_keys};
ghost use Rattle.rule_core.specs.Ready.{IsReady};

use crate::opponents::Opponents;
use league::{Class, ClassName, Constraint, Game, Span, TeamId};
use rule_core::{Cells, Entries, Keys, Listed, Rule, Steps, outside};
use std::alloc::{AllocError, Global};

/// How far the games of some teams with others, on a side of the former, in some slots are outside of `min` to `max`:
/// one entry for all the slots, or one for each.
#[derive(Drop)]
pub struct Ca4 {
    n: u16,
    opponents: Opponents,
    /// The teams that can be at home in a game of the former teams with the latter.
    hosts: Vec<u16>,
    min: u32,
    max: u32,
    span: Span,
    slots: Listed,
    ghost ready: { IsReady n (class.Ca4 opponents.teams1 opponents.teams2 min max opponents.side span slots) },
    ghost hosting: { hosts.items ≡ filter (can_host opponents.side opponents.teams1 opponents.teams2) (teams_of n) },
}

impl Ca4 {
    ghost use Rattle.league.specs.Instance.{class_fits};
    ghost use Rattle.league.specs.Names.{name_of};
    ghost use Rattle.rule_core.specs.Rule.{IsRuleOf};

    /// The rule of a CA4 that fits a league of n teams.
    ///
    /// # Errors
    /// Only where memory runs out.
    pub fn new(alloc: Global, n: u16, constraint: &Constraint) -> Result<Ca4, AllocError>
        requires at_most { n ≤ 40 }
        requires class { name_of constraint.now.class ≡ ClassName.Ca4 }
        requires fits { IsTrue (class_fits n constraint.now.class) }
        ensures rule { IfOk result (IsRuleOf ⟦<Ca4 as Entries>⟧ n constraint.now.class) }
    {
        let Class::Ca4 {
            teams1,
            teams2,
            min,
            max,
            side,
            span,
            slots,
        } = &constraint.class
        else {
            unreachable!()
        };
        let opponents = Opponents::of(alloc, n, teams1, teams2, *side)?;
        let hosts = opponents.hosts(alloc, n)?;
        Ok(Ca4 {
            n,
            opponents,
            hosts,
            min: *min,
            max: *max,
            span: *span,
            slots: Listed::of_slots(alloc, n, slots)?,
        })
    }

    /// Adds the key of a slot, where the slot is one of these: that of all of them together, or its own.
    fn push_slot(&self, slot: u16, keys: &mut Keys)
        requires { length keys.old.list + 1 ≤ keys.old.room }
        ensures { keys.new ≡ with_keys keys.old (keys_where (is_in slot) (spans self.now.span self.now.slots)) }
    {
        match self.span {
            Span::Global if self.slots.has(slot) => keys.push(0),
            Span::Global => {}
            Span::Every => self.slots.push_key(slot, keys),
        }
    }

    /// The slots of a key's entry.
    fn slots_at(&self, key: usize) -> &[u16]
        requires { key < length (spans self.now.span self.now.slots) }
        ensures { result.now ≡ slice_index_or (spans self.now.span self.now.slots) key [] }
    {
        let slots = self.slots.numbers();
        match self.span {
            Span::Global => slots,
            Span::Every => &slots[key..key + 1],
        }
    }
}

impl Entries for Ca4 {
    ghost use Rattle.league.specs.Deviation.{entry_of};
    ghost use Rattle.rule_core.specs.Ready.{entry_count};
    ghost use Rattle.rule_core.specs.Touched.{is_watched, most_touched, touched_keys};
    ghost use Rattle.rule_core.proofs.FrameLemmas.{touched_keys-frame};
    ghost use Rattle.rule_core.proofs.TouchedLemmas.{touched_keys-ascending, touched_keys-below, touched_keys-few};
    ghost use Rattle.rule_core.proofs.WatchLemmas.{touched_keys-quiet};
    ghost use Rattle.deviation.specs.Ca4.{class_of};

    ghost team_count = { λ r. r.n };

    ghost term_count = { λ r. entry_count (class_of r) };

    ghost reach_of = { λ r. most_touched (class_of r) };

    ghost entry = { λ r k m. entry_of r.n m (class_of r) k };

    ghost touches = { λ r. touched_keys (class_of r) };

    ghost watched = { λ r. is_watched (class_of r) };

    ghost few = { λ r. touched_keys-few r.n (class_of r) r.ready };

    ghost below = { λ r g fits. touched_keys-below (class_of r) g };

    ghost ascending = { λ r g fits. touched_keys-ascending (class_of r) g };

    ghost frame = { λ r. touched_keys-frame r.n (class_of r) };

    ghost quiet = { λ r g fits. touched_keys-quiet (class_of r) g };

    fn teams(&self) -> u16 {
        self.n
    }

    fn terms(&self) -> usize {
        match self.span {
            Span::Global => 1,
            Span::Every => self.slots.len(),
        }
    }

    fn reach(&self) -> usize {
        1
    }

    fn touched(&self, game: Game, keys: &mut Keys) {
        if self.opponents.meet(game.home, game.away) {
            self.push_slot(game.slot.0, keys);
        }
    }

    fn watches(&self, team: TeamId) -> bool {
        self.opponents.teams1.has(team.0)
    }
}

impl<L> Rule<L> for Ca4 {
    fn term(&self, key: usize, cells: &Cells, steps: &mut Steps<L>) -> u64 {
        steps.tick();
        let games = self
            .opponents
            .games_of_hosts(cells, &self.hosts, self.slots_at(key));
        outside(self.min, self.max, games)
    }
}
