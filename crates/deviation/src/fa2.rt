//! FA2: at no time have two teams played very different numbers of home games.
ghost use Rattle.std.specs.Prelude.{◌≡◌, ◌≤◌, IfOk, IsTrue, nat_le};
ghost use Rattle.std.specs.List.{list_any};
ghost use Rattle.std.specs.Ordering.{nat_cmp};
ghost use Rattle.league.specs.Sets.{IsAscending};
ghost use Rattle.league.specs.declared.class.Class.TheVariants as class;
ghost use Rattle.rule_core.specs.Ready.{IsReady};

use crate::leads::largest_lead;
use crate::played::{fill_played, lead_in_rows};
use league::{Class, ClassName, Constraint, Game, TeamId};
use rule_core::{Cells, Entries, Keys, Pairs, Rule, Steps};
use std::alloc::{AllocError, Global};

/// The largest difference of the home games that two teams have played after one of some slots, beyond a bound: one
/// entry for each two of some teams.
#[derive(Drop)]
pub struct Fa2 {
    n: u16,
    pairs: Pairs,
    intp: u32,
    slots: Vec<u16>,
    ghost ready: { IsReady n (class.Fa2 pairs intp slots.items) },
}

impl Fa2 {
    ghost use Rattle.league.specs.Instance.{class_fits};
    ghost use Rattle.league.specs.Names.{name_of};
    ghost use Rattle.rule_core.specs.Rule.{IsRuleOf};

    /// The rule of an FA2 that fits a league of n teams.
    ///
    /// # Errors
    /// Only where memory runs out.
    pub fn new(alloc: Global, n: u16, constraint: &Constraint) -> Result<Fa2, AllocError>
        requires at_most { n ≤ 40 }
        requires class { name_of constraint.now.class ≡ ClassName.Fa2 }
        requires fits { IsTrue (class_fits n constraint.now.class) }
        ensures rule { IfOk result (IsRuleOf ⟦<Fa2 as Entries>⟧ n constraint.now.class) }
    {
        let Class::Fa2 { teams, intp, slots } = &constraint.class else {
            unreachable!()
        };
        Ok(Fa2 {
            n,
            pairs: Pairs::of_teams(alloc, n, teams)?,
            intp: *intp,
            slots: Vec::from_slice(alloc, slots.numbers())?,
        })
    }
}

impl Entries for Fa2 {
    ghost use Rattle.league.specs.Deviation.{entry_of};
    ghost use Rattle.rule_core.specs.Ready.{entry_count};
    ghost use Rattle.rule_core.specs.Touched.{is_watched, most_touched, touched_keys};
    ghost use Rattle.rule_core.proofs.FrameLemmas.{touched_keys-frame};
    ghost use Rattle.rule_core.proofs.TouchedLemmas.{touched_keys-ascending, touched_keys-below, touched_keys-few};
    ghost use Rattle.rule_core.proofs.WatchLemmas.{touched_keys-quiet};
    ghost use Rattle.deviation.specs.Fa2.{class_of};

    ghost team_count = { λ r. r.n };

    ghost term_count = { λ r. entry_count (class_of r) };

    ghost reach_of = { λ r. most_touched (class_of r) };

    ghost entry = { λ r k m. entry_of r.n m (class_of r) k };

    ghost touches = { λ r. touched_keys (class_of r) };

    ghost watched = { λ r. is_watched (class_of r) };

    ghost few = { λ r. touched_keys-few r.n (class_of r) r.ready };

    ghost below = { λ r g fits. touched_keys-below (class_of r) g };

    ghost ascending = { λ r g fits. touched_keys-ascending (class_of r) g };

    ghost frame = { λ r. touched_keys-frame r.n (class_of r) };

    ghost quiet = { λ r g fits. touched_keys-quiet (class_of r) g };

    fn teams(&self) -> u16 {
        self.n
    }

    fn terms(&self) -> usize {
        self.pairs.len()
    }

    fn reach(&self) -> usize {
        self.pairs.team_count().saturating_sub(1)
    }

    fn touched(&self, game: Game, keys: &mut Keys) {
        if has_from(&self.slots, game.slot.0) {
            self.pairs.push_keys(game.home.0, keys);
        }
    }

    fn watches(&self, team: TeamId) -> bool {
        self.pairs.teams().contains(&team.0)
    }
}

impl<L> Rule<L> for Fa2 {
    fn term(&self, key: usize, cells: &Cells, steps: &mut Steps<L>) -> u64 {
        steps.tick();
        let (first, second) = self.pairs.get(key);
        largest_lead(cells, first, second, self.intp, &self.slots)
    }

    /// Each team's row of home games played is filled once for all its pairs.
    fn every(&self, cells: &Cells, entries: &mut Vec<u64>, steps: &mut Steps<L>) {
        let slots: &[u16] = &self.slots;
        let mut played = [0; 3120];
        fill_played(cells, self.pairs.teams(), slots, &mut played);
        for key in 0..self.pairs.len() {
            let (first, second) = self.pairs.get(key);
            entries.push_reserved(lead_in_rows(&played, first, second, self.intp, slots));
        }
        steps.tick_all(self.pairs.len());
    }
}

/// Whether one of these slots is a given one or a later one: the last decides.
fn has_from(slots: &[u16], slot: u16) -> bool
    requires { IsAscending nat_cmp slots.now }
    ensures { result ≡ list_any (λ s. nat_le slot s) slots.now }
{
    match slots.last() {
        Some(last) => slot <= *last,
        None => false,
    }
}
