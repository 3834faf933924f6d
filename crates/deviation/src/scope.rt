//! The teams and slots of a break constraint.
ghost use Rattle.std.specs.Prelude.{◌≡◌, ◌<◌, ◌≤◌, ◌||◌, IfOk, IsTrue};
ghost use Rattle.league.specs.Instance.{are_slots, are_teams};
ghost use Rattle.league.specs.Sets.{is_in};
ghost use Rattle.rule_core.specs.Touched.{can_break};
ghost use Rattle.deviation.specs.Bits.{AreBits};

use crate::bits::bits_of;
use league::{Game, SlotId, SlotSet, TeamSet};
use rule_core::Listed;
use std::alloc::{AllocError, Global};

/// The teams whose breaks are counted, and the slots at which.
#[derive(Drop)]
pub(crate) struct Scope {
    pub(crate) teams: Listed,
    pub(crate) slots: Listed,
    /// A bit for each of the slots.
    pub(crate) bits: u128,
    ghost set: { AreBits slots bits },
}

impl Scope {
    /// The scope of these teams and slots in a league of n teams.
    pub(crate) fn of(
        alloc: Global,
        n: u16,
        teams: &TeamSet,
        slots: &SlotSet,
    ) -> Result<Scope, AllocError>
        requires at_most { n ≤ 40 }
        requires teams { IsTrue (are_teams n teams.now) }
        requires slots { IsTrue (are_slots n slots.now) }
        ensures teams { IfOk result (λ scope. scope.teams ≡ teams.now) }
        ensures slots { IfOk result (λ scope. scope.slots ≡ slots.now) }
    {
        Ok(Scope {
            teams: Listed::of_teams(alloc, n, teams)?,
            slots: Listed::of_slots(alloc, n, slots)?,
            bits: bits_of(slots.numbers()),
        })
    }

    /// Whether a game in a slot can change a break at one of the slots: at that slot, or at the next.
    pub(crate) fn can_break(&self, slot: SlotId) -> bool
        requires { slot.0 < 78 }
        ensures { result ≡ can_break self.now.slots slot.0 }
    {
        self.slots.has(slot.0) || self.slots.has(slot.0 + 1)
    }

    /// Whether a team of a game is one of the teams.
    pub(crate) fn has_team(&self, game: Game) -> bool
        ensures { result ≡ (is_in game.home.0 self.now.teams || is_in game.away.0 self.now.teams) }
    {
        self.teams.has(game.home.0) || self.teams.has(game.away.0)
    }
}
