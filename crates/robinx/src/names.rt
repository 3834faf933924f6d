//! The names of a league.
ghost use Rattle.std.specs.Prelude.{◌≡◌, ◌<◌, IfOk, length, map, string_bytes};
ghost use Rattle.robinx.specs.Plain.{IsPlain};
ghost use Rattle.robinx.specs.Names as names;

use crate::labels::labels;
use league::{SlotId, TeamId};
use std::alloc::{AllocError, Global};
use std::marker::Model;

/// The names of a league's teams and slots, by their numbers, each of which may be printed.
///
/// A contract sees them as the bytes of their texts.
#[derive(Drop)]
pub struct Names {
    teams: Vec<String>,
    slots: Vec<String>,
    labels: Vec<String>,
}

impl Model for Names {
    ghost use Rattle.std.specs.Prelude.{map, string_bytes};
    ghost use Rattle.robinx.specs.Names as names;
    ghost use Rattle.robinx.specs.Kept.{AreKept};

    ghost Value = { names.Names };

    ghost view = { λ n. record { teams = map string_bytes n.teams.items; slots = map string_bytes n.slots.items } };

    ghost invariant = { λ n. AreKept
        (record { teams = map string_bytes n.teams.items; slots = map string_bytes n.slots.items })
        (map string_bytes n.labels.items) };
}

impl Names {
    /// Names of teams and slots, each empty where there is none.
    ///
    /// # Errors
    /// Only where memory runs out.
    pub fn new(alloc: Global, teams: Vec<String>, slots: Vec<String>) -> Result<Names, AllocError>
        requires { names.ArePlain
            (record { teams = map string_bytes teams.items; slots = map string_bytes slots.items }) }
        ensures { IfOk result (λ n. n
            ≡ record { teams = map string_bytes teams.items; slots = map string_bytes slots.items }) }
    {
        let labels = labels(alloc, &teams)?;
        Ok(Names {
            teams,
            slots,
            labels,
        })
    }

    /// The name of a team, in at most 40 characters; empty where it has none.
    pub fn team(&self, team: TeamId) -> &str
        requires { team.0 < length self.now.teams }
        ensures name { result.now ≡ names.team_name self.now team.0 }
        ensures plain { IsPlain result.now }
    {
        &self.teams[usize::from(team.0)]
    }

    /// The name of a slot, in at most 40 characters; empty where it has none.
    pub fn slot(&self, slot: SlotId) -> &str
        requires { slot.0 < length self.now.slots }
        ensures name { result.now ≡ names.slot_name self.now slot.0 }
        ensures plain { IsPlain result.now }
    {
        &self.slots[usize::from(slot.0)]
    }

    /// What a team is called in a sentence: its name, or `team` and its number where it has none; with `#`, its number
    /// and a space before it where any two teams of the league were called alike.
    pub fn label(&self, team: TeamId) -> &str
        requires { team.0 < length self.now.teams }
        ensures { result.now ≡ names.label self.now team.0 }
    {
        &self.labels[usize::from(team.0)]
    }
}
