//! What is said of an entry that isn't 0.
ghost use Rattle.std.specs.Prelude.{◌≡◌};

use league::{Game, Side, SlotId, TeamId};
use std::marker::Model;

/// Some games of a schedule, in its order.
#[derive(Drop)]
pub struct GameList {
    pub(crate) games: Vec<Game>,
}

impl Model for GameList {
    ghost use Rattle.std.specs.Prelude.{List};
    ghost use Rattle.league.specs.declared.game.Game.{Game};

    ghost Value = { List Game };

    ghost view = { λ list. list.games.items };
}

impl GameList {
    /// The games in order.
    pub fn games(&self) -> &[Game]
        ensures { result.now ≡ self.now }
    {
        &self.games
    }
}

/// A break: a team plays on a side, at home or away, in a slot and in the slot before.
#[derive(Drop)]
pub struct Break {
    pub team: TeamId,
    /// `H` or `A`.
    pub side: Side,
    /// The later of its two slots.
    pub slot: SlotId,
    /// The games of the team on the side in both slots.
    pub games: GameList,
}

/// Some breaks, by team, slot and side.
#[derive(Drop)]
pub struct BreakList {
    pub(crate) breaks: Vec<Break>,
}

impl Model for BreakList {
    ghost use Rattle.std.specs.Prelude.{List};
    ghost use Rattle.season_misses.specs.declared.reason.Break.{Break};

    ghost Value = { List Break };

    ghost view = { λ list. list.breaks.items };
}

impl BreakList {
    /// The breaks in order.
    pub fn breaks(&self) -> &[Break]
        ensures { result.now ≡ self.now }
    {
        &self.breaks
    }
}

/// What makes an entry what it is.
#[derive(Drop)]
pub enum Cause {
    /// The games that are counted (CA1, CA2, CA4, GA1).
    Games(GameList),
    /// The games that are counted in the window from a slot on (CA3).
    Window {
        first: SlotId,
        games: GameList,
    },
    /// The breaks that are counted (BR1, BR2).
    Breaks(BreakList),
    /// The home games of the first team and of the second, up to the first slot after which they are furthest apart
    /// (FA2).
    Lead {
        slot: SlotId,
        first: GameList,
        second: GameList,
    },
    /// Two games of two teams with too few slots between them (SE1).
    Gap {
        earlier: Game,
        later: Game,
    },
}

/// Why an entry isn't 0. An entry of CA3 or SE1 may have many reasons, and any other has one.
#[derive(Drop)]
pub struct Reason {
    /// The place of the entry in the constraint's deviation vector, from 0.
    pub key: usize,
    /// By how much the constraint is missed, at least 1.
    pub amount: u64,
    pub cause: Cause,
}
