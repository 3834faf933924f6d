//! Tests of which games count, as values.
ghost use Rattle.std.specs.Prelude.{◌≡◌};
ghost use Rattle.season_misses.specs.Tested.{passes};

use crate::tests_of_games::{
    Player, counts_in_break, counts_in_ca1, counts_in_ca2, counts_in_ca4, counts_in_fa2,
    counts_in_ga1, counts_in_se1, is_against, is_in_window, is_on,
};
use league::{Game, PairSet, Side, SlotId, TeamId, TeamSet};

/// Which games count.
#[derive(Clone, Copy)]
pub(crate) enum GameTest<'a> {
    /// The games of a team.
    Own {
        team: u16,
    },
    /// The games of a team on a side in some slots.
    Ca1 {
        player: Player,
        slots: &'a [u16],
    },
    /// The games of a team on a side against others in some slots.
    Ca2 {
        player: Player,
        others: &'a TeamSet,
        slots: &'a [u16],
    },
    /// The games of a team on a side against others.
    Against {
        player: Player,
        others: &'a TeamSet,
    },
    /// The games in the window of `intp` slots from a slot on.
    Window {
        intp: u32,
        first: u16,
    },
    /// The games of some teams with others in some slots.
    Ca4 {
        side: Side,
        teams1: &'a TeamSet,
        teams2: &'a TeamSet,
        slots: &'a [u16],
    },
    /// The games of some meetings in some slots.
    Ga1 {
        meetings: &'a PairSet,
        slots: &'a [u16],
    },
    /// The games of a break at a slot.
    Break {
        player: Player,
        slot: SlotId,
    },
    /// The games that a team plays at home up to a slot.
    Fa2 {
        team: TeamId,
        slot: u16,
    },
    /// The games that two teams play with each other.
    Se1 {
        first: TeamId,
        second: TeamId,
    },
}

impl GameTest<'_> {
    /// Whether a game counts.
    pub(crate) fn passes(&self, game: Game) -> bool
        ensures { result ≡ passes self.now game }
    {
        match self {
            GameTest::Own { team } => is_on(Side::Both, game, *team),
            GameTest::Ca1 { player, slots } => counts_in_ca1(*player, slots, game),
            GameTest::Ca2 {
                player,
                others,
                slots,
            } => counts_in_ca2(*player, others, slots, game),
            GameTest::Against { player, others } => {
                is_against(player.side, others, game, player.team)
            }
            GameTest::Window { intp, first } => is_in_window(*intp, *first, game),
            GameTest::Ca4 {
                side,
                teams1,
                teams2,
                slots,
            } => counts_in_ca4(*side, teams1, teams2, slots, game),
            GameTest::Ga1 { meetings, slots } => counts_in_ga1(meetings, slots, game),
            GameTest::Break { player, slot } => counts_in_break(*player, *slot, game),
            GameTest::Fa2 { team, slot } => counts_in_fa2(*team, *slot, game),
            GameTest::Se1 { first, second } => counts_in_se1(*first, *second, game),
        }
    }
}
