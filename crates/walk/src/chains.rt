//! Chains of linked teams and slots, followed only as far as a move of them is tried.
ghost use Rattle.std.specs.Prelude.{◌<◌, IfSome};
ghost use Rattle.league.specs.Counts.{slot_count};
ghost use Rattle.moves.specs.Moves.{IsOfLeague};

use league::{SlotId, TeamId};
use moves::{Board, Swap};

/// A chain with more links isn't tried: hardly a move of one is ever made. A link is two teams or one slot, and a move
/// takes out two games for each.
pub(crate) const LONGEST: u16 = 6;

/// Whether the chain of a move is too long to be tried.
pub(crate) fn is_long(board: &Board, step: &Swap) -> bool
    requires { IsOfLeague board.now.n step.now }
{
    match *step {
        Swap::PartRoundSwap { i, s, t } => is_long_chain(board, i, s, t),
        Swap::PartTeamSwap { i, j, s } => is_long_cycle(board, i, j, s),
        Swap::HomeSwap { .. } | Swap::RoundSwap { .. } | Swap::TeamSwap { .. } => false,
    }
}

/// Whether too many teams are linked with a team by the games in two slots.
fn is_long_chain(board: &Board, team: TeamId, s: SlotId, t: SlotId) -> bool
    requires team { team.0 < board.now.n }
    requires s { s.0 < slot_count board.now.n }
    requires t { t.0 < slot_count board.now.n }
{
    let mut next = team;
    'chain: for _link in 0..LONGEST {
        let met = board.opponent(next, s);
        next = board.opponent(met, t);
        if next.0 == team.0 {
            return false;
        }
    }
    true
}

/// Whether too many slots are linked with a slot by the games of two teams. Where these meet in one of them it isn't
/// said.
fn is_long_cycle(board: &Board, i: TeamId, j: TeamId, slot: SlotId) -> bool
    requires i { i.0 < board.now.n }
    requires j { j.0 < board.now.n }
    requires slot { slot.0 < slot_count board.now.n }
{
    let mut next = slot;
    'cycle: for _link in 0..LONGEST {
        let Some(following) = following_slot(board, i, j, next) else {
            return false;
        };
        next = following;
        if next.0 == slot.0 {
            return false;
        }
    }
    true
}

/// The slot in which the second team meets at the same venue whom the first meets in a slot, unless that is the second.
fn following_slot(board: &Board, i: TeamId, j: TeamId, slot: SlotId) -> Option<SlotId>
    requires i { i.0 < board.now.n }
    requires j { j.0 < board.now.n }
    requires slot { slot.0 < slot_count board.now.n }
    ensures { IfSome result (λ next. next.0 < slot_count board.now.n) }
{
    let game = board.game(i, slot);
    if game.home.0 == j.0 || game.away.0 == j.0 {
        return None;
    }
    if game.home.0 == i.0 {
        Some(board.slot_of(j, game.away))
    } else {
        Some(board.slot_of(game.home, j))
    }
}
