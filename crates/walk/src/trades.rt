//! Trades: moves of two teams that exchange their opponents along a cycle of slots, at the venues at which each meets
//! these, and within one half of the season where there are phases. The five kinds of moves have none of the kind, but a
//! trade is a few of them, one after another: some meetings of the second team are turned, which its opponents' venues
//! then allow, the teams are exchanged in a part of the slots, and the meetings are turned back.
ghost use Rattle.std.specs.Prelude.{◌<◌, IfSome};
ghost use Rattle.league.specs.Counts.{slot_count};

use crate::aims::Aim;
use crate::chains::LONGEST;
use crate::draws::{below, other_team};
use crate::lists::{bit, set_at};
use league::{Game, SlotId, TeamId};
use moves::Board;
use rand_core::utils::NextWord;
use rand_pcg::Pcg32;
use std::alloc::{AllocError, Global};

/// Two teams that exchange opponents, first in this slot. Where there are no phases bits say by each opponent's number
/// whether its meetings with the second team are turned.
#[derive(Clone, Copy)]
pub(crate) struct Trade {
    pub(crate) one: TeamId,
    pub(crate) other: TeamId,
    pub(crate) slot: SlotId,
    turned: u128,
}

/// A trade that is drawn: of a team in a slot, or of any where none is given.
pub(crate) fn drawn_trade(random: &mut Pcg32, board: &Board, aim: Option<Aim>) -> Trade
    requires team { IfSome aim (λ aim. aim.team < board.now.n) }
    requires slot { IfSome aim (λ aim. aim.slot < slot_count board.now.n) }
    ensures one { result.one.0 < board.now.n }
    ensures other { result.other.0 < board.now.n }
    ensures slot { result.slot.0 < slot_count board.now.n }
{
    let n = board.n();
    let aim = match aim {
        Some(aim) => aim,
        None => Aim {
            team: below(random, n),
            slot: below(random, 2 * (n - 1)),
        },
    };
    let one = TeamId(aim.team);
    let word = u128::from(random.next_word());
    Trade {
        one,
        other: other_team(random, n, one),
        slot: SlotId(aim.slot),
        turned: word | word.wrapping_shl(32),
    }
}

/// What follows on a slot of a trade: the slot in which the second team meets whom the first meets in it, which opponent
/// this is, and whether the second team's meetings with it are turned.
#[derive(Clone, Copy)]
struct Link {
    next: SlotId,
    opponent: TeamId,
    is_turned: bool,
}

/// What follows on a slot of a trade, unless the two teams meet in it.
fn link_of(board: &Board, trade: Trade, slot: SlotId) -> Option<Link>
    requires one { trade.one.0 < board.now.n }
    requires other { trade.other.0 < board.now.n }
    requires slot { slot.0 < slot_count board.now.n }
    ensures { IfSome result (λ link. link.next.0 < slot_count board.now.n) }
{
    let opponent = board.opponent(trade.one, slot);
    if opponent.0 == trade.other.0 {
        return None;
    }
    let is_away = board.game(trade.one, slot).away.0 == trade.one.0;
    let home = board.slot_of(trade.other, opponent);
    let away = board.slot_of(opponent, trade.other);
    let half = board.n() - 1;
    let at_home = if board.phased() {
        (home.0 < half) == (slot.0 < half)
    } else {
        is_away == (trade.turned & bit(opponent.0) != 0)
    };
    Some(Link {
        next: if at_home { home } else { away },
        opponent,
        is_turned: at_home == is_away,
    })
}

/// The games that a trade takes out and puts in, as many of both, in room that is reserved once, and as bits the
/// opponents whose meetings with the second team are turned for it.
#[derive(Drop)]
pub(crate) struct Traded {
    out: Vec<Game>,
    into: Vec<Game>,
    count: usize,
    turned: u128,
}

impl Traded {
    /// No games.
    ///
    /// # Errors
    /// Only where memory runs out.
    pub(crate) fn none(alloc: Global) -> Result<Traded, AllocError> {
        let filler = Game {
            home: TeamId(0),
            away: TeamId(0),
            slot: SlotId(0),
        };
        let room = 2 * usize::from(LONGEST);
        Ok(Traded {
            out: vec![in alloc; filler; room]?,
            into: vec![in alloc; filler; room]?,
            count: 0,
            turned: 0,
        })
    }

    /// The games that are taken out.
    pub(crate) fn out(&self) -> &[Game] {
        let count = self.count.min(self.out.len());
        &self.out[..count]
    }

    /// The games that are put in.
    pub(crate) fn into_games(&self) -> &[Game] {
        let count = self.count.min(self.into.len());
        &self.into[..count]
    }

    /// Whether the second team's meetings with an opponent are turned.
    pub(crate) fn is_turned(&self, opponent: u16) -> bool {
        self.turned & bit(opponent) != 0
    }

    /// Finds the games of a trade. Says whether its cycle of slots is short enough, and the two teams meet in none of
    /// them.
    pub(crate) fn find(&mut self, board: &Board, trade: Trade) -> bool
        requires one { trade.one.0 < board.now.n }
        requires other { trade.other.0 < board.now.n }
        requires slot { trade.slot.0 < slot_count board.now.n }
    {
        self.count = 0;
        self.turned = 0;
        let mut slot = trade.slot;
        'cycle: for _link in 0..LONGEST {
            let Some(link) = link_of(board, trade, slot) else {
                return false;
            };
            self.replace(board.game(trade.one, slot), link.next);
            self.replace(board.game(trade.other, link.next), slot);
            if link.is_turned {
                self.turned |= bit(link.opponent.0);
            }
            slot = link.next;
            if slot.0 == trade.slot.0 {
                return true;
            }
        }
        false
    }

    /// Gives a game another slot.
    fn replace(&mut self, game: Game, slot: SlotId) {
        set_at(&mut self.out, self.count, game);
        set_at(&mut self.into, self.count, Game { slot, ..game });
        self.count = self.count.saturating_add(1);
    }
}
