//! Where each team plays in each slot, and in which slot each two teams meet.

use crate::lists::{SLOTS, TEAMS, bit, place, set_at};
use crate::number_set::NumberSet;
use crate::watches::Mark;
use league::{Game, SlotId, TeamId};
use moves::Board;
use std::alloc::{AllocError, Global};

/// The length of a row with an entry for each slot: whole blocks of 16, by which two rows are compared.
pub(crate) const ROW: usize = 80;

/// The home slots of a team as bits, and how many home games it has played after each slot.
#[derive(Clone, Copy)]
struct Venues {
    homes: u128,
    played: [u8; ROW],
}

impl Venues {
    /// A team that is never at home.
    fn none() -> Venues {
        Venues {
            homes: 0,
            played: [0; ROW],
        }
    }

    /// Counts anew how many home games the team has played after each slot of a season of so many.
    fn recount(&mut self, slots: u16) {
        let mut games = 0u8;
        let mut rest = self.homes;
        for slot in 0..usize::from(slots).min(ROW) {
            if rest & 1 == 1 {
                games = games.wrapping_add(1);
            }
            rest >>= 1;
            self.played[slot] = games;
        }
    }

    /// The largest difference of the home games that two teams have played after a slot for which the mask is 255, and
    /// not 0.
    fn lead(&self, other: &Venues, mask: &[u8]) -> u8 {
        if mask.len() < ROW {
            return 0;
        }
        let mut most = 0u8;
        for slot in 0..ROW {
            let lead = self.played[slot].abs_diff(other.played[slot]);
            most = most.max(lead & mask[slot]);
        }
        most
    }
}

/// The venues of each team, and by home and away team the slot of their game. Of the teams whose venues a move changes
/// those before it are known, too.
#[derive(Drop)]
pub(crate) struct Plays {
    slots: u16,
    venues: Vec<Venues>,
    before: Vec<Venues>,
    turned: NumberSet,
    meetings: Vec<u16>,
}

impl Plays {
    /// No games yet of a league of n teams.
    ///
    /// # Errors
    /// Only where memory runs out.
    pub(crate) fn new(alloc: Global, n: u16) -> Result<Plays, AllocError> {
        let teams = usize::from(TEAMS);
        Ok(Plays {
            slots: n.saturating_sub(1).saturating_mul(2),
            venues: vec![in alloc; Venues::none(); teams]?,
            before: vec![in alloc; Venues::none(); teams]?,
            turned: NumberSet::new(alloc, teams)?,
            meetings: vec![in alloc; 0; teams * teams]?,
        })
    }

    /// The slots of the season as bits.
    fn season(&self) -> u128 {
        bit(self.slots.min(SLOTS)).wrapping_sub(1)
    }

    /// The home slots of a team.
    pub(crate) fn homes(&self, team: u16) -> u128 {
        match self.venues.get(usize::from(team)) {
            Some(venues) => venues.homes,
            None => 0,
        }
    }

    /// The home slots before a move of a team whose venues it changes.
    pub(crate) fn homes_before(&self, team: u16) -> u128 {
        match self.before.get(usize::from(team)) {
            Some(venues) => venues.homes,
            None => 0,
        }
    }

    /// The slots in which a team with these home slots has a mark.
    pub(crate) fn marked(&self, mark: Mark, homes: u128) -> u128 {
        let aways = !homes & self.season();
        match mark {
            Mark::Home => homes,
            Mark::Away => aways,
            Mark::HomeBreak => homes & (homes << 1),
            Mark::AwayBreak => aways & (aways << 1),
        }
    }

    /// The teams whose venues a move changes.
    pub(crate) fn turned(&self) -> &[usize] {
        self.turned.numbers()
    }

    /// The team at a place, from 0, of those whose venues a move changes.
    pub(crate) fn turned_at(&self, place: u16) -> Option<u16> {
        let team = self.turned().get(usize::from(place))?;
        u16::try_from(*team).ok()
    }

    /// The slot of two teams' game at the first one's home.
    pub(crate) fn slot_of(&self, home: u16, away: u16) -> u16 {
        let entry = self.meetings.get(place(home, TEAMS, away));
        entry.copied().unwrap_or(0)
    }

    /// The largest difference of the home games that two teams have played after a slot for which the mask is 255, and
    /// not 0.
    pub(crate) fn lead(&self, first: u16, second: u16, mask: &[u8]) -> u8 {
        let Some(first) = self.venues.get(usize::from(first)) else {
            return 0;
        };
        let Some(second) = self.venues.get(usize::from(second)) else {
            return 0;
        };
        first.lead(second, mask)
    }

    /// Takes over all games of a board.
    pub(crate) fn take(&mut self, board: &Board) {
        for home in 0..board.n() {
            for away in 0..board.n() {
                if home != away {
                    let slot = board.slot_of(TeamId(home), TeamId(away));
                    self.put(Game {
                        home: TeamId(home),
                        away: TeamId(away),
                        slot,
                    });
                }
            }
        }
        self.recount();
    }

    /// Puts a game of a move into its slot, where both teams had another one.
    pub(crate) fn put(&mut self, game: Game) {
        self.turn(game.home, game.slot, true);
        self.turn(game.away, game.slot, false);
        self.meet(game);
    }

    /// Takes back a move that took these games out.
    pub(crate) fn put_back(&mut self, out: &[Game]) {
        for team in self.turned.numbers() {
            if let Some(before) = self.before.get(*team) {
                set_at(&mut self.venues, *team, *before);
            }
        }
        for game in out {
            self.meet(*game);
        }
    }

    /// Ends a move, which was made or taken back.
    pub(crate) fn settle(&mut self) {
        self.turned.clear();
    }

    /// Counts anew the home games that each team has played whose venues a move changes.
    pub(crate) fn recount(&mut self) {
        for team in self.turned.numbers() {
            if let Some(venues) = self.venues.get_mut(*team) {
                venues.recount(self.slots);
            }
        }
    }

    /// Lets a team play at home or away in a slot.
    fn turn(&mut self, team: TeamId, slot: SlotId, home: bool) {
        let number = usize::from(team.0);
        let Some(venues) = self.venues.get_mut(number) else {
            return;
        };
        let bit = bit(slot.0);
        if (venues.homes & bit != 0) == home {
            return;
        }
        if let Some(before) = self.before.get_mut(number)
            && !self.turned.has(number)
        {
            *before = *venues;
            self.turned.add(number);
        }
        venues.homes ^= bit;
    }

    /// Keeps the slot of a game.
    fn meet(&mut self, game: Game) {
        let place = place(game.home.0, TEAMS, game.away.0);
        set_at(&mut self.meetings, place, game.slot.0);
    }
}
