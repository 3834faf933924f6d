//! Teams, slots and games, by number.

/// A team, by its number from 0.
#[derive(Clone, Copy, Debug, PartialEq, Eq, PartialOrd, Ord)]
pub struct TeamId(pub u16);

/// A slot of the season, by its number from 0.
#[derive(Clone, Copy, Debug, PartialEq, Eq, PartialOrd, Ord)]
pub struct SlotId(pub u16);

/// A game of two teams in a slot, at the home team's venue.
#[derive(Clone, Copy, Debug, PartialEq, Eq)]
pub struct Game {
    pub home: TeamId,
    pub away: TeamId,
    pub slot: SlotId,
}
