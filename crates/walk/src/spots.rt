//! Which parts of the hard constraints a game can change: the order in which unmet ones are listed goes by it.

use crate::lists::{SLOTS, TEAMS, add_at, empty_lists, list_at, place};
use crate::subjects::{meetings_of, slots_of, teams_of};
use league::{Class, ClassName, Constraint, SlotId, TeamId};
use std::alloc::{AllocError, Global};

/// The numbers of hard constraints' parts: by team and slot those that a game of the team there can change, and by home
/// and away team those that the slot of their game can change.
#[derive(Drop)]
pub(crate) struct Spots {
    cells: Vec<Vec<usize>>,
    meetings: Vec<Vec<usize>>,
}

impl Spots {
    /// The hard constraints' parts that each game can change. Parts are numbered from 0, in the order in which they are
    /// given.
    ///
    /// # Errors
    /// Only where memory runs out.
    pub(crate) fn new(alloc: Global, parts: &[Constraint]) -> Result<Spots, AllocError> {
        let mut spots = Spots {
            cells: empty_lists(alloc, usize::from(TEAMS * SLOTS))?,
            meetings: empty_lists(alloc, usize::from(TEAMS * TEAMS))?,
        };
        for (number, part) in parts.iter().enumerate() {
            if part.hard {
                spots.add(number, &part.class)?;
            }
        }
        Ok(spots)
    }

    /// The parts that a game of a team in a slot can change.
    pub(crate) fn of_cell(&self, team: TeamId, slot: SlotId) -> &[usize] {
        list_at(&self.cells, place(team.0, SLOTS, slot.0))
    }

    /// The parts that the slot of a home team's game against another can change.
    pub(crate) fn of_meeting(&self, home: TeamId, away: TeamId) -> &[usize] {
        list_at(&self.meetings, place(home.0, TEAMS, away.0))
    }

    /// Adds a part.
    ///
    /// # Errors
    /// Only where memory runs out.
    fn add(&mut self, number: usize, class: &Class) -> Result<(), AllocError> {
        let teams = teams_of(class);
        match class.name() {
            ClassName::Ca1 | ClassName::Ca2 | ClassName::Ca4 => {
                self.add_cells(number, teams, slots_of(class))
            }
            ClassName::Br1 | ClassName::Br2 => self.add_breaks(number, teams, slots_of(class)),
            ClassName::Ca3 | ClassName::Fa2 => self.add_teams(number, teams),
            ClassName::Ga1 => self.add_meetings(number, meetings_of(class)),
            ClassName::Se1 => self.add_pairs(number, teams),
        }
    }

    /// Adds a part that counts games of these teams in these slots.
    ///
    /// # Errors
    /// Only where memory runs out.
    fn add_cells(&mut self, number: usize, teams: &[u16], slots: &[u16]) -> Result<(), AllocError> {
        for team in teams {
            for slot in slots {
                add_at(&mut self.cells, place(*team, SLOTS, *slot), number)?;
            }
        }
        Ok(())
    }

    /// Adds a part that counts breaks of these teams at these slots: they are of the slots before, too.
    ///
    /// # Errors
    /// Only where memory runs out.
    fn add_breaks(
        &mut self,
        number: usize,
        teams: &[u16],
        slots: &[u16],
    ) -> Result<(), AllocError> {
        for slot in slots {
            self.add_cells(number, teams, &[slot.saturating_sub(1), *slot])?;
        }
        Ok(())
    }

    /// Adds a part that counts games of these teams in all slots.
    ///
    /// # Errors
    /// Only where memory runs out.
    fn add_teams(&mut self, number: usize, teams: &[u16]) -> Result<(), AllocError> {
        for team in teams {
            for slot in 0..SLOTS {
                add_at(&mut self.cells, place(*team, SLOTS, slot), number)?;
            }
        }
        Ok(())
    }

    /// Adds a part that asks for the slots of these games.
    ///
    /// # Errors
    /// Only where memory runs out.
    fn add_meetings(&mut self, number: usize, meetings: &[(u16, u16)]) -> Result<(), AllocError> {
        for (home, away) in meetings {
            add_at(&mut self.meetings, place(*home, TEAMS, *away), number)?;
        }
        Ok(())
    }

    /// Adds a part that asks for the slots of the games of each two of these teams.
    ///
    /// # Errors
    /// Only where memory runs out.
    fn add_pairs(&mut self, number: usize, teams: &[u16]) -> Result<(), AllocError> {
        for home in teams {
            for away in teams {
                add_at(&mut self.meetings, place(*home, TEAMS, *away), number)?;
            }
        }
        Ok(())
    }
}
