//! Which parts count a game, a venue or a break.

use crate::lists::{SLOTS, TEAMS, add_at, bits_of, empty_lists, list_at, place};
use crate::subjects::{meetings_of, opponents_in, side_of, slots_of, teams_of};
use league::{Class, ClassName, Constraint, Side};
use std::alloc::{AllocError, Global};

/// What a team has in a slot.
#[derive(Clone, Copy)]
pub(crate) enum Mark {
    Home,
    Away,
    HomeBreak,
    AwayBreak,
}

impl Mark {
    /// All marks.
    pub(crate) const ALL: [Mark; 4] = [Mark::Home, Mark::Away, Mark::HomeBreak, Mark::AwayBreak];

    /// The place of a mark among all marks.
    fn place(self) -> usize {
        match self {
            Mark::Home => 0,
            Mark::Away => 1,
            Mark::HomeBreak => 2,
            Mark::AwayBreak => 3,
        }
    }
}

/// A part that counts a meeting in some slots.
#[derive(Clone, Copy)]
pub(crate) struct Watch {
    pub(crate) number: usize,
    pub(crate) slots: u128,
}

impl Watch {
    /// The watch of a part in these slots.
    fn of(number: usize, slots: &[u16]) -> Watch {
        Watch {
            number,
            slots: bits_of(slots),
        }
    }

    /// The watch of a part in any slot.
    fn of_any(number: usize) -> Watch {
        Watch {
            number,
            slots: u128::MAX,
        }
    }
}

/// The numbers of parts: by home and away team those that count their game or ask for its slot, by team, slot and mark
/// those that count what the team has there, and by team those that compare its home games with another's.
#[derive(Drop)]
pub(crate) struct Watches {
    meetings: Vec<Vec<Watch>>,
    marks: Vec<Vec<usize>>,
    leads: Vec<Vec<usize>>,
    have_leads: bool,
}

impl Watches {
    /// The parts of a league of n teams that watch each game, venue and break. Parts are numbered from 0, in the order
    /// in which they are given.
    ///
    /// # Errors
    /// Only where memory runs out.
    pub(crate) fn new(alloc: Global, n: u16, parts: &[Constraint]) -> Result<Watches, AllocError> {
        let mut watches = Watches::none(alloc)?;
        for (number, part) in parts.iter().enumerate() {
            watches.add(number, n, &part.class)?;
        }
        Ok(watches)
    }

    /// No parts.
    ///
    /// # Errors
    /// Only where memory runs out.
    fn none(alloc: Global) -> Result<Watches, AllocError> {
        Ok(Watches {
            meetings: empty_lists(alloc, usize::from(TEAMS * TEAMS))?,
            marks: empty_lists(alloc, usize::from(TEAMS * SLOTS) * Mark::ALL.len())?,
            leads: empty_lists(alloc, usize::from(TEAMS))?,
            have_leads: false,
        })
    }

    /// The parts that count a home team's game against another, or ask for its slot.
    pub(crate) fn of_meeting(&self, home: u16, away: u16) -> &[Watch] {
        match self.meetings.get(place(home, TEAMS, away)) {
            Some(watches) => watches,
            None => &[],
        }
    }

    /// The parts that count what a team has in a slot.
    pub(crate) fn of_mark(&self, mark: Mark, team: u16, slot: u16) -> &[usize] {
        list_at(&self.marks, place_of_mark(mark, team, slot))
    }

    /// The parts that compare a team's home games with another's.
    pub(crate) fn of_leads(&self, team: usize) -> &[usize] {
        list_at(&self.leads, team)
    }

    /// Whether some part compares the home games of two teams.
    pub(crate) fn have_leads(&self) -> bool {
        self.have_leads
    }

    /// Adds a part. A CA3 has no part of its own: its windows are parts of CA2.
    ///
    /// # Errors
    /// Only where memory runs out.
    fn add(&mut self, number: usize, n: u16, class: &Class) -> Result<(), AllocError> {
        match class.name() {
            ClassName::Ca1 => self.add_by_side(number, class, Mark::Home, Mark::Away),
            ClassName::Ca2 | ClassName::Ca4 => self.add_games(number, n, class),
            ClassName::Ga1 => {
                self.add_meetings(Watch::of(number, slots_of(class)), meetings_of(class))
            }
            ClassName::Br1 | ClassName::Br2 => {
                self.add_by_side(number, class, Mark::HomeBreak, Mark::AwayBreak)
            }
            ClassName::Fa2 => self.add_leads(number, teams_of(class)),
            ClassName::Se1 => self.add_games_between(
                Watch::of_any(number),
                teams_of(class),
                teams_of(class),
                Side::Both,
            ),
            ClassName::Ca3 => Ok(()),
        }
    }

    /// Adds a part that counts in its slots what its teams have on its side: one mark at home, and another away.
    ///
    /// # Errors
    /// Only where memory runs out.
    fn add_by_side(
        &mut self,
        number: usize,
        class: &Class,
        home: Mark,
        away: Mark,
    ) -> Result<(), AllocError> {
        let side = side_of(class);
        if side != Side::A {
            self.add_marks(number, home, class)?;
        }
        if side != Side::H {
            self.add_marks(number, away, class)?;
        }
        Ok(())
    }

    /// Adds a part that counts a mark of its teams in its slots.
    ///
    /// # Errors
    /// Only where memory runs out.
    fn add_marks(&mut self, number: usize, mark: Mark, class: &Class) -> Result<(), AllocError> {
        for team in teams_of(class) {
            for slot in slots_of(class) {
                add_at(&mut self.marks, place_of_mark(mark, *team, *slot), number)?;
            }
        }
        Ok(())
    }

    /// Adds a part that compares the home games of two teams.
    ///
    /// # Errors
    /// Only where memory runs out.
    fn add_leads(&mut self, number: usize, teams: &[u16]) -> Result<(), AllocError> {
        self.have_leads = true;
        for team in teams {
            add_at(&mut self.leads, usize::from(*team), number)?;
        }
        Ok(())
    }

    /// Adds a part that counts the games of its teams against others. Games against all n teams on one side are counted
    /// as venues.
    ///
    /// # Errors
    /// Only where memory runs out.
    fn add_games(&mut self, number: usize, n: u16, class: &Class) -> Result<(), AllocError> {
        let side = side_of(class);
        let opponents = opponents_in(class);
        if side != Side::Both && opponents.len() == usize::from(n) {
            return self.add_by_side(number, class, Mark::Home, Mark::Away);
        }
        let watch = Watch::of(number, slots_of(class));
        self.add_games_between(watch, teams_of(class), opponents, side)
    }

    /// Adds a part that counts the games of some teams, on a side, against others.
    ///
    /// # Errors
    /// Only where memory runs out.
    fn add_games_between(
        &mut self,
        watch: Watch,
        teams: &[u16],
        others: &[u16],
        side: Side,
    ) -> Result<(), AllocError> {
        for team in teams {
            for other in others {
                if team != other {
                    self.add_games_of(watch, *team, *other, side)?;
                }
            }
        }
        Ok(())
    }

    /// Adds a part that counts the games of a team, on a side, against another.
    ///
    /// # Errors
    /// Only where memory runs out.
    fn add_games_of(
        &mut self,
        watch: Watch,
        team: u16,
        other: u16,
        side: Side,
    ) -> Result<(), AllocError> {
        if side != Side::A {
            self.add_meeting(watch, team, other)?;
        }
        if side != Side::H {
            self.add_meeting(watch, other, team)?;
        }
        Ok(())
    }

    /// Adds a part that counts these meetings.
    ///
    /// # Errors
    /// Only where memory runs out.
    fn add_meetings(&mut self, watch: Watch, meetings: &[(u16, u16)]) -> Result<(), AllocError> {
        for (home, away) in meetings {
            self.add_meeting(watch, *home, *away)?;
        }
        Ok(())
    }

    /// Adds a part that counts a home team's game against another, unless it is the last that does.
    ///
    /// # Errors
    /// Only where memory runs out.
    fn add_meeting(&mut self, watch: Watch, home: u16, away: u16) -> Result<(), AllocError> {
        let Some(list) = self.meetings.get_mut(place(home, TEAMS, away)) else {
            return Ok(());
        };
        if let Some(last) = list.last()
            && last.number == watch.number
        {
            return Ok(());
        }
        list.push(watch)?;
        Ok(())
    }
}

/// The place of the list of a mark of a team in a slot.
fn place_of_mark(mark: Mark, team: u16, slot: u16) -> usize {
    let cell = place(team, SLOTS, slot);
    cell.wrapping_mul(Mark::ALL.len())
        .wrapping_add(mark.place())
}
