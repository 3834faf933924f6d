//! A random order of all meetings, by hill climbing (Dinitz and Stinson 1987): a round for each slot of a half.

use crate::draws::below;
use crate::lists::{TEAMS, place, set_at};
use rand_pcg::Pcg32;

/// Numbers by two teams, or by a slot of a half and a team, as far as they are settled.
#[derive(Clone, Copy)]
struct Table {
    entries: [Option<u16>; 1600],
}

impl Table {
    /// No numbers.
    fn empty() -> Table {
        Table {
            entries: [None; 1600],
        }
    }

    /// The number in a row and column, where there is one.
    fn at(&self, row: u16, column: u16) -> Option<u16> {
        match self.entries.get(place(row, TEAMS, column)) {
            Some(entry) => *entry,
            None => None,
        }
    }

    /// Sets the number in a row and column.
    fn set(&mut self, row: u16, column: u16, number: Option<u16>) {
        set_at(&mut self.entries, place(row, TEAMS, column), number);
    }
}

/// Whom each team meets in each slot of a half, and in which slot each two teams meet, as far as that is settled.
#[derive(Clone, Copy)]
pub(crate) struct Factors {
    n: u16,
    slots: u16,
    opponents: Table,
    meetings: Table,
    met: u32,
}

/// The number so many steps on from another below a bound, and from 0 on again behind the bound.
fn on_from(start: u16, steps: u16, bound: u16) -> u16 {
    let rest = bound.saturating_sub(start);
    if steps < rest {
        start.saturating_add(steps)
    } else {
        steps.saturating_sub(rest)
    }
}

impl Factors {
    /// No meeting yet of n teams in one slot less.
    fn none(n: u16) -> Factors {
        Factors {
            n,
            slots: n.saturating_sub(1),
            opponents: Table::empty(),
            meetings: Table::empty(),
            met: 0,
        }
    }

    /// All meetings in a random order, if the climb gets there in so many steps.
    pub(crate) fn drawn(n: u16, random: &mut Pcg32, limit: u32) -> Option<Factors> {
        let mut factors = Factors::none(n);
        let all = u32::from(n).wrapping_mul(u32::from(n.saturating_sub(1))) / 2;
        for _step in 0..limit {
            if factors.met == all {
                return Some(factors);
            }
            if below(random, 2) == 0 {
                factors.climb_from_team(random);
            } else {
                factors.climb_from_slot(random);
            }
        }
        None
    }

    /// The opponent of a team in a slot of the first half.
    pub(crate) fn opponent(&self, team: u16, slot: u16) -> Option<u16> {
        self.opponents.at(slot, team)
    }

    /// Gives a team a meeting that it lacks in a slot in which it is free.
    fn climb_from_team(&mut self, random: &mut Pcg32) {
        let team = self.any_team(random);
        let Some(slot) = self.free_slot(team, random) else {
            return;
        };
        let Some(other) = self.lacked_opponent(team, random) else {
            return;
        };
        if let Some(third) = self.opponent(other, slot) {
            self.part(other, third, slot);
        }
        self.meet(team, other, slot);
    }

    /// Lets two teams that are free in a slot meet there.
    fn climb_from_slot(&mut self, random: &mut Pcg32) {
        let slot = self.any_slot(random);
        let start = self.any_team(random);
        let Some(team) = self.free_team(slot, start) else {
            return;
        };
        let Some(other) = self.free_team(slot, team.saturating_add(1)) else {
            return;
        };
        if let Some(before) = self.meetings.at(team, other) {
            self.part(team, other, before);
        }
        self.meet(team, other, slot);
    }

    /// Some team.
    fn any_team(&self, random: &mut Pcg32) -> u16 {
        below(random, self.n.max(1))
    }

    /// Some slot of the first half.
    fn any_slot(&self, random: &mut Pcg32) -> u16 {
        below(random, self.slots.max(1))
    }

    /// The first slot, from some slot on, in which a team is free.
    fn free_slot(&self, team: u16, random: &mut Pcg32) -> Option<u16> {
        let start = self.any_slot(random);
        for step in 0..self.slots {
            let slot = on_from(start, step, self.slots);
            if self.opponent(team, slot).is_none() {
                return Some(slot);
            }
        }
        None
    }

    /// The first team, from some team on, that a team has not met.
    fn lacked_opponent(&self, team: u16, random: &mut Pcg32) -> Option<u16> {
        let start = self.any_team(random);
        for step in 0..self.n {
            let other = on_from(start, step, self.n);
            if other != team && self.meetings.at(team, other).is_none() {
                return Some(other);
            }
        }
        None
    }

    /// The first team, from one on, that is free in a slot.
    fn free_team(&self, slot: u16, start: u16) -> Option<u16> {
        for team in start..self.n {
            if self.opponent(team, slot).is_none() {
                return Some(team);
            }
        }
        None
    }

    /// Lets two teams meet in a slot.
    fn meet(&mut self, team: u16, other: u16, slot: u16) {
        self.opponents.set(slot, team, Some(other));
        self.opponents.set(slot, other, Some(team));
        self.meetings.set(team, other, Some(slot));
        self.meetings.set(other, team, Some(slot));
        self.met = self.met.saturating_add(1);
    }

    /// Lets two teams not meet in a slot any more.
    fn part(&mut self, team: u16, other: u16, slot: u16) {
        self.opponents.set(slot, team, None);
        self.opponents.set(slot, other, None);
        self.meetings.set(team, other, None);
        self.meetings.set(other, team, None);
        self.met = self.met.saturating_sub(1);
    }
}
