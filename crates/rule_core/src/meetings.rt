//! Some meetings, how often they take place, and whether a meeting is one of them: one look-up in place of a search.
ghost use Rattle.std.specs.Prelude.{◌≡◌, ◌<◌, ◌≤◌, ◌+◌, ◌*◌, length, IfOk, IsTrue};
ghost use Rattle.std.specs.List.{All, list_all, sum_by};
ghost use Rattle.league.specs.Counts.{slot_count};
ghost use Rattle.league.specs.Instance.{are_meetings, is_meeting};
ghost use Rattle.league.specs.Meetings.{games_of};
ghost use Rattle.rule_core.specs.Meetings.{is_listed};
ghost use Rattle.rule_core.specs.Table.{table_counts};

use crate::cells::Cells;
use league::{PairSet, SlotId, TeamId};
use std::alloc::{AllocError, Global};
use std::marker::Model;

/// At most 1600 meetings of a league, seen as the number of teams with the list of the meetings, each a home team and
/// an away team.
#[derive(Drop)]
pub struct Meetings {
    n: u16,
    list: Vec<(u16, u16)>,
    /// Whether each two teams' meeting is in the list, by home team, then away team.
    listed: Vec<bool>,
}

impl Model for Meetings {
    ghost use Rattle.rule_core.specs.KeptMeetings.{AreTabled};
    ghost use Rattle.rule_core.specs.Meetings.{MeetingList};

    ghost Value = { MeetingList };

    ghost view = { λ m. record { n = m.n; list = m.list.items } };

    ghost invariant = { λ m. AreTabled m.n m.list.items m.listed.items };
}

impl Meetings {
    /// A set of meetings of a league of n teams.
    ///
    /// # Errors
    /// Only where memory runs out.
    pub fn of_set(alloc: Global, n: u16, meetings: &PairSet) -> Result<Meetings, AllocError>
        requires at_most { n ≤ 40 }
        requires meetings { IsTrue (are_meetings n meetings.now) }
        ensures { IfOk result (λ made. made ≡ record { n = n; list = meetings.now }) }
    {
        Meetings::of(alloc, n, meetings.numbers())
    }

    /// A list of meetings of a league of n teams.
    ///
    /// # Errors
    /// Only where memory runs out.
    pub fn of(alloc: Global, n: u16, meetings: &[(u16, u16)]) -> Result<Meetings, AllocError>
        requires at_most { n ≤ 40 }
        requires teams { IsTrue (list_all (is_meeting n) meetings.now) }
        requires few { length meetings.now ≤ 1600 }
        ensures { IfOk result (λ made. made ≡ record { n = n; list = meetings.now }) }
    {
        let teams = n as usize;
        let mut listed = vec![in alloc; false; teams * teams]?;
        for (home, away) in meetings {
            listed[row_of(n, TeamId(*home), TeamId(*away))] = true;
        }
        Ok(Meetings {
            n,
            list: Vec::from_slice(alloc, meetings)?,
            listed,
        })
    }

    /// The number of teams of the league.
    pub fn n(&self) -> u16
        ensures { result ≡ self.now.n }
    {
        self.n
    }

    /// Whether the meeting of a home team and an away team is one of these. It is one look-up.
    pub fn has(&self, home: TeamId, away: TeamId) -> bool
        requires home { home.0 < self.now.n }
        requires away { away.0 < self.now.n }
        ensures { result ≡ is_listed self.now.list home.0 away.0 }
    {
        self.listed[row_of(self.n, home, away)]
    }

    /// How many games of these meetings are played in these slots: one look-up for each meeting in each slot.
    pub fn games(&self, cells: &Cells, slots: &[u16]) -> u64
        requires teams { cells.now.n ≡ self.now.n }
        requires slots { All (λ s. s < slot_count self.now.n) slots.now }
        requires few { length slots.now ≤ 78 }
        ensures { result ≡ games_of (table_counts cells.now) self.now.list slots.now }
    {
        let mut games: u64 = 0;
        for (home, away) in &self.list {
            games += games_between(cells, TeamId(*home), TeamId(*away), slots);
        }
        games
    }
}

/// How many games of a home team with an away team are played in these slots.
fn games_between(cells: &Cells, home: TeamId, away: TeamId, slots: &[u16]) -> u64
    requires home { home.0 < cells.now.n }
    requires away { away.0 < cells.now.n }
    requires slots { All (λ s. s < slot_count cells.now.n) slots.now }
    requires few { length slots.now ≤ 78 }
    ensures games { result ≡ sum_by (λ s. table_counts cells.now home.0 away.0 s) slots.now }
    ensures at_most { result ≤ 780000 }
{
    let mut games: u64 = 0;
    for slot in slots {
        games += cells.at(home, away, SlotId(*slot)) as u64;
    }
    games
}

/// The place of the meeting of a home team with an away team, in rows of n.
fn row_of(n: u16, home: TeamId, away: TeamId) -> usize
    ensures { result ≡ home.0 * n + away.0 }
{
    home.0 as usize * n as usize + away.0 as usize
}
