//! The numbers, from 1, of the rows that every league of so many teams has.
ghost use Rattle.std.specs.Prelude.{◌≡◌, ◌^◌, ◌<◌, ◌≤◌};
ghost use Rattle.league.specs.Counts as counts;

use league::{League, slot_count};

/// What the numbers of these rows depend on.
#[derive(Clone, Copy)]
pub struct Frame {
    pub n: u16,
    pub slots: u16,
    pub phased: bool,
    pub ghost teams: { n ≤ 40 },
    pub ghost season: { slots ≡ counts.slot_count n },
}

impl Frame {
    /// The frame of a league.
    pub fn new(league: &League) -> Frame
        ensures n { result.n ≡ league.now.n }
        ensures slots { result.slots ≡ counts.slot_count league.now.n }
    {
        let n = league.n();
        Frame {
            n,
            slots: slot_count(n),
            phased: league.phased(),
        }
    }

    /// The number of the row that says: two teams meet at this venue once or more.
    pub fn meeting(self, home: u16, away: u16) -> u64
        ensures { result < 2 ^ 40 }
    {
        let beside = if away < home {
            away
        } else {
            away.saturating_sub(1)
        };
        1 + 2 * place(home, self.n.saturating_sub(1), beside)
    }

    /// The number of the row that says: a team has no more than one game in a slot.
    pub fn one_game(self, team: u16, slot: u16) -> u64
        ensures { result < 2 ^ 40 }
    {
        self.meetings() + 2 + 2 * place(team, self.slots, slot)
    }

    /// The number of the row that says, in a phased league: two teams meet in the first half once or more. The next row
    /// says: no more than once.
    pub fn half(self, first: u16, second: u16) -> u64
        ensures { result < 2 ^ 40 }
    {
        let later = (2 * self.n).saturating_sub(1);
        let before = place(first, later.saturating_sub(first), 0) / 2;
        let beside = second.saturating_sub(first).saturating_sub(1);
        self.meetings() + self.cells() + 1 + 2 * (before + u64::from(beside))
    }

    /// The number of the row that says: if a team's venue in a slot is home, it has a home game there. The next row says:
    /// else it has none.
    pub fn venue(self, team: u16, slot: u16) -> u64
        ensures { result < 2 ^ 40 }
    {
        self.meetings() + self.cells() + self.halves() + 1 + 2 * place(team, self.slots, slot)
    }

    /// The number of the row that says: a team that is at home in a slot and in the slot before has a home break there.
    /// The third row after it says: a team that is away in both has an away break there.
    pub fn home_break(self, team: u16, slot: u16) -> u64
        ensures { result < 2 ^ 40 }
    {
        let before = self.meetings() + self.cells() + self.halves() + self.cells();
        let venues = 2 * u64::from(self.slots) + 2 * u64::from(self.n);
        before + venues + 3 + 6 * place(team, self.slots.saturating_sub(1), slot.saturating_sub(1))
    }

    /// How many rows say that each meeting takes place once.
    fn meetings(self) -> u64
        ensures { result < 2 ^ 34 }
    {
        2 * place(self.n, self.n.saturating_sub(1), 0)
    }

    /// How many rows say something of each team in each slot.
    fn cells(self) -> u64
        ensures { result < 2 ^ 34 }
    {
        2 * place(self.n, self.slots, 0)
    }

    /// How many rows say that each two teams meet once in the first half.
    fn halves(self) -> u64
        ensures { result < 2 ^ 34 }
    {
        if self.phased {
            place(self.n, self.n.saturating_sub(1), 0)
        } else {
            0
        }
    }
}

/// The place of a pair of numbers, in order of the outer one and then of the inner one, which is below `count`.
fn place(outer: u16, count: u16, inner: u16) -> u64
    ensures { result < 2 ^ 33 }
{
    u64::from(outer) * u64::from(count) + u64::from(inner)
}
