//! The teams, slots and meetings of a season.
ghost use Rattle.std.specs.Prelude.{◌≡◌, ◌+◌, ◌*◌, ◌-◌, ◌<◌, ◌≤◌, length, take, drop, IfOk};
ghost use Rattle.std.specs.List.{All, range_with_len};
ghost use Rattle.league.specs.Counts as counts;
ghost use Rattle.league.specs.Instance.{IsTeamCount};
ghost use Rattle.league.specs.Meetings.{meetings_of};
ghost use Rattle.encoding.specs.Ascending.{AreMeetings, AreSlots, AreTeams};

use crate::meetings::all_meetings;
use league::slot_count;
use std::alloc::{AllocError, Global};
use std::marker::Model;

/// The season of n teams, with its teams, slots and meetings in order: seen as n.
#[derive(Drop)]
pub struct Season {
    n: u16,
    teams: Vec<u16>,
    slots: Vec<u16>,
    meetings: Vec<(u16, u16)>,
}

impl Model for Season {
    ghost use Rattle.std.specs.Prelude.{ℕ};
    ghost use Rattle.encoding.specs.Ascending.{IsListed};

    ghost Value = { ℕ };

    ghost view = { λ s. s.n };

    ghost invariant = { λ s. IsListed s.n s.teams.items s.slots.items s.meetings.items };
}

impl Season {
    /// The season of n teams.
    ///
    /// # Errors
    /// Only where memory runs out.
    pub fn new(alloc: Global, n: u16) -> Result<Season, AllocError>
        requires { IsTeamCount n }
        ensures { IfOk result (λ season. season ≡ n) }
    {
        let teams = numbers(alloc, n)?;
        let slots = numbers(alloc, slot_count(n))?;
        let meetings = all_meetings(alloc, &teams)?;
        Ok(Season {
            n,
            teams,
            slots,
            meetings,
        })
    }

    /// The number of teams.
    pub fn n(&self) -> u16
        ensures n { result ≡ self.now }
        ensures count { IsTeamCount self.now }
    {
        self.n
    }

    /// The teams in order.
    pub(crate) fn teams(&self) -> &[u16]
        ensures teams { result.now ≡ counts.teams_of self.now }
        ensures ascend { AreTeams self.now result.now }
        ensures below { All (λ t. t < self.now) result.now }
        ensures few { length result.now ≡ self.now }
        ensures at_most { length result.now ≤ 40 }
    {
        &self.teams
    }

    /// The slots in order.
    pub(crate) fn slots(&self) -> &[u16]
        ensures slots { result.now ≡ counts.slots_of self.now }
        ensures ascend { AreSlots self.now result.now }
        ensures below { All (λ s. s < counts.slot_count self.now) result.now }
        ensures few { length result.now ≡ counts.slot_count self.now }
        ensures at_most { length result.now ≤ 78 }
    {
        &self.slots
    }

    /// The meetings in order of home team, then away team.
    pub(crate) fn meetings(&self) -> &[(u16, u16)]
        ensures meetings { result.now ≡ meetings_of self.now }
        ensures are { AreMeetings self.now result.now }
        ensures at_most { length result.now ≤ 1560 }
    {
        &self.meetings
    }

    /// So many consecutive slots, from the first on.
    pub(crate) fn run(&self, first: u16, count: u16) -> &[u16]
        requires { first + count ≤ counts.slot_count self.now }
        ensures slots { result.now ≡ range_with_len first count }
        ensures ascend { AreSlots self.now result.now }
    {
        let first = first as usize;
        part(self.slots(), first, first + count as usize)
    }
}

/// The numbers from one place to another.
fn part(numbers: &[u16], first: usize, end: usize) -> &[u16]
    requires order { first ≤ end }
    requires within { end ≤ length numbers.now }
    ensures { result.now ≡ take (end - first) (drop first numbers.now) }
{
    &numbers[first..end]
}

/// The numbers below a bound in order.
fn numbers(alloc: Global, bound: u16) -> Result<Vec<u16>, AllocError>
    ensures { IfOk result (λ numbers. numbers.items ≡ range_with_len 0 bound) }
{
    let mut numbers = Vec::with_capacity(alloc, bound as usize)?;
    for number in 0..bound {
        numbers.push(number)?;
    }
    Ok(numbers)
}
