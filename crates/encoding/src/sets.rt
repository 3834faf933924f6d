//! The sets of a constraint that fits a league: what their numbers are, and which meetings two of them have.
ghost use Rattle.std.specs.Prelude.{◌≡◌, ◌-◌, ◌*◌, ◌/◌, ◌<◌, ◌≤◌, length, IfOk, IsTrue};
ghost use Rattle.std.specs.List.{All};
ghost use Rattle.league.specs.Capacity as capacity;
ghost use Rattle.league.specs.Counts.{slot_count};
ghost use Rattle.league.specs.Instance.{are_meetings, are_slots, are_teams};
ghost use Rattle.league.specs.Meetings as meetings;
ghost use Rattle.league.specs.Sets.{is_in};
ghost use Rattle.encoding.specs.Ascending.{AreMeetings, AreSlots, AreTeams};
ghost use Rattle.encoding.specs.Pairs.{IsPair};

use crate::meetings::pairs_of;
use league::{PairSet, Side, SlotSet, TeamId, TeamSet};
use std::alloc::{AllocError, Global};

/// The numbers of some teams of a league of n teams, at most 40.
pub fn team_numbers(n: u16, teams: &TeamSet) -> &[u16]
    requires n { n ≤ 40 }
    requires teams { IsTrue (are_teams n teams.now) }
    ensures numbers { result.now ≡ teams.now }
    ensures below { All (λ i. i < n) result.now }
    ensures order { AreTeams n result.now }
    ensures few { length result.now ≤ 40 }
{
    teams.numbers()
}

/// The numbers of some slots of its season, at most 78.
pub fn slot_numbers(n: u16, slots: &SlotSet) -> &[u16]
    requires n { n ≤ 40 }
    requires slots { IsTrue (are_slots n slots.now) }
    ensures numbers { result.now ≡ slots.now }
    ensures below { All (λ s. s < slot_count n) result.now }
    ensures order { AreSlots n result.now }
    ensures few { length result.now ≤ 78 }
{
    slots.numbers()
}

/// The home and away teams of some meetings, at most 1,560.
pub fn meeting_numbers(n: u16, meetings: &PairSet) -> &[(u16, u16)]
    requires n { n ≤ 40 }
    requires meetings { IsTrue (are_meetings n meetings.now) }
    ensures numbers { result.now ≡ meetings.now }
    ensures order { AreMeetings n result.now }
    ensures few { length result.now ≤ 1560 }
{
    meetings.numbers()
}

/// The pairs of some teams, at most 780.
pub fn team_pairs(alloc: Global, n: u16, teams: &TeamSet) -> Result<Vec<(u16, u16)>, AllocError>
    requires n { n ≤ 40 }
    requires teams { IsTrue (are_teams n teams.now) }
    ensures pairs { IfOk result (λ pairs. pairs.items ≡ meetings.pairs_of teams.now) }
    ensures fit { IfOk result (λ pairs. All (IsPair n) pairs.items) }
    ensures few { IfOk result (λ pairs. length pairs.items ≤ 780) }
{
    pairs_of(alloc, teams.numbers())
}

/// How many pairs the teams of a set have: at most 780. No pair is listed.
pub fn pair_total(n: u16, teams: &TeamSet) -> u64
    requires n { n ≤ 40 }
    requires teams { IsTrue (are_teams n teams.now) }
    ensures count { result ≡ length (meetings.pairs_of teams.now) }
    ensures few { result ≤ 780 }
{
    let total = team_numbers(n, teams).len() as u64;
    total * total.saturating_sub(1) / 2
}

/// Whether a meeting is one of some teams with others, where the side is that of the first: two look-ups, or four for
/// both sides.
pub fn is_between(side: Side, teams1: &TeamSet, teams2: &TeamSet, home: u16, away: u16) -> bool
    ensures { result ≡ capacity.is_between side teams1.now teams2.now (home, away) }
{
    match side {
        Side::H => has(teams1, home) && has(teams2, away),
        Side::A => has(teams1, away) && has(teams2, home),
        Side::Both => {
            (has(teams1, home) && has(teams2, away)) || (has(teams1, away) && has(teams2, home))
        }
    }
}

/// Whether a team is one of these.
fn has(teams: &TeamSet, team: u16) -> bool
    ensures { result ≡ is_in team teams.now }
{
    teams.contains(TeamId(team))
}
