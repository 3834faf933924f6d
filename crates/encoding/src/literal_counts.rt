//! How many literals a key counts: by its sides, teams, slots and meetings.
ghost use Rattle.std.specs.Prelude.{◌≡◌, ◌*◌, ◌≤◌, ℕ, ◌&&◌, ◌==◌, not, if◌then◌else◌, length};
ghost use Rattle.std.specs.List.{count_by, filter};
ghost use Rattle.league.specs.Capacity as capacity;
ghost use Rattle.league.specs.Counts.{teams_of};
ghost use Rattle.league.specs.Meetings.{meetings_of, others};
ghost use Rattle.encoding.specs.Ascending.{AreMeetings, AreSlots, AreTeams};
ghost use Rattle.encoding.specs.Keys.{IsListable, literals_of, most_counted};
ghost use Rattle.encoding.specs.Lists.{after_first, venues_in};
ghost use Rattle.encoding.specs.Terms as terms;

use crate::keys::Counted;
use crate::sets::is_between;
use league::{Side, TeamSet};

/// How many literals a key of a league of n teams counts. None is listed.
pub fn literal_count(n: u16, counted: Counted<'_>) -> u64
    requires n { n ≤ 40 }
    requires listable { IsListable n counted }
    ensures count { result ≡ length (literals_of n counted.entry) }
    ensures few { result ≤ most_counted counted.entry }
{
    match counted {
        Counted::Venues { side, slots, .. } => venue_total(n, side, slots),
        Counted::Against {
            team,
            opponents,
            side,
            slots,
        } => side_total(side) * other_total(team, opponents) * slot_total(n, slots),
        Counted::Between {
            teams1,
            teams2,
            side,
            slots,
        } => between_total(n, side, teams1, teams2) * slot_total(n, slots),
        Counted::Games { meetings, slots } => meeting_total(n, meetings) * slot_total(n, slots),
        Counted::Breaks { side, slots, .. } => side_total(side) * later_total(n, slots),
        Counted::AllBreaks { teams, slots } => 2 * (team_total(n, teams) * later_total(n, slots)),
        Counted::Lead { slots, .. } => 2 * slot_total(n, slots),
    }
}

/// On how many sides games are counted: 1 or 2.
fn side_total(side: Side) -> u64
    ensures sides { result ≡ terms.side_count side }
    ensures most { result ≤ 2 }
{
    match side {
        Side::H | Side::A => 1,
        Side::Both => 2,
    }
}

/// How many games of a team at home, or away, some slots have: of both sides none.
fn venue_total(n: u16, side: Side, slots: &[u16]) -> u64
    requires n { n ≤ 40 }
    requires slots { AreSlots n slots.now }
    ensures count { (i : ℕ) → result ≡ length (venues_in side n i slots.now) }
    ensures few { result ≤ 78 }
{
    match side {
        Side::H => slot_total(n, slots),
        Side::A => slot_total(n, slots),
        Side::Both => 0,
    }
}

/// How many teams these are: at most 40.
fn team_total(n: u16, teams: &[u16]) -> u64
    requires n { n ≤ 40 }
    requires teams { AreTeams n teams.now }
    ensures count { result ≡ length teams.now }
    ensures few { result ≤ 40 }
{
    teams.len() as u64
}

/// How many slots these are: at most 78.
fn slot_total(n: u16, slots: &[u16]) -> u64
    requires n { n ≤ 40 }
    requires slots { AreSlots n slots.now }
    ensures count { result ≡ length slots.now }
    ensures few { result ≤ 78 }
{
    slots.len() as u64
}

/// How many of some slots have a slot before them, so that a break can stand there: all but slot 0.
fn later_total(n: u16, slots: &[u16]) -> u64
    requires n { n ≤ 40 }
    requires slots { AreSlots n slots.now }
    ensures count { result ≡ length (after_first slots.now) }
    ensures few { result ≤ 78 }
{
    later_count(slots)
}

/// How many of some slots have a slot before them.
fn later_count(slots: &[u16]) -> u64
    ensures count { result ≡ length (after_first slots.now) }
    ensures few { result ≤ length slots.now }
{
    slots.iter().filter(|slot| **slot > 0).count() as u64
}

/// How many meetings these are: at most 1,560.
fn meeting_total(n: u16, meetings: &[(u16, u16)]) -> u64
    requires n { n ≤ 40 }
    requires meetings { AreMeetings n meetings.now }
    ensures count { result ≡ length meetings.now }
    ensures few { result ≤ 1560 }
{
    meetings.len() as u64
}

/// How many of some teams, which are at most 40, are other than one.
fn other_total(team: u16, teams: &[u16]) -> u64
    requires { length teams.now ≤ 40 }
    ensures count { result ≡ length (others team teams.now) }
    ensures few { result ≤ 40 }
    ensures all { result ≤ length teams.now }
{
    teams.iter().filter(|other| **other != team).count() as u64
}

/// How many meetings of a league are meetings of some teams with others, on a side of the first.
fn between_total(n: u16, side: Side, teams1: &TeamSet, teams2: &TeamSet) -> u64
    requires { n ≤ 40 }
    ensures count { result
        ≡ length (filter (capacity.is_between side teams1.now teams2.now) (meetings_of n)) }
    ensures few { result ≤ 1600 }
{
    let mut total = 0;
    for home in 0..n {
        total += between_total_at(n, side, teams1, teams2, home);
    }
    total
}

/// How many of these are a team's home games.
fn between_total_at(n: u16, side: Side, teams1: &TeamSet, teams2: &TeamSet, home: u16) -> u64
    requires { n ≤ 40 }
    ensures count { result ≡ count_by
        (λ away. not (away == home) && capacity.is_between side teams1.now teams2.now (home, away)) (teams_of n) }
    ensures few { result ≤ n }
{
    let mut total = 0;
    for away in 0..n {
        total += one_between(side, teams1, teams2, home, away);
    }
    total
}

/// 1 where two teams differ and their meeting is one of these, else 0.
fn one_between(side: Side, teams1: &TeamSet, teams2: &TeamSet, home: u16, away: u16) -> u64
    ensures one { result ≡ (if not (away == home)
        && capacity.is_between side teams1.now teams2.now (home, away) then 1 else 0) }
    ensures most { result ≤ 1 }
{
    if away != home && is_between(side, teams1, teams2, home, away) {
        1
    } else {
        0
    }
}
