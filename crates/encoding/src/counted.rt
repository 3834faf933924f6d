//! The literals that a key counts, as they are listed.
ghost use Rattle.std.specs.Prelude.{◌≡◌, ◌<◌, ◌≤◌, ◌++◌, map, IfOk, OnOk, if◌then◌else◌};
ghost use Rattle.std.specs.List.{filter, flat_map};
ghost use Rattle.league.specs.Capacity as capacity;
ghost use Rattle.league.specs.Counts.{slot_count};
ghost use Rattle.league.specs.Meetings.{meetings_of};
ghost use Rattle.encoding.specs.Ascending.{AreSlots, AreTeams};
ghost use Rattle.encoding.specs.Keys.{IsListable, literals_of};
ghost use Rattle.encoding.specs.Lists.{after_first, at_home_in, away_breaks_at, away_in, breaks_in};
ghost use Rattle.encoding.specs.Lists.{home_breaks_at, venues_in};
ghost use Rattle.encoding.specs.Pairs.{IsPair};
ghost use Rattle.encoding.specs.Variables.{ab_var, hb_var};
ghost use Rattle.rows.specs.Literals.{yes};

use crate::keys::Counted;
use crate::literals::{add_games, add_venue};
use crate::meetings::meetings_in_order;
use crate::sets::is_between;
use crate::variables::{ab_at, hb_at};
use league::{Side, TeamSet};
use rows::Lit;
use std::alloc::{AllocError, Global};

/// Adds the literals that a key counts. `all` are all meetings of n teams.
pub(crate) fn add_counted(
    literals: &mut Vec<Lit>,
    alloc: Global,
    n: u16,
    all: &[(u16, u16)],
    counted: Counted<'_>,
) -> Result<(), AllocError>
    requires n { n ≤ 40 }
    requires all { all.now ≡ meetings_of n }
    requires listable { IsListable n counted }
    ensures { OnOk result (literals.new.items ≡ literals.old.items ++ literals_of n counted.entry) }
{
    match counted {
        Counted::Venues { team, side, slots } => add_venues(literals, n, team, side, slots),
        Counted::Against {
            team,
            opponents,
            side,
            slots,
        } => {
            let meetings = meetings_in_order(alloc, side, team, opponents)?;
            add_games(literals, n, &meetings, slots)
        }
        Counted::Between {
            teams1,
            teams2,
            side,
            slots,
        } => {
            let meetings = meetings_between(alloc, all, teams1, teams2, side)?;
            add_games(literals, n, &meetings, slots)
        }
        Counted::Games { meetings, slots } => add_games(literals, n, meetings, slots),
        Counted::Breaks { team, side, slots } => add_breaks(literals, n, team, side, slots),
        Counted::AllBreaks { teams, slots } => add_all_breaks(literals, n, teams, slots),
        Counted::Lead {
            first,
            second,
            slots,
        } => add_lead(literals, n, first, second, slots),
    }
}

/// Adds the literals of the games of a team on a side in some slots; of both sides, none.
fn add_venues(
    literals: &mut Vec<Lit>,
    n: u16,
    team: u16,
    side: Side,
    slots: &[u16],
) -> Result<(), AllocError>
    requires n { n ≤ 40 }
    requires team { team < n }
    requires slots { AreSlots n slots.now }
    ensures { OnOk result (literals.new.items ≡ literals.old.items ++ venues_in side n team slots.now) }
{
    match side {
        Side::H => add_venue(literals, n, team, true, slots),
        Side::A => add_venue(literals, n, team, false, slots),
        Side::Both => Ok(()),
    }
}

/// Adds the away games of a team and the home games of a later one in some slots.
fn add_lead(
    literals: &mut Vec<Lit>,
    n: u16,
    first: u16,
    second: u16,
    slots: &[u16],
) -> Result<(), AllocError>
    requires n { n ≤ 40 }
    requires pair { IsPair n (first, second) }
    requires slots { AreSlots n slots.now }
    ensures { OnOk result (literals.new.items
        ≡ literals.old.items ++ (away_in n first slots.now ++ at_home_in n second slots.now)) }
{
    add_venue(literals, n, first, false, slots)?;
    add_venue(literals, n, second, true, slots)
}

/// The meetings of some teams with others on a side, taken from all meetings in their order.
fn meetings_between(
    alloc: Global,
    all: &[(u16, u16)],
    teams1: &TeamSet,
    teams2: &TeamSet,
    side: Side,
) -> Result<Vec<(u16, u16)>, AllocError>
    ensures { IfOk result (λ made. made.items
        ≡ filter (capacity.is_between side teams1.now teams2.now) all.now) }
{
    let mut made = Vec::with_capacity(alloc, all.len())?;
    for (home, away) in all {
        if is_between(side, teams1, teams2, *home, *away) {
            made.push((*home, *away))?;
        }
    }
    Ok(made)
}

/// Adds the literals of a team's breaks on a side at some slots.
fn add_breaks(
    literals: &mut Vec<Lit>,
    n: u16,
    team: u16,
    side: Side,
    slots: &[u16],
) -> Result<(), AllocError>
    requires n { n ≤ 40 }
    requires team { team < n }
    requires slots { AreSlots n slots.now }
    ensures { OnOk result (literals.new.items ≡ literals.old.items ++ breaks_in side n team slots.now) }
{
    match side {
        Side::H => add_breaks_of(literals, n, team, true, slots),
        Side::A => add_breaks_of(literals, n, team, false, slots),
        Side::Both => {
            add_breaks_of(literals, n, team, true, slots)?;
            add_breaks_of(literals, n, team, false, slots)
        }
    }
}

/// Adds the literals of the breaks of some teams at some slots: all home breaks, then all away breaks.
fn add_all_breaks(
    literals: &mut Vec<Lit>,
    n: u16,
    teams: &[u16],
    slots: &[u16],
) -> Result<(), AllocError>
    requires n { n ≤ 40 }
    requires teams { AreTeams n teams.now }
    requires slots { AreSlots n slots.now }
    ensures { OnOk result (literals.new.items
        ≡ literals.old.items ++ (flat_map (λ i. home_breaks_at n i slots.now) teams.now
        ++ flat_map (λ i. away_breaks_at n i slots.now) teams.now)) }
{
    add_team_breaks(literals, n, teams, true, slots)?;
    add_team_breaks(literals, n, teams, false, slots)
}

/// Adds the literals of the home breaks, or of the away breaks, of some teams at some slots.
fn add_team_breaks(
    literals: &mut Vec<Lit>,
    n: u16,
    teams: &[u16],
    home: bool,
    slots: &[u16],
) -> Result<(), AllocError>
    requires n { n ≤ 40 }
    requires teams { AreTeams n teams.now }
    requires slots { AreSlots n slots.now }
    ensures { OnOk result (literals.new.items ≡ literals.old.items ++ flat_map
        (λ i. map (λ s. yes (if home then hb_var n i s else ab_var n i s)) (after_first slots.now)) teams.now) }
{
    for team in teams {
        add_breaks_of(literals, n, *team, home, slots)?;
    }
    Ok(())
}

/// Adds the literals of a team's home breaks, or of its away breaks, at some slots: slot 0 has none.
fn add_breaks_of(
    literals: &mut Vec<Lit>,
    n: u16,
    team: u16,
    home: bool,
    slots: &[u16],
) -> Result<(), AllocError>
    requires n { n ≤ 40 }
    requires team { team < n }
    requires slots { AreSlots n slots.now }
    ensures { OnOk result (literals.new.items ≡ literals.old.items
        ++ map (λ s. yes (if home then hb_var n team s else ab_var n team s)) (after_first slots.now)) }
{
    for slot in slots {
        if *slot > 0 {
            literals.push(break_at(n, team, home, *slot))?;
        }
    }
    Ok(())
}

/// The literal of a team's home break, or of its away break, at a slot from 1 on.
fn break_at(n: u16, team: u16, home: bool, slot: u16) -> Lit
    requires n { n ≤ 40 }
    requires team { team < n }
    requires later { 0 < slot }
    requires slot { slot < slot_count n }
    ensures { result ≡ yes (if home then hb_var n team slot else ab_var n team slot) }
{
    let var = if home {
        hb_at(n, team, slot)
    } else {
        ab_at(n, team, slot)
    };
    Lit::new(var, true)
}
