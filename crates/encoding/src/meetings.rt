//! Lists of meetings and of pairs of teams, as the definitions list them.
ghost use Rattle.std.specs.Prelude.{◌≡◌, ◌++◌, map, nat_lt, IfOk, OnOk};
ghost use Rattle.std.specs.List.{filter, flat_map};
ghost use Rattle.league.specs.Capacity.{meetings_with};
ghost use Rattle.league.specs.Meetings as meetings;
ghost use Rattle.league.specs.declared.class.Side.TheVariants as side;
ghost use Rattle.encoding.specs.Lists as lists;

use league::Side;
use std::alloc::{AllocError, Global};

/// The meetings of a team with these teams on a side, itself left out, in order of home team, then away team.
pub fn meetings_in_order(
    alloc: Global,
    side: Side,
    team: u16,
    teams: &[u16],
) -> Result<Vec<(u16, u16)>, AllocError>
    ensures { IfOk result (λ meetings. meetings.items ≡ lists.meetings_in_order side team teams.now) }
{
    let mut meetings = Vec::with_capacity(alloc, teams.len().saturating_mul(2))?;
    match side {
        Side::H => add_home_meetings(&mut meetings, team, teams)?,
        Side::A => add_away_meetings(&mut meetings, team, teams)?,
        Side::Both => add_both(&mut meetings, team, teams)?,
    }
    Ok(meetings)
}

/// Adds the meetings of a team with these teams at home and away, in order of home team, then away team.
fn add_both(meetings: &mut Vec<(u16, u16)>, team: u16, teams: &[u16]) -> Result<(), AllocError>
    ensures { OnOk result
        (meetings.new.items ≡ meetings.old.items ++ lists.meetings_in_order side.Both team teams.now) }
{
    add_visits_to_earlier(meetings, team, teams)?;
    add_home_meetings(meetings, team, teams)?;
    add_visits_to_later(meetings, team, teams)
}

/// Adds the meetings of a team at home to these teams, itself left out.
fn add_home_meetings(
    meetings: &mut Vec<(u16, u16)>,
    team: u16,
    teams: &[u16],
) -> Result<(), AllocError>
    ensures { OnOk result
        (meetings.new.items ≡ meetings.old.items ++ meetings_with side.H team teams.now) }
{
    for other in teams {
        if *other != team {
            meetings.push((team, *other))?;
        }
    }
    Ok(())
}

/// Adds the meetings of a team away at these teams, itself left out.
fn add_away_meetings(
    meetings: &mut Vec<(u16, u16)>,
    team: u16,
    teams: &[u16],
) -> Result<(), AllocError>
    ensures { OnOk result
        (meetings.new.items ≡ meetings.old.items ++ meetings_with side.A team teams.now) }
{
    for other in teams {
        if *other != team {
            meetings.push((*other, team))?;
        }
    }
    Ok(())
}

/// Adds the meetings of a team away at those of these teams that stand before it.
fn add_visits_to_earlier(
    meetings: &mut Vec<(u16, u16)>,
    team: u16,
    teams: &[u16],
) -> Result<(), AllocError>
    ensures { OnOk result (meetings.new.items
        ≡ meetings.old.items ++ map (λ j. (j, team)) (filter (λ j. nat_lt j team) teams.now)) }
{
    for other in teams {
        if *other < team {
            meetings.push((*other, team))?;
        }
    }
    Ok(())
}

/// Adds the meetings of a team away at those of these teams that stand after it.
fn add_visits_to_later(
    meetings: &mut Vec<(u16, u16)>,
    team: u16,
    teams: &[u16],
) -> Result<(), AllocError>
    ensures { OnOk result (meetings.new.items
        ≡ meetings.old.items ++ map (λ j. (j, team)) (filter (λ j. nat_lt team j) teams.now)) }
{
    for other in teams {
        if team < *other {
            meetings.push((*other, team))?;
        }
    }
    Ok(())
}

/// All meetings of these teams, by home team, then away team.
pub fn all_meetings(alloc: Global, teams: &[u16]) -> Result<Vec<(u16, u16)>, AllocError>
    ensures { IfOk result (λ meetings. meetings.items
        ≡ flat_map (λ i. meetings_with side.H i teams.now) teams.now) }
{
    let mut meetings = Vec::with_capacity(alloc, teams.len().saturating_mul(teams.len()))?;
    for team in teams {
        add_home_meetings(&mut meetings, *team, teams)?;
    }
    Ok(meetings)
}

/// The pairs of these teams, each with those after it.
pub fn pairs_of(alloc: Global, teams: &[u16]) -> Result<Vec<(u16, u16)>, AllocError>
    ensures { IfOk result (λ pairs. pairs.items ≡ meetings.pairs_of teams.now) }
{
    let mut pairs = Vec::with_capacity(alloc, pairs_at_most(teams.len()))?;
    let mut left = teams;
    while let Some((first, later)) = left.split_first() {
        add_pairs_with(&mut pairs, *first, later)?;
        left = later;
    }
    Ok(pairs)
}

/// Adds the pairs of a team with each of these.
fn add_pairs_with(pairs: &mut Vec<(u16, u16)>, first: u16, later: &[u16]) -> Result<(), AllocError>
    ensures { OnOk result (pairs.new.items ≡ pairs.old.items ++ map (λ j. (first, j)) later.now) }
{
    for second in later {
        pairs.push((first, *second))?;
    }
    Ok(())
}

/// How many pairs so many teams have.
fn pairs_at_most(teams: usize) -> usize {
    teams.saturating_mul(teams.saturating_sub(1)) / 2
}
