//! The schedule that values of variables stand for.
ghost use Rattle.std.specs.Prelude.{◌≡◌, ◌<◌, ◌≤◌, ◌++◌, length, IfOk, OnOk};
ghost use Rattle.std.specs.List.{All, flat_map};
ghost use Rattle.league.specs.Counts as counts;
ghost use Rattle.league.specs.Instance.{IsTeamCount};
ghost use Rattle.rows.specs.Values.{assigned};
ghost use Rattle.encoding.specs.Ascending.{IsMeeting};
ghost use Rattle.encoding.specs.Shadow.{decoded};
ghost use Rattle.encoding.specs.Variables as variables;
ghost use Rattle.resume.specs.Found.{game_if_true};

use crate::system::season_meetings;
use encoding::x_at;
use league::{Game, Schedule, SlotId, TeamId, slot_count};
use rows::Assignment;
use std::alloc::{AllocError, Global};

/// The games of a league of n teams whose variables are true, in order of slot, home team and away team.
///
/// # Errors
/// Only where memory runs out.
pub(crate) fn season_of(alloc: Global, n: u16, values: &Assignment) -> Result<Schedule, AllocError>
    requires teams { IsTeamCount n }
    requires made_for { variables.x_count n ≤ length values.now }
    ensures { IfOk result (λ season. season ≡ decoded n (assigned values.now)) }
{
    let meetings = season_meetings(alloc, n)?;
    let mut season = Schedule::new(alloc);
    for slot in 0..slot_count(n) {
        add_slot(&mut season, n, values, &meetings, slot)?;
    }
    Ok(season)
}

/// Adds the games of some meetings in a slot whose variables are true.
///
/// # Errors
/// Only where memory runs out.
fn add_slot(
    season: &mut Schedule,
    n: u16,
    values: &Assignment,
    meetings: &[(u16, u16)],
    slot: u16,
) -> Result<(), AllocError>
    requires teams { n ≤ 40 }
    requires made_for { variables.x_count n ≤ length values.now }
    requires fit { All (IsMeeting n) meetings.now }
    requires slot { slot < counts.slot_count n }
    ensures { OnOk result
        (season.new ≡ season.old ++ flat_map (game_if_true n (assigned values.now) slot) meetings.now) }
{
    for meeting in meetings {
        add_if_true(season, n, values, *meeting, slot)?;
    }
    Ok(())
}

/// Adds the game of a meeting in a slot, where its variable is true.
///
/// # Errors
/// Only where memory runs out.
fn add_if_true(
    season: &mut Schedule,
    n: u16,
    values: &Assignment,
    meeting: (u16, u16),
    slot: u16,
) -> Result<(), AllocError>
    requires teams { n ≤ 40 }
    requires made_for { variables.x_count n ≤ length values.now }
    requires fits { IsMeeting n meeting }
    requires slot { slot < counts.slot_count n }
    ensures { OnOk result (season.new ≡ season.old ++ game_if_true n (assigned values.now) slot meeting) }
{
    if values.value(x_at(n, meeting.0, meeting.1, slot)) {
        season.push(Game {
            home: TeamId(meeting.0),
            away: TeamId(meeting.1),
            slot: SlotId(slot),
        })?;
    }
    Ok(())
}
