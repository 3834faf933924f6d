//! A random double round robin to start from.
ghost use Rattle.std.specs.Prelude.{◌≡◌, ◌≢◌, ◌<◌, ◌*◌, ◌-◌, IfOk, IfSome, OnOk};
ghost use Rattle.std.specs.List.{All};
ghost use Rattle.league.specs.Instance.{IsGame, IsTeamCount};
ghost use Rattle.walk.specs.Standing.{IsStartIn};

use crate::draws::below;
use crate::factors::Factors;
use league::{Game, League, Schedule, SlotId, TeamId, structure};
use rand_pcg::Pcg32;
use std::alloc::{AllocError, Global};

/// How many steps a climb may take.
const CLIMB: u32 = 200_000;

/// A random double round robin of a league, whose second half mirrors its first, if one is found.
///
/// # Errors
/// Only where memory runs out.
pub(crate) fn random_start(
    alloc: Global,
    league: &League,
    random: &mut Pcg32,
) -> Result<Option<Schedule>, AllocError>
    ensures { IfOk result (λ found. IfSome found (IsStartIn league.now)) }
{
    let n = league.n();
    let Some(factors) = Factors::drawn(n, random, CLIMB) else {
        return Ok(None);
    };
    let schedule = mirrored(alloc, n, &factors, random)?;
    if schedule.len() > 10000 {
        return Ok(None);
    }
    let wrongs = structure(league, &schedule);
    if wrongs.pairs_wrong == 0 && wrongs.cells_wrong == 0 && wrongs.phases_wrong == 0 {
        Ok(Some(schedule))
    } else {
        Ok(None)
    }
}

/// The meetings at random venues, and then at the other ones.
///
/// # Errors
/// Only where memory runs out.
fn mirrored(
    alloc: Global,
    n: u16,
    factors: &Factors,
    random: &mut Pcg32,
) -> Result<Schedule, AllocError>
    requires teams { IsTeamCount n }
    ensures { IfOk result (All (IsGame n)) }
{
    let mut schedule = Schedule::new(alloc);
    for slot in 0..n - 1 {
        add_slot(&mut schedule, n, slot, factors, random)?;
    }
    Ok(schedule)
}

/// Adds the games of a slot of the first half, and those of its mirror.
///
/// # Errors
/// Only where memory runs out.
fn add_slot(
    schedule: &mut Schedule,
    n: u16,
    slot: u16,
    factors: &Factors,
    random: &mut Pcg32,
) -> Result<(), AllocError>
    requires teams { IsTeamCount n }
    requires slot { slot < n - 1 }
    requires fit { All (IsGame n) schedule.old }
    ensures { OnOk result (All (IsGame n) schedule.new) }
{
    for team in 0..n {
        let opponent = factors.opponent(team, slot);
        add_pair(schedule, n, team, opponent, slot, random)?;
    }
    Ok(())
}

/// Adds the games of a team and its opponent in a slot, where that is a later team.
///
/// # Errors
/// Only where memory runs out.
fn add_pair(
    schedule: &mut Schedule,
    n: u16,
    team: u16,
    opponent: Option<u16>,
    slot: u16,
    random: &mut Pcg32,
) -> Result<(), AllocError>
    requires teams { IsTeamCount n }
    requires slot { slot < n - 1 }
    requires fit { All (IsGame n) schedule.old }
    ensures { OnOk result (All (IsGame n) schedule.new) }
{
    let Some(other) = opponent else {
        return Ok(());
    };
    if other <= team || n <= other {
        return Ok(());
    }
    if below(random, 2) == 0 {
        add_meeting(schedule, n, TeamId(team), TeamId(other), slot)
    } else {
        add_meeting(schedule, n, TeamId(other), TeamId(team), slot)
    }
}

/// Adds the two games of two teams, the first at the first one's home.
///
/// # Errors
/// Only where memory runs out.
fn add_meeting(
    schedule: &mut Schedule,
    n: u16,
    home: TeamId,
    away: TeamId,
    slot: u16,
) -> Result<(), AllocError>
    requires teams { IsTeamCount n }
    requires slot { slot < n - 1 }
    requires home { home.0 < n }
    requires away { away.0 < n }
    requires differ { home.0 ≢ away.0 }
    requires fit { All (IsGame n) schedule.old }
    ensures { OnOk result (All (IsGame n) schedule.new) }
{
    schedule.push(Game {
        home,
        away,
        slot: SlotId(slot),
    })?;
    schedule.push(Game {
        home: away,
        away: home,
        slot: SlotId(slot + (n - 1)),
    })?;
    Ok(())
}
