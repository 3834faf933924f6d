//! Sets of numbers.
ghost use Rattle.std.specs.Prelude.{◌≡◌, ◌+◌, ◌<◌, ◌^◌, IfOk};
ghost use Rattle.std.specs.List.{range_with_len};
ghost use Rattle.league.specs.Counts.{teams_of};
ghost use Rattle.instance_gen.specs.Draws.{set_of};

use league::{SlotId, SlotSet, TeamId, TeamSet};
use std::alloc::{AllocError, Global};

/// The set of these teams: repeats are dropped.
pub(crate) fn team_set(alloc: Global, teams: &[u16]) -> Result<TeamSet, AllocError>
    ensures { IfOk result (λ set. set ≡ set_of teams.now) }
{
    let mut set = TeamSet::new(alloc);
    for team in teams {
        set.insert(TeamId(*team))?;
    }
    Ok(set)
}

/// The set of these slots: repeats are dropped.
pub(crate) fn slot_set(alloc: Global, slots: &[u16]) -> Result<SlotSet, AllocError>
    ensures { IfOk result (λ set. set ≡ set_of slots.now) }
{
    let mut set = SlotSet::new(alloc);
    for slot in slots {
        set.insert(SlotId(*slot))?;
    }
    Ok(set)
}

/// All teams of a league of n teams.
pub(crate) fn all_teams(alloc: Global, n: u16) -> Result<TeamSet, AllocError>
    ensures { IfOk result (λ set. set ≡ teams_of n) }
{
    let mut set = TeamSet::new(alloc);
    for team in 0..n {
        set.insert(TeamId(team))?;
    }
    Ok(set)
}

/// So many slots in a row, from the first.
pub(crate) fn slots_from(alloc: Global, first: u16, count: u16) -> Result<SlotSet, AllocError>
    requires { first + count < 2 ^ 16 }
    ensures { IfOk result (λ set. set ≡ range_with_len first count) }
{
    let mut set = SlotSet::new(alloc);
    for k in 0..count {
        set.insert(SlotId(first + k))?;
    }
    Ok(set)
}
