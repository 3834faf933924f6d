//! Sets of numbers that ascend.
ghost use Rattle.std.specs.Prelude.{◌≡◌, ◌<◌, ◌+◌, ◌^◌, [], ◌∷◌, IfOk};
ghost use Rattle.std.specs.List.{range_with_len};
ghost use Rattle.std.specs.Ordering.{nat_cmp};
ghost use Rattle.league.specs.Sets.{IsAscending};

use league::{SlotId, SlotSet, TeamId, TeamSet};
use std::alloc::{AllocError, Global};

/// The set of these teams.
pub(crate) fn team_set(alloc: Global, teams: &[u16]) -> Result<TeamSet, AllocError>
    requires { IsAscending nat_cmp teams.now }
    ensures { IfOk result (λ set. set ≡ teams.now) }
{
    let mut set = TeamSet::new(alloc);
    for team in teams {
        set.insert(TeamId(*team))?;
    }
    Ok(set)
}

/// The set of one team.
pub(crate) fn one_team(alloc: Global, team: u16) -> Result<TeamSet, AllocError>
    ensures { IfOk result (λ set. set ≡ team ∷ []) }
{
    let mut set = TeamSet::new(alloc);
    set.insert(TeamId(team))?;
    Ok(set)
}

/// The set of two teams, the earlier first.
pub(crate) fn two_teams(alloc: Global, first: u16, second: u16) -> Result<TeamSet, AllocError>
    requires { first < second }
    ensures { IfOk result (λ set. set ≡ first ∷ second ∷ []) }
{
    let mut set = TeamSet::new(alloc);
    set.insert(TeamId(first))?;
    set.insert(TeamId(second))?;
    Ok(set)
}

/// The set of these slots.
pub(crate) fn slot_set(alloc: Global, slots: &[u16]) -> Result<SlotSet, AllocError>
    requires { IsAscending nat_cmp slots.now }
    ensures { IfOk result (λ set. set ≡ slots.now) }
{
    let mut set = SlotSet::new(alloc);
    for slot in slots {
        set.insert(SlotId(*slot))?;
    }
    Ok(set)
}

/// The set of one slot.
pub(crate) fn one_slot(alloc: Global, slot: u16) -> Result<SlotSet, AllocError>
    ensures { IfOk result (λ set. set ≡ slot ∷ []) }
{
    let mut set = SlotSet::new(alloc);
    set.insert(SlotId(slot))?;
    Ok(set)
}

/// The set of so many slots on end.
pub(crate) fn slots_from(alloc: Global, first: u16, count: u16) -> Result<SlotSet, AllocError>
    requires { first + count < 2 ^ 16 }
    ensures { IfOk result (λ set. set ≡ range_with_len first count) }
{
    let mut set = SlotSet::new(alloc);
    for k in 0..count {
        set.insert(SlotId(first + k))?;
    }
    Ok(set)
}
