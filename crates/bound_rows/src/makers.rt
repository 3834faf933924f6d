//! Single parts of a class. Each is made of sets that are all there, so that no way out holds some.
ghost use Rattle.std.specs.Prelude.{◌≡◌, ◌<◌, ◌+◌, ◌^◌, [], ◌∷◌, IfOk, IsTrue};
ghost use Rattle.std.specs.List.{range_with_len};
ghost use Rattle.league.specs.Names.{name_of};
ghost use Rattle.bound_rows.specs.OneOf.{is_by_team, of_pair, of_slots, of_team, of_window};

use crate::sets::{one_team, slot_set, slots_from, team_set, two_teams};
use league::{Class, ClassName, SlotSet, Span, TeamSet};
use std::alloc::{AllocError, Global};

/// The part of a CA1, a CA2 or a BR1 that speaks of one team.
pub(crate) fn team_part(alloc: Global, class: &Class, team: u16) -> Result<Class, AllocError>
    requires { IsTrue (is_by_team class.now) }
    ensures { IfOk result (λ part. part ≡ of_team class.now team) }
{
    match class {
        Class::Ca1 {
            min,
            max,
            side,
            slots,
            ..
        } => {
            let (teams, slots) = team_and_slots(alloc, team, slots)?;
            Ok(Class::Ca1 {
                teams,
                min: *min,
                max: *max,
                side: *side,
                slots,
            })
        }
        Class::Br1 {
            intp,
            side,
            slots,
            ..
        } => {
            let (teams, slots) = team_and_slots(alloc, team, slots)?;
            Ok(Class::Br1 {
                teams,
                intp: *intp,
                side: *side,
                slots,
            })
        }
        _ => ca2_part(alloc, class, team),
    }
}

/// The part of a CA2 that speaks of one of its first teams.
fn ca2_part(alloc: Global, class: &Class, team: u16) -> Result<Class, AllocError>
    requires { name_of class.now ≡ ClassName.Ca2 }
    ensures { IfOk result (λ part. part ≡ of_team class.now team) }
{
    let Class::Ca2 {
        teams2,
        min,
        max,
        side,
        slots,
        ..
    } = class
    else {
        unreachable!()
    };
    let (teams1, slots) = team_and_slots(alloc, team, slots)?;
    let teams2 = team_set(alloc, teams2.numbers())?;
    Ok(Class::Ca2 {
        teams1,
        teams2,
        min: *min,
        max: *max,
        side: *side,
        slots,
    })
}

/// A set of one team, and one of the same slots.
fn team_and_slots(
    alloc: Global,
    team: u16,
    slots: &SlotSet,
) -> Result<(TeamSet, SlotSet), AllocError>
    ensures teams { IfOk result (λ sets. sets.0 ≡ team ∷ []) }
    ensures slots { IfOk result (λ sets. sets.1 ≡ slots.now) }
{
    Ok((one_team(alloc, team)?, slot_set(alloc, slots.numbers())?))
}

/// The part of a CA3 that speaks of one of its first teams in one window: a CA2 of so many slots on end.
pub(crate) fn window_part(
    alloc: Global,
    class: &Class,
    team: u16,
    first: u16,
    count: u16,
) -> Result<Class, AllocError>
    requires class { name_of class.now ≡ ClassName.Ca3 }
    requires slots { first + count < 2 ^ 16 }
    ensures { IfOk result (λ part. part ≡ of_window class.now team (range_with_len first count)) }
{
    let Class::Ca3 {
        teams2,
        min,
        max,
        side,
        ..
    } = class
    else {
        unreachable!()
    };
    let teams1 = one_team(alloc, team)?;
    let teams2 = team_set(alloc, teams2.numbers())?;
    let slots = slots_from(alloc, first, count)?;
    Ok(Class::Ca2 {
        teams1,
        teams2,
        min: *min,
        max: *max,
        side: *side,
        slots,
    })
}

/// The part of a CA4 that speaks of some slots together.
pub(crate) fn slots_part(alloc: Global, class: &Class, slots: SlotSet) -> Result<Class, AllocError>
    requires { name_of class.now ≡ ClassName.Ca4 }
    ensures { IfOk result (λ part. part ≡ of_slots class.now slots) }
{
    let Class::Ca4 {
        teams1,
        teams2,
        min,
        max,
        side,
        ..
    } = class
    else {
        unreachable!()
    };
    let teams1 = team_set(alloc, teams1.numbers())?;
    let teams2 = team_set(alloc, teams2.numbers())?;
    Ok(Class::Ca4 {
        teams1,
        teams2,
        min: *min,
        max: *max,
        side: *side,
        span: Span::Global,
        slots,
    })
}

/// The part of an FA2 that speaks of two teams, the earlier first.
pub(crate) fn pair_part(
    alloc: Global,
    class: &Class,
    first: u16,
    second: u16,
) -> Result<Class, AllocError>
    requires class { name_of class.now ≡ ClassName.Fa2 }
    requires order { first < second }
    ensures { IfOk result (λ part. part ≡ of_pair class.now (first, second)) }
{
    let Class::Fa2 { intp, slots, .. } = class else {
        unreachable!()
    };
    let teams = two_teams(alloc, first, second)?;
    let slots = slot_set(alloc, slots.numbers())?;
    Ok(Class::Fa2 {
        teams,
        intp: *intp,
        slots,
    })
}

/// SE1 of two different teams, the one of the lower number first.
///
/// # Errors
/// Only where memory runs out.
pub fn se1_part(alloc: Global, first: u16, second: u16, min: u32) -> Result<Class, AllocError>
    requires { first < second }
    ensures { IfOk result (λ part. part ≡ Class.Se1 (first ∷ second ∷ []) min) }
{
    let teams = two_teams(alloc, first, second)?;
    Ok(Class::Se1 { teams, min })
}
