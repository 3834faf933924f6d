//! Constraints in parts, each of which is weighed by itself: one for each entry of their deviations.

use crate::subjects::{slots_of, teams_of};
use league::{Class, ClassName, Constraint, SlotId, SlotSet, Span, TeamId, TeamSet};
use std::alloc::{AllocError, Global};

/// Behind so many parts no further constraints are weighed.
pub(crate) const MOST: usize = 30_000;

/// Adds the parts of a constraint of n teams, unless there are too many parts: one for each team of CA1, CA2 and BR1, for
/// each team and window of CA3, for each slot of a CA4 of every slot, for each two teams of FA2 and SE1, and one for each
/// other constraint.
///
/// # Errors
/// Only where memory runs out.
pub(crate) fn add_parts(
    alloc: Global,
    n: u16,
    constraint: &Constraint,
    parts: &mut Vec<Constraint>,
) -> Result<(), AllocError> {
    if parts.len() >= MOST {
        return Ok(());
    }
    let class = &constraint.class;
    let teams = teams_of(class);
    match class.name() {
        ClassName::Ca1 | ClassName::Ca2 | ClassName::Br1 => {
            add_teams(alloc, constraint, teams, parts)
        }
        ClassName::Ca3 => add_windows(alloc, n, constraint, teams, parts),
        ClassName::Fa2 | ClassName::Se1 => add_pairs(alloc, constraint, teams, parts),
        ClassName::Ca4 if bounds_each_slot(class) => {
            add_slots(alloc, constraint, slots_of(class), parts)
        }
        ClassName::Ca4 | ClassName::Ga1 | ClassName::Br2 => add_whole(constraint, parts),
    }
}

/// Whether it is a CA4 that bounds each slot by itself.
fn bounds_each_slot(class: &Class) -> bool {
    matches!(
        class,
        Class::Ca4 {
            span: Span::Every,
            ..
        }
    )
}

/// Adds a constraint as one part.
///
/// # Errors
/// Only where memory runs out.
fn add_whole(constraint: &Constraint, parts: &mut Vec<Constraint>) -> Result<(), AllocError> {
    add_part(constraint, constraint.class.copy()?, parts)
}

/// Adds a part of a constraint, which is of this class.
///
/// # Errors
/// Only where memory runs out.
fn add_part(
    constraint: &Constraint,
    class: Class,
    parts: &mut Vec<Constraint>,
) -> Result<(), AllocError> {
    parts.push(Constraint {
        hard: constraint.hard,
        penalty: constraint.penalty,
        class,
    })?;
    Ok(())
}

/// Adds a part for each of a constraint's teams.
///
/// # Errors
/// Only where memory runs out.
fn add_teams(
    alloc: Global,
    constraint: &Constraint,
    teams: &[u16],
    parts: &mut Vec<Constraint>,
) -> Result<(), AllocError> {
    for team in teams {
        add_for(alloc, constraint, &[*team], parts)?;
    }
    Ok(())
}

/// Adds a part for each two of a constraint's teams.
///
/// # Errors
/// Only where memory runs out.
fn add_pairs(
    alloc: Global,
    constraint: &Constraint,
    teams: &[u16],
    parts: &mut Vec<Constraint>,
) -> Result<(), AllocError> {
    for first in 0..teams.len() {
        for second in first + 1..teams.len() {
            add_for(alloc, constraint, &[teams[first], teams[second]], parts)?;
        }
    }
    Ok(())
}

/// Adds a part that speaks of these teams only.
///
/// # Errors
/// Only where memory runs out.
fn add_for(
    alloc: Global,
    constraint: &Constraint,
    teams: &[u16],
    parts: &mut Vec<Constraint>,
) -> Result<(), AllocError> {
    add_part(constraint, class_of_teams(alloc, constraint, teams)?, parts)
}

/// Adds a part for each window of each of a CA3's teams, in a league of n teams.
///
/// # Errors
/// Only where memory runs out.
fn add_windows(
    alloc: Global,
    n: u16,
    constraint: &Constraint,
    teams: &[u16],
    parts: &mut Vec<Constraint>,
) -> Result<(), AllocError> {
    for team in teams {
        add_windows_of(alloc, n, constraint, *team, parts)?;
    }
    Ok(())
}

/// Adds a part for each window of one of a CA3's teams, in a league of n teams.
///
/// # Errors
/// Only where memory runs out.
fn add_windows_of(
    alloc: Global,
    n: u16,
    constraint: &Constraint,
    team: u16,
    parts: &mut Vec<Constraint>,
) -> Result<(), AllocError> {
    let Class::Ca3 { intp, .. } = &constraint.class else {
        return Ok(());
    };
    let slots = n.saturating_sub(1).saturating_mul(2);
    for first in 0..slots {
        let end = u32::from(first).saturating_add(*intp);
        if end <= u32::from(slots) {
            add_window(alloc, constraint, team, first, end as u16, parts)?;
        }
    }
    Ok(())
}

/// Adds what a CA3 demands of one of its teams in the slots from one on, as far as another one, which isn't among them:
/// a CA2.
///
/// # Errors
/// Only where memory runs out.
fn add_window(
    alloc: Global,
    constraint: &Constraint,
    team: u16,
    first: u16,
    end: u16,
    parts: &mut Vec<Constraint>,
) -> Result<(), AllocError> {
    let slots = slots_between(alloc, first, end)?;
    let class = class_of_teams(alloc, constraint, &[team])?;
    add_part(constraint, in_window(class, slots), parts)
}

/// The class of a CA3 in a window of slots: a CA2.
fn in_window(class: Class, slots: SlotSet) -> Class {
    match class {
        Class::Ca3 {
            teams1,
            teams2,
            min,
            max,
            side,
            ..
        } => Class::Ca2 {
            teams1,
            teams2,
            min,
            max,
            side,
            slots,
        },
        other => other,
    }
}

/// The slots from one on, as far as another one, which isn't among them.
///
/// # Errors
/// Only where memory runs out.
fn slots_between(alloc: Global, first: u16, end: u16) -> Result<SlotSet, AllocError> {
    let mut slots = SlotSet::new(alloc);
    for slot in first..end {
        slots.insert(SlotId(slot))?;
    }
    Ok(slots)
}

/// Adds a part for each of a constraint's slots.
///
/// # Errors
/// Only where memory runs out.
fn add_slots(
    alloc: Global,
    constraint: &Constraint,
    slots: &[u16],
    parts: &mut Vec<Constraint>,
) -> Result<(), AllocError> {
    for slot in slots {
        add_slot(alloc, constraint, *slot, parts)?;
    }
    Ok(())
}

/// Adds what a CA4 demands of one slot.
///
/// # Errors
/// Only where memory runs out.
fn add_slot(
    alloc: Global,
    constraint: &Constraint,
    slot: u16,
    parts: &mut Vec<Constraint>,
) -> Result<(), AllocError> {
    let mut one = SlotSet::new(alloc);
    one.insert(SlotId(slot))?;
    let mut class = constraint.class.copy()?;
    set_slots(&mut class, one);
    add_part(constraint, class, parts)
}

/// Lets a CA4 speak of these slots.
fn set_slots(class: &mut Class, some: SlotSet) {
    if let Class::Ca4 { slots, .. } = class {
        *slots = some;
    }
}

/// The class of a constraint, which speaks of these teams only.
///
/// # Errors
/// Only where memory runs out.
fn class_of_teams(
    alloc: Global,
    constraint: &Constraint,
    numbers: &[u16],
) -> Result<Class, AllocError> {
    let teams = team_set(alloc, numbers)?;
    let mut class = constraint.class.copy()?;
    set_teams(&mut class, teams);
    Ok(class)
}

/// A set of these teams.
///
/// # Errors
/// Only where memory runs out.
fn team_set(alloc: Global, numbers: &[u16]) -> Result<TeamSet, AllocError> {
    let mut teams = TeamSet::new(alloc);
    for number in numbers {
        teams.insert(TeamId(*number))?;
    }
    Ok(teams)
}

/// Lets a class speak of these teams, where parts of it are by team.
fn set_teams(class: &mut Class, some: TeamSet) {
    match class {
        Class::Ca1 { teams, .. }
        | Class::Br1 { teams, .. }
        | Class::Fa2 { teams, .. }
        | Class::Se1 { teams, .. } => *teams = some,
        Class::Ca2 { teams1, .. } | Class::Ca3 { teams1, .. } => *teams1 = some,
        _ => {}
    }
}
