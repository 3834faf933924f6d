//! Hard and soft constraints, and those that are made without draws.
ghost use Rattle.std.specs.Prelude.{◌≡◌, ◌≤◌, ◌<◌, ◌++◌, ◌+◌, ◌^◌, IfOk, OnOk};
ghost use Rattle.league.specs.Counts.{slots_of, teams_of};
ghost use Rattle.league.specs.declared.class.Class.TheVariants as class;
ghost use Rattle.instance_gen.specs.Made as made;

use crate::circle::Circle;
use crate::sets::{all_teams, slots_from};
use league::{Class, Constraint, Side, SlotSet, slot_count};
use std::alloc::{AllocError, Global};

/// A hard constraint.
pub(crate) fn hard(class: Class) -> Constraint
    ensures { result ≡ made.hard class }
{
    Constraint {
        hard: true,
        penalty: 1,
        class,
    }
}

/// A soft constraint.
pub(crate) fn soft(penalty: u32, class: Class) -> Constraint
    ensures { result ≡ made.soft penalty class }
{
    Constraint {
        hard: false,
        penalty,
        class,
    }
}

/// All slots of the season of n teams.
pub(crate) fn all_slots(alloc: Global, n: u16) -> Result<SlotSet, AllocError>
    requires { n ≤ 40 }
    ensures { IfOk result (λ set. set ≡ slots_of n) }
{
    slots_from(alloc, 0, slot_count(n))
}

/// At most two games on a side in each three slots in a row.
fn ca3(alloc: Global, n: u16, side: Side) -> Result<Constraint, AllocError>
    ensures { IfOk result (λ constraint. constraint ≡ made.ca3_on n side) }
{
    Ok(soft(
        5,
        Class::Ca3 {
            teams1: all_teams(alloc, n)?,
            teams2: all_teams(alloc, n)?,
            min: 0,
            max: 2,
            intp: 3,
            side,
        },
    ))
}

/// At most so many breaks of all teams.
fn br2(alloc: Global, n: u16, intp: u32) -> Result<Class, AllocError>
    requires { n ≤ 40 }
    ensures { IfOk result (λ made. made ≡ class.Br2 (teams_of n) intp (slots_of n)) }
{
    Ok(Class::Br2 {
        teams: all_teams(alloc, n)?,
        intp,
        slots: all_slots(alloc, n)?,
    })
}

/// Home games of each two teams that differ by at most two.
fn fa2(alloc: Global, n: u16) -> Result<Class, AllocError>
    requires { n ≤ 40 }
    ensures { IfOk result (λ made. made ≡ class.Fa2 (teams_of n) 2 (slots_of n)) }
{
    Ok(Class::Fa2 {
        teams: all_teams(alloc, n)?,
        intp: 2,
        slots: all_slots(alloc, n)?,
    })
}

/// At least so many slots between the games of each two teams.
fn se1(alloc: Global, n: u16, min: u32) -> Result<Class, AllocError>
    ensures { IfOk result (λ made. made ≡ class.Se1 (teams_of n) min) }
{
    Ok(Class::Se1 {
        teams: all_teams(alloc, n)?,
        min,
    })
}

/// Adds the constraints on games in a row.
pub(crate) fn push_first(
    alloc: Global,
    circle: &Circle,
    constraints: &mut Vec<Constraint>,
) -> Result<(), AllocError>
    ensures { OnOk result (constraints.new.items ≡ constraints.old.items ++ made.fixed_first circle.now.n) }
{
    let n = circle.n();
    constraints.push(ca3(alloc, n, Side::H)?)?;
    constraints.push(ca3(alloc, n, Side::A)?)?;
    Ok(())
}

/// Adds the constraints that speak of all teams over the whole season.
pub(crate) fn push_last(
    alloc: Global,
    circle: &Circle,
    constraints: &mut Vec<Constraint>,
) -> Result<(), AllocError>
    ensures { OnOk result (constraints.new.items ≡ constraints.old.items ++ made.fixed_last circle.now.n) }
{
    let n = circle.n();
    let teams = u32::from(n);
    constraints.push(hard(br2(alloc, n, circle.breaks())?))?;
    constraints.push(soft(10, br2(alloc, n, teams - 2)?))?;
    constraints.push(soft(10, fa2(alloc, n)?))?;
    constraints.push(hard(se1(alloc, n, (teams - 2) / 2)?))?;
    constraints.push(soft(2, se1(alloc, n, teams - 1)?))?;
    Ok(())
}
