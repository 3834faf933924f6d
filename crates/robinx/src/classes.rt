// The constraints, class by class, from the attributes of their tags. Each way out of a function lets go of the sets
// that it has, so numbers and words are read by functions of their own, in `demands`.
ghost use Rattle.std.specs.Prelude.{◌≡◌, ◌≤◌, true, IfOk};
ghost use Rattle.league.specs.Instance.{class_fits, are_teams};
ghost use Rattle.league.specs.declared.class.ClassName.TheVariants as names;
ghost use Rattle.robinx.specs.SeenPieces.{Gives};
ghost use Rattle.robinx.specs.Classes as classes;

use crate::attribute::Attrs;
use crate::demands::{br1_in, br2_in, ca1_in, ca2_in, ca3_in, ca4_in, fa2_in, ga1_in, se1_in};
use crate::lists::{meetings_in, slots_in, teams_in};
use crate::tag_fault::Stop;
use crate::values::number_or;
use crate::words::hardness_in;
use league::{Class, ClassName, Constraint, TeamSet};
use std::alloc::Global;

/// Two sets of teams that play against each other.
fn opponents_in(alloc: Global, n: u16, tag: &Attrs) -> Result<(TeamSet, TeamSet), Stop>
    ensures value { Gives (λ x. x) result (classes.opponents n tag.now) }
    ensures one { IfOk result (λ sets. are_teams n sets.0 ≡ true) }
    ensures other { IfOk result (λ sets. are_teams n sets.1 ≡ true) }
{
    let teams1 = teams_in(alloc, tag, b"teams1", n)?;
    let teams2 = teams_in(alloc, tag, b"teams2", n)?;
    Ok((teams1, teams2))
}

fn ca1_of(alloc: Global, n: u16, tag: &Attrs) -> Result<Class, Stop>
    requires { n ≤ 40 }
    ensures value { Gives (λ x. x) result (classes.class_of names.Ca1 n tag.now) }
    ensures fits { IfOk result (λ class. class_fits n class ≡ true) }
{
    let teams = teams_in(alloc, tag, b"teams", n)?;
    let (min, max, side) = ca1_in(tag)?;
    let slots = slots_in(alloc, tag, b"slots", n)?;
    Ok(Class::Ca1 {
        teams,
        min,
        max,
        side,
        slots,
    })
}

fn ca2_of(alloc: Global, n: u16, tag: &Attrs) -> Result<Class, Stop>
    requires { n ≤ 40 }
    ensures value { Gives (λ x. x) result (classes.class_of names.Ca2 n tag.now) }
    ensures fits { IfOk result (λ class. class_fits n class ≡ true) }
{
    let (teams1, teams2) = opponents_in(alloc, n, tag)?;
    let (min, max, side) = ca2_in(tag)?;
    let slots = slots_in(alloc, tag, b"slots", n)?;
    Ok(Class::Ca2 {
        teams1,
        teams2,
        min,
        max,
        side,
        slots,
    })
}

fn ca3_of(alloc: Global, n: u16, tag: &Attrs) -> Result<Class, Stop>
    ensures value { Gives (λ x. x) result (classes.class_of names.Ca3 n tag.now) }
    ensures fits { IfOk result (λ class. class_fits n class ≡ true) }
{
    let (teams1, teams2) = opponents_in(alloc, n, tag)?;
    let (min, max, side, intp) = ca3_in(tag)?;
    Ok(Class::Ca3 {
        teams1,
        teams2,
        min,
        max,
        intp,
        side,
    })
}

fn ca4_of(alloc: Global, n: u16, tag: &Attrs) -> Result<Class, Stop>
    requires { n ≤ 40 }
    ensures value { Gives (λ x. x) result (classes.class_of names.Ca4 n tag.now) }
    ensures fits { IfOk result (λ class. class_fits n class ≡ true) }
{
    let (teams1, teams2) = opponents_in(alloc, n, tag)?;
    let (min, max, side, span) = ca4_in(tag)?;
    let slots = slots_in(alloc, tag, b"slots", n)?;
    Ok(Class::Ca4 {
        teams1,
        teams2,
        min,
        max,
        side,
        span,
        slots,
    })
}

fn ga1_of(alloc: Global, n: u16, tag: &Attrs) -> Result<Class, Stop>
    requires { n ≤ 40 }
    ensures value { Gives (λ x. x) result (classes.class_of names.Ga1 n tag.now) }
    ensures fits { IfOk result (λ class. class_fits n class ≡ true) }
{
    let meetings = meetings_in(alloc, tag, b"meetings", n)?;
    let (min, max) = ga1_in(tag)?;
    let slots = slots_in(alloc, tag, b"slots", n)?;
    Ok(Class::Ga1 {
        meetings,
        min,
        max,
        slots,
    })
}

fn br1_of(alloc: Global, n: u16, tag: &Attrs) -> Result<Class, Stop>
    requires { n ≤ 40 }
    ensures value { Gives (λ x. x) result (classes.class_of names.Br1 n tag.now) }
    ensures fits { IfOk result (λ class. class_fits n class ≡ true) }
{
    let teams = teams_in(alloc, tag, b"teams", n)?;
    let (intp, side) = br1_in(tag)?;
    let slots = slots_in(alloc, tag, b"slots", n)?;
    Ok(Class::Br1 {
        teams,
        intp,
        side,
        slots,
    })
}

fn br2_of(alloc: Global, n: u16, tag: &Attrs) -> Result<Class, Stop>
    requires { n ≤ 40 }
    ensures value { Gives (λ x. x) result (classes.class_of names.Br2 n tag.now) }
    ensures fits { IfOk result (λ class. class_fits n class ≡ true) }
{
    let teams = teams_in(alloc, tag, b"teams", n)?;
    let intp = br2_in(tag)?;
    let slots = slots_in(alloc, tag, b"slots", n)?;
    Ok(Class::Br2 { teams, intp, slots })
}

fn fa2_of(alloc: Global, n: u16, tag: &Attrs) -> Result<Class, Stop>
    requires { n ≤ 40 }
    ensures value { Gives (λ x. x) result (classes.class_of names.Fa2 n tag.now) }
    ensures fits { IfOk result (λ class. class_fits n class ≡ true) }
{
    let teams = teams_in(alloc, tag, b"teams", n)?;
    let intp = fa2_in(tag)?;
    let slots = slots_in(alloc, tag, b"slots", n)?;
    Ok(Class::Fa2 { teams, intp, slots })
}

fn se1_of(alloc: Global, n: u16, tag: &Attrs) -> Result<Class, Stop>
    ensures value { Gives (λ x. x) result (classes.class_of names.Se1 n tag.now) }
    ensures fits { IfOk result (λ class. class_fits n class ≡ true) }
{
    let teams = teams_in(alloc, tag, b"teams", n)?;
    let min = se1_in(tag)?;
    Ok(Class::Se1 { teams, min })
}

/// What a constraint of this class demands in a league of n teams.
fn class_of(alloc: Global, name: ClassName, n: u16, tag: &Attrs) -> Result<Class, Stop>
    requires { n ≤ 40 }
    ensures value { Gives (λ x. x) result (classes.class_of name n tag.now) }
    ensures fits { IfOk result (λ class. class_fits n class ≡ true) }
{
    match name {
        ClassName::Ca1 => ca1_of(alloc, n, tag),
        ClassName::Ca2 => ca2_of(alloc, n, tag),
        ClassName::Ca3 => ca3_of(alloc, n, tag),
        ClassName::Ca4 => ca4_of(alloc, n, tag),
        ClassName::Ga1 => ga1_of(alloc, n, tag),
        ClassName::Br1 => br1_of(alloc, n, tag),
        ClassName::Br2 => br2_of(alloc, n, tag),
        ClassName::Fa2 => fa2_of(alloc, n, tag),
        ClassName::Se1 => se1_of(alloc, n, tag),
    }
}

/// A constraint of this class in a league of n teams.
pub(crate) fn constraint_of(
    alloc: Global,
    name: ClassName,
    n: u16,
    tag: &Attrs,
) -> Result<Constraint, Stop>
    requires { n ≤ 40 }
    ensures value { Gives (λ x. x) result (classes.constraint_of name n tag.now) }
    ensures fits { IfOk result (λ constraint. class_fits n constraint.class ≡ true) }
{
    let hard = hardness_in(tag)?;
    let penalty = number_or(tag, b"penalty", 1)?;
    let class = class_of(alloc, name, n, tag)?;
    Ok(Constraint {
        hard,
        penalty,
        class,
    })
}
