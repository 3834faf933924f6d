//! All parts of a constraint, key by key.
ghost use Rattle.std.specs.Prelude.{◌≡◌, ◌+◌, ◌-◌, ◌<◌, ◌≤◌, [], ◌∷◌, ◌++◌, map, IfOk, IsTrue, OnOk};
ghost use Rattle.std.specs.List.{All, flat_map};
ghost use Rattle.league.specs.Capacity.{windows_of};
ghost use Rattle.league.specs.Counts as counts;
ghost use Rattle.league.specs.Instance.{class_fits};
ghost use Rattle.league.specs.Names.{name_of};
ghost use Rattle.encoding.specs.Pairs.{IsPair};
ghost use Rattle.bound_rows.specs.Parts as parts;
ghost use Rattle.bound_rows.specs.OneOf.{is_by_team, of_pair, of_slots, of_team, of_window};

use crate::makers::{pair_part, se1_part, slots_part, team_part, window_part};
use crate::sets::{one_slot, slot_set};
use encoding::team_pairs;
use league::{Class, ClassName, Constraint, Span, slot_count};
use std::alloc::{AllocError, Global};

/// The parts of a constraint that fits a league of n teams, key by key.
///
/// # Errors
/// Only where memory runs out.
pub fn parts_of(alloc: Global, n: u16, constraint: &Constraint) -> Result<Vec<Class>, AllocError>
    requires n { n ≤ 40 }
    requires fits { IsTrue (class_fits n constraint.now.class) }
    ensures parts { IfOk result (λ made. made.items ≡ parts.parts_of n constraint.now.class) }

    // Each part fits the league, too.
    ensures fit { IfOk result (λ made. All (λ part. IsTrue (class_fits n part)) made.items) }
{
    let made = made_of(alloc, n, constraint)?;
    Ok(made)
}

/// The parts of a constraint, made as its class has them.
fn made_of(alloc: Global, n: u16, constraint: &Constraint) -> Result<Vec<Class>, AllocError>
    requires n { n ≤ 40 }
    requires fits { IsTrue (class_fits n constraint.now.class) }
    ensures { IfOk result (λ made. made.items ≡ parts.parts_of n constraint.now.class) }
{
    let class = &constraint.class;
    match class {
        Class::Ca1 { teams, .. } | Class::Br1 { teams, .. } => {
            team_parts(alloc, class, teams.numbers())
        }
        Class::Ca2 { teams1, .. } => team_parts(alloc, class, teams1.numbers()),
        Class::Ca3 { teams1, intp, .. } => {
            window_parts(alloc, n, class, teams1.numbers(), *intp)
        }
        Class::Ca4 { .. } => span_parts(alloc, n, class),
        Class::Fa2 { .. } => pair_parts(alloc, n, class),
        Class::Se1 { .. } => separation_parts(alloc, n, class),
        Class::Ga1 { .. } | Class::Br2 { .. } => whole(alloc, constraint),
    }
}

/// The class of a constraint that is its only part.
fn whole(alloc: Global, constraint: &Constraint) -> Result<Vec<Class>, AllocError>
    ensures { IfOk result (λ made. made.items ≡ constraint.now.class ∷ []) }
{
    let class = constraint.class.copy()?;
    one(alloc, class)
}

/// One class alone.
fn one(alloc: Global, class: Class) -> Result<Vec<Class>, AllocError>
    ensures { IfOk result (λ made. made.items ≡ class ∷ []) }
{
    let mut made = Vec::new(alloc);
    made.push(class)?;
    Ok(made)
}

/// The parts of a CA1, a CA2 or a BR1 with each of some teams.
fn team_parts(alloc: Global, class: &Class, teams: &[u16]) -> Result<Vec<Class>, AllocError>
    requires { IsTrue (is_by_team class.now) }
    ensures { IfOk result (λ made. made.items ≡ map (λ i. of_team class.now i) teams.now) }
{
    let mut made = Vec::new(alloc);
    for team in teams {
        made.push(team_part(alloc, class, *team)?)?;
    }
    Ok(made)
}

/// The parts of a CA3 with each of some of its first teams: each window of so many slots, if any is so long.
fn window_parts(
    alloc: Global,
    n: u16,
    class: &Class,
    teams: &[u16],
    intp: u32,
) -> Result<Vec<Class>, AllocError>
    requires n { n ≤ 40 }
    requires class { name_of class.now ≡ ClassName.Ca3 }
    ensures { IfOk result (λ made. made.items
        ≡ flat_map (λ i. map (λ slots. of_window class.now i slots) (windows_of n intp)) teams.now) }
{
    let mut made = Vec::new(alloc);
    let season = u32::from(slot_count(n));
    if intp > season {
        return Ok(made);
    }
    let window = intp as u16;
    for team in teams {
        add_windows(&mut made, alloc, n, class, *team, window)?;
    }
    Ok(made)
}

/// Adds the parts of a CA3 with one of its first teams: each window of so many slots.
fn add_windows(
    made: &mut Vec<Class>,
    alloc: Global,
    n: u16,
    class: &Class,
    team: u16,
    window: u16,
) -> Result<(), AllocError>
    requires n { n ≤ 40 }
    requires class { name_of class.now ≡ ClassName.Ca3 }
    requires window { window ≤ counts.slot_count n }
    ensures { OnOk result (made.new.items ≡ made.old.items
        ++ map (λ slots. of_window class.now team slots) (windows_of n window)) }
{
    let windows = slot_count(n) + 1 - window;
    for first in 0..windows {
        made.push(window_part(alloc, class, team, first, window)?)?;
    }
    Ok(())
}

/// The parts of a CA4: all its slots together, or each.
fn span_parts(alloc: Global, n: u16, class: &Class) -> Result<Vec<Class>, AllocError>
    requires { name_of class.now ≡ ClassName.Ca4 }
    ensures { IfOk result (λ made. made.items ≡ parts.parts_of n class.now) }
{
    let Class::Ca4 { span, slots, .. } = class else {
        unreachable!()
    };
    match span {
        Span::Global => {
            let slots = slot_set(alloc, slots.numbers())?;
            one(alloc, slots_part(alloc, class, slots)?)
        }
        Span::Every => slot_parts(alloc, class, slots.numbers()),
    }
}

/// The parts of a CA4 with each of some slots.
fn slot_parts(alloc: Global, class: &Class, slots: &[u16]) -> Result<Vec<Class>, AllocError>
    requires { name_of class.now ≡ ClassName.Ca4 }
    ensures { IfOk result (λ made. made.items
        ≡ map (λ part. of_slots class.now part) (map (λ s. s ∷ []) slots.now)) }
{
    let mut made = Vec::new(alloc);
    for slot in slots {
        let alone = one_slot(alloc, *slot)?;
        made.push(slots_part(alloc, class, alone)?)?;
    }
    Ok(made)
}

/// The parts of an FA2: each pair of its teams.
fn pair_parts(alloc: Global, n: u16, class: &Class) -> Result<Vec<Class>, AllocError>
    requires n { n ≤ 40 }
    requires class { name_of class.now ≡ ClassName.Fa2 }
    requires fits { IsTrue (class_fits n class.now) }
    ensures { IfOk result (λ made. made.items ≡ parts.parts_of n class.now) }
{
    let Class::Fa2 { teams, .. } = class else {
        unreachable!()
    };
    let pairs = team_pairs(alloc, n, teams)?;
    parts_by_pair(alloc, n, class, &pairs)
}

/// The parts of an FA2 with each of some pairs of teams.
fn parts_by_pair(
    alloc: Global,
    n: u16,
    class: &Class,
    pairs: &[(u16, u16)],
) -> Result<Vec<Class>, AllocError>
    requires class { name_of class.now ≡ ClassName.Fa2 }
    requires pairs { All (IsPair n) pairs.now }
    ensures { IfOk result (λ made. made.items ≡ map (λ p. of_pair class.now p) pairs.now) }
{
    let mut made = Vec::new(alloc);
    for (first, second) in pairs {
        made.push(pair_part(alloc, class, *first, *second)?)?;
    }
    Ok(made)
}

/// The parts of an SE1: of each pair of its teams each number of slots.
fn separation_parts(alloc: Global, n: u16, class: &Class) -> Result<Vec<Class>, AllocError>
    requires n { n ≤ 40 }
    requires class { name_of class.now ≡ ClassName.Se1 }
    requires fits { IsTrue (class_fits n class.now) }
    ensures { IfOk result (λ made. made.items ≡ parts.parts_of n class.now) }
{
    let Class::Se1 { teams, min } = class else {
        unreachable!()
    };
    let pairs = team_pairs(alloc, n, teams)?;
    separations_by_pair(alloc, n, &pairs, *min)
}

/// The parts of an SE1 with each of some pairs of teams.
fn separations_by_pair(
    alloc: Global,
    n: u16,
    pairs: &[(u16, u16)],
    min: u32,
) -> Result<Vec<Class>, AllocError>
    requires { All (IsPair n) pairs.now }
    ensures { IfOk result (λ made. made.items ≡ flat_map (parts.se1_parts min) pairs.now) }
{
    let mut made = Vec::new(alloc);
    for (first, second) in pairs {
        add_numbers(&mut made, alloc, *first, *second, min)?;
    }
    Ok(made)
}

/// Adds the parts of an SE1 with two teams: each number of slots from the most down to 1.
fn add_numbers(
    made: &mut Vec<Class>,
    alloc: Global,
    first: u16,
    second: u16,
    min: u32,
) -> Result<(), AllocError>
    requires { first < second }
    ensures { OnOk result (made.new.items ≡ made.old.items ++ parts.se1_parts min (first, second)) }
{
    for fewer in 0..min {
        made.push(se1_part(alloc, first, second, min - fewer)?)?;
    }
    Ok(())
}
