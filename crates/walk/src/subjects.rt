//! Of what the constraint of a part speaks.

use league::{Class, Side};

/// The teams of which it speaks first: none of a GA1, which has meetings.
pub(crate) fn teams_of(class: &Class) -> &[u16] {
    match class {
        Class::Ca1 { teams, .. }
        | Class::Br1 { teams, .. }
        | Class::Br2 { teams, .. }
        | Class::Fa2 { teams, .. }
        | Class::Se1 { teams, .. } => teams.numbers(),
        Class::Ca2 { teams1, .. } | Class::Ca3 { teams1, .. } | Class::Ca4 { teams1, .. } => {
            teams1.numbers()
        }
        Class::Ga1 { .. } => &[],
    }
}

/// The teams against which games are counted, where it names them.
pub(crate) fn opponents_in(class: &Class) -> &[u16] {
    match class {
        Class::Ca2 { teams2, .. } | Class::Ca3 { teams2, .. } | Class::Ca4 { teams2, .. } => {
            teams2.numbers()
        }
        _ => &[],
    }
}

/// The slots of which it speaks: none where it speaks of a whole season.
pub(crate) fn slots_of(class: &Class) -> &[u16] {
    match class {
        Class::Ca1 { slots, .. }
        | Class::Ca2 { slots, .. }
        | Class::Ca4 { slots, .. }
        | Class::Ga1 { slots, .. }
        | Class::Br1 { slots, .. }
        | Class::Br2 { slots, .. }
        | Class::Fa2 { slots, .. } => slots.numbers(),
        Class::Ca3 { .. } | Class::Se1 { .. } => &[],
    }
}

/// The meetings of a GA1, and none of another.
pub(crate) fn meetings_of(class: &Class) -> &[(u16, u16)] {
    match class {
        Class::Ga1 { meetings, .. } => meetings.numbers(),
        _ => &[],
    }
}

/// The side on which it counts: both where it names none.
pub(crate) fn side_of(class: &Class) -> Side {
    match class {
        Class::Ca1 { side, .. }
        | Class::Ca2 { side, .. }
        | Class::Ca3 { side, .. }
        | Class::Ca4 { side, .. }
        | Class::Br1 { side, .. } => *side,
        _ => Side::Both,
    }
}
