//! How many terms the groups of a class have, those of all its parts together: by the number of their literals.
ghost use Rattle.std.specs.Prelude.{◌≡◌, ◌+◌, ◌^◌, ◌<◌, ◌≤◌, IsTrue};
ghost use Rattle.league.specs.Counts as counts;
ghost use Rattle.league.specs.Instance.{IsTeamCount, class_fits};
ghost use Rattle.league.specs.Names.{name_of};
ghost use Rattle.league.specs.Shapes.{has_bounds};
ghost use Rattle.encoding.specs.Keys.{IsWithin, key_of, suits, width};
ghost use Rattle.bound_rows.specs.Parts as parts;
ghost use Rattle.bound_rows.specs.Sizes as sizes;

use crate::groups::{between_terms, between_units, bounds_terms, units_terms};
use crate::separation::se1_terms;
use encoding::{Subject, key_at, literal_count, places_of, subject_at, subject_count};
use league::{Class, ClassName};

/// How many terms the groups of a class have that fits a league of n teams. It takes no memory.
pub(crate) fn class_terms(n: u16, class: &Class) -> u64
    requires n { IsTeamCount n }
    requires fits { IsTrue (class_fits n class.now) }
    ensures terms { result ≡ sizes.parts_size n (parts.parts_of n class.now) }
    ensures most { result ≤ 600000000000000 }
{
    match class {
        Class::Fa2 { .. } => fa2_terms(n, class),
        Class::Se1 { .. } => se1_terms(n, class),
        _ => counted_terms(n, class),
    }
}

/// How many terms the groups of a class have that bounds how many games or breaks there are: a group for each key.
fn counted_terms(n: u16, class: &Class) -> u64
    requires n { IsTeamCount n }
    requires bounds { IsTrue (has_bounds class.now) }
    requires fits { IsTrue (class_fits n class.now) }
    ensures terms { result ≡ sizes.parts_size n (parts.parts_of n class.now) }
    ensures most { result ≤ 600000000000000 }
{
    let mut total = 0;
    for place in 0..subject_count(n, class) {
        total += subject_terms(n, class, subject_at(n, class, place));
    }
    total
}

/// How many terms the groups of a subject have whose games or breaks are counted: equally many at each place.
fn subject_terms(n: u16, class: &Class, subject: Subject) -> u64
    requires n { IsTeamCount n }
    requires bounds { IsTrue (has_bounds class.now) }
    requires fits { IsTrue (class_fits n class.now) }
    requires suits { IsTrue (suits class.now subject) }
    requires within { IsWithin n subject }
    ensures terms { result ≡ sizes.subject_size n class.now subject }
    ensures most { result ≤ 1716000000000 }
{
    let places = places_of(n, class);
    if places.is_empty() {
        0
    } else {
        places.len() as u64 * key_terms(n, class, subject, places[0])
    }
}

/// How many terms the group of a key has.
fn key_terms(n: u16, class: &Class, subject: Subject, place: u16) -> u64
    requires n { IsTeamCount n }
    requires fits { IsTrue (class_fits n class.now) }
    requires suits { IsTrue (suits class.now subject) }
    requires within { IsWithin n subject }
    requires place { place + width n class.now ≤ counts.slot_count n }
    ensures terms { result ≡ sizes.key_size (key_of n class.now subject place) }
    ensures most { result ≤ 22000000000 }
{
    let key = key_at(n, class, subject, place);
    between_terms(key.low, key.high, literal_count(n, key.counted))
}

/// How many terms the groups of an FA2 have. Each two of its teams have equally many, so those of teams 0 and 1 are
/// counted.
fn fa2_terms(n: u16, class: &Class) -> u64
    requires n { IsTeamCount n }
    requires class { name_of class.now ≡ ClassName.Fa2 }
    requires fits { IsTrue (class_fits n class.now) }
    ensures terms { result ≡ sizes.parts_size n (parts.parts_of n class.now) }
    ensures most { result ≤ 600000000000000 }
{
    subject_count(n, class) as u64 * shared_terms(n, class, Subject::Pair(0, 1))
}

/// How many terms a subject has whose keys are one group: all their rows share its units.
fn shared_terms(n: u16, class: &Class, subject: Subject) -> u64
    requires n { IsTeamCount n }
    requires fits { IsTrue (class_fits n class.now) }
    requires suits { IsTrue (suits class.now subject) }
    requires within { IsWithin n subject }
    ensures terms { result ≡ sizes.shared_size n class.now subject }
    ensures most { result ≤ 690000000000 }
{
    let units = shared_units(n, class, subject);
    let places = places_of(n, class);
    let mut total = 0;
    for place in places {
        total += key_rows_terms(units, n, class, subject, *place);
    }
    total + units_terms(units)
}

/// How many units such a group has: as many as the largest degree of its rows.
fn shared_units(n: u16, class: &Class, subject: Subject) -> u64
    requires n { IsTeamCount n }
    requires fits { IsTrue (class_fits n class.now) }
    requires suits { IsTrue (suits class.now subject) }
    requires within { IsWithin n subject }
    ensures units { result ≡ sizes.shared_units n class.now subject }
    ensures most { result < 2 ^ 32 }
{
    let places = places_of(n, class);
    let mut units = 0_u64;
    for place in places {
        units = units.max(key_units(n, class, subject, *place));
    }
    units
}

/// How many units the rows of a key want: as many as the larger degree.
fn key_units(n: u16, class: &Class, subject: Subject, place: u16) -> u64
    requires n { IsTeamCount n }
    requires fits { IsTrue (class_fits n class.now) }
    requires suits { IsTrue (suits class.now subject) }
    requires within { IsWithin n subject }
    requires place { place + width n class.now ≤ counts.slot_count n }
    ensures units { result ≡ sizes.key_units (key_of n class.now subject place) }
    ensures most { result < 2 ^ 32 }
{
    let key = key_at(n, class, subject, place);
    between_units(key.low, key.high, literal_count(n, key.counted))
}

/// How many terms the rows of a key have in a group with `units` units.
fn key_rows_terms(units: u64, n: u16, class: &Class, subject: Subject, place: u16) -> u64
    requires units { units < 2 ^ 32 }
    requires n { IsTeamCount n }
    requires fits { IsTrue (class_fits n class.now) }
    requires suits { IsTrue (suits class.now subject) }
    requires within { IsWithin n subject }
    requires place { place + width n class.now ≤ counts.slot_count n }
    ensures terms { result ≡ sizes.key_rows_size units (key_of n class.now subject place) }
    ensures most { result ≤ 8600000000 }
{
    let key = key_at(n, class, subject, place);
    bounds_terms(units, key.low, key.high, literal_count(n, key.counted))
}
