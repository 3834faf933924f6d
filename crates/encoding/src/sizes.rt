//! How many terms the rows of a class have. They are counted and not written, which takes no memory. Keys with as many
//! literals are counted once: those of any two teams, or of a subject at any place.
ghost use Rattle.std.specs.Prelude.{◌≡◌, ◌+◌, ◌*◌, ◌≤◌, false, IsTrue};
ghost use Rattle.league.specs.Counts as counts;
ghost use Rattle.league.specs.Instance.{IsTeamCount, class_fits};
ghost use Rattle.league.specs.Shapes.{has_bounds};
ghost use Rattle.rows.specs.Rows.{size_of};
ghost use Rattle.encoding.specs.Encoding.{class_rows};
ghost use Rattle.encoding.specs.Keys.{IsWithin, key_of, most_literals, rows_of_key, rows_of_subject, suits, width};
ghost use Rattle.encoding.specs.Terms as terms;

use crate::keys::key_at;
use crate::literal_counts::literal_count;
use crate::subjects::{Subject, places_of, subject_at, subject_count};
use league::Class;

/// How many terms the rows of a class have that fits a league of n teams. It takes no memory.
pub(crate) fn class_terms(n: u16, class: &Class) -> u64
    requires n { IsTeamCount n }
    requires fits { IsTrue (class_fits n class.now) }
    ensures terms { result ≡ size_of (class_rows n class.now) }
    ensures most { result ≤ 40000000 }
{
    match class {
        Class::Fa2 { .. } | Class::Se1 { .. } => paired_terms(n, class),
        _ => counted_terms(n, class),
    }
}

/// How many terms the rows of a class have that bounds each two of its teams. Each two have equally many, so those of
/// teams 0 and 1 are counted.
fn paired_terms(n: u16, class: &Class) -> u64
    requires n { IsTeamCount n }
    requires pairs { has_bounds class.now ≡ false }
    requires fits { IsTrue (class_fits n class.now) }
    ensures terms { result ≡ size_of (class_rows n class.now) }
    ensures most { result ≤ 40000000 }
{
    subject_count(n, class) as u64 * pair_terms(n, class, Subject::Pair(0, 1))
}

/// How many terms the rows of two teams have: those of all places together.
fn pair_terms(n: u16, class: &Class, subject: Subject) -> u64
    requires n { IsTeamCount n }
    requires fits { IsTrue (class_fits n class.now) }
    requires suits { IsTrue (suits class.now subject) }
    requires within { IsWithin n subject }
    ensures terms { result ≡ size_of (rows_of_subject n class.now subject) }
    ensures most { result ≤ 156 * most_literals class.now }
{
    let places = places_of(n, class);
    let mut total = 0;
    for place in places {
        total += key_terms(n, class, subject, *place);
    }
    total
}

/// How many terms the rows of a class have that counts games or breaks: those of all its subjects together.
fn counted_terms(n: u16, class: &Class) -> u64
    requires n { IsTeamCount n }
    requires bounds { IsTrue (has_bounds class.now) }
    requires fits { IsTrue (class_fits n class.now) }
    ensures terms { result ≡ size_of (class_rows n class.now) }
    ensures most { result ≤ 40000000 }
{
    let mut total = 0;
    for place in 0..subject_count(n, class) {
        total += subject_terms(n, class, subject_at(n, class, place));
    }
    total
}

/// How many terms the rows of a subject have whose games or breaks are counted: equally many at each place.
fn subject_terms(n: u16, class: &Class, subject: Subject) -> u64
    requires n { IsTeamCount n }
    requires bounds { IsTrue (has_bounds class.now) }
    requires fits { IsTrue (class_fits n class.now) }
    requires suits { IsTrue (suits class.now subject) }
    requires within { IsWithin n subject }
    ensures terms { result ≡ size_of (rows_of_subject n class.now subject) }
    ensures most { result ≤ 156 * most_literals class.now }
{
    let places = places_of(n, class);
    if places.is_empty() {
        0
    } else {
        places.len() as u64 * key_terms(n, class, subject, places[0])
    }
}

/// How many terms the rows of a key have.
fn key_terms(n: u16, class: &Class, subject: Subject, place: u16) -> u64
    requires n { IsTeamCount n }
    requires fits { IsTrue (class_fits n class.now) }
    requires suits { IsTrue (suits class.now subject) }
    requires within { IsWithin n subject }
    requires place { place + width n class.now ≤ counts.slot_count n }
    ensures terms { result ≡ size_of (rows_of_key (key_of n class.now subject place)) }
    ensures most { result ≤ 2 * most_literals class.now }
{
    let key = key_at(n, class, subject, place);
    between_terms(key.low, key.high, literal_count(n, key.counted))
}

/// The terms of "at most so many" of a number of literals.
fn most_terms(high: u64, count: u64) -> u64
    ensures terms { result ≡ terms.most_terms high count }
    ensures most { result ≤ count }
{
    if high < count { count } else { 0 }
}

/// The terms of "at least so many".
fn least_terms(low: u64, count: u64) -> u64
    ensures terms { result ≡ terms.least_terms low count }
    ensures most { result ≤ count }
{
    if 0 < low { count } else { 0 }
}

/// The terms of both.
fn between_terms(low: u64, high: u64, count: u64) -> u64
    requires { count ≤ 1000000 }
    ensures terms { result ≡ terms.between_terms low high count }
    ensures most { result ≤ 2 * count }
{
    least_terms(low, count) + most_terms(high, count)
}
