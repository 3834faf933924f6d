//! Whom a class bounds one by one, and at which places of the season.
ghost use Rattle.std.specs.Prelude.{◌≡◌, ◌+◌, ◌-◌, ◌*◌, ◌<◌, ◌≤◌, ℕ, List, get_or, length, IsTrue};
ghost use Rattle.std.specs.List.{All, range_with_len};
ghost use Rattle.league.specs.Counts as counts;
ghost use Rattle.league.specs.Instance.{IsTeamCount, class_fits};
ghost use Rattle.league.specs.Meetings.{pairs_of};
ghost use Rattle.league.specs.Shapes.{has_bounds};
ghost use Rattle.league.specs.declared.class.Class.TheVariants as class;
ghost use Rattle.encoding.specs.Keys as keys;
ghost use Rattle.encoding.specs.Keys.{IsWithin, most_literals, separation, subjects_of, suits, width};
ghost use Rattle.encoding.specs.declared.subjects.Subject.{Subject};

use crate::sets::{pair_total, slot_numbers, team_numbers};
use league::{Class, Span, slot_count};

/// Whom a class bounds by itself.
#[derive(Clone, Copy)]
pub enum Subject {
    /// All of whom it speaks, together.
    Whole,
    /// One team.
    Team(u16),
    /// Two teams, the earlier one first.
    Pair(u16, u16),
}

/// How many subjects a class has that fits a league of n teams.
pub fn subject_count(n: u16, class: &Class) -> usize
    requires n { n ≤ 40 }
    requires fits { IsTrue (class_fits n class.now) }
    ensures count { result ≡ length (subjects_of class.now) }
    ensures few { result ≤ 780 }

    // Of a class that counts games or breaks they are fewer, and the keys of none have more than so many literals at
    // one place in all.
    ensures bounded { IsTrue (has_bounds class.now) → result ≤ 40 }
    ensures literals { result * most_literals class.now ≤ 249600 }
{
    match class {
        Class::Ca1 { teams, .. } | Class::Br1 { teams, .. } => team_numbers(n, teams).len(),
        Class::Ca2 { teams1, .. } | Class::Ca3 { teams1, .. } => team_numbers(n, teams1).len(),
        Class::Ca4 { .. } | Class::Ga1 { .. } | Class::Br2 { .. } => 1,
        Class::Fa2 { teams, .. } | Class::Se1 { teams, .. } => pair_total(n, teams) as usize,
    }
}

/// A class's subject at a place among all of them, from 0.
pub fn subject_at(n: u16, class: &Class, place: usize) -> Subject
    requires n { n ≤ 40 }
    requires fits { IsTrue (class_fits n class.now) }
    requires place { place < length (subjects_of class.now) }
    ensures subject { (other : Subject) → result ≡ get_or (subjects_of class.now) place other }
    ensures suits { IsTrue (suits class.now result) }
    ensures within { IsWithin n result }
{
    match class {
        Class::Ca1 { teams, .. } | Class::Br1 { teams, .. } => {
            Subject::Team(team_numbers(n, teams)[place])
        }
        Class::Ca2 { teams1, .. } | Class::Ca3 { teams1, .. } => {
            Subject::Team(team_numbers(n, teams1)[place])
        }
        Class::Ca4 { .. } | Class::Ga1 { .. } | Class::Br2 { .. } => Subject::Whole,
        Class::Fa2 { teams, .. } => {
            let (first, second) = pair_at(team_numbers(n, teams), place);
            Subject::Pair(first, second)
        }
        Class::Se1 { teams, .. } => {
            let (first, second) = pair_at(team_numbers(n, teams), place);
            Subject::Pair(first, second)
        }
    }
}

/// The pair at a place among all pairs of some teams, from 0. No other pair is listed.
fn pair_at(teams: &[u16], place: usize) -> (u16, u16)
    requires { place < length (pairs_of teams.now) }
    ensures { (other : ℕ × ℕ) → result ≡ get_or (pairs_of teams.now) place other }
{
    let mut left = teams;
    let mut further = place;
    while let Some((first, later)) = left.split_first() {
        if further < later.len() {
            return (*first, later[further]);
        }
        further -= later.len();
        left = later;
    }
    unreachable!()
}

/// The places at which a class that fits a league of n teams bounds each of its subjects.
pub fn places_of(n: u16, class: &Class) -> &[u16]
    requires n { IsTeamCount n }
    requires fits { IsTrue (class_fits n class.now) }
    ensures places { result.now ≡ keys.places_of n class.now }
    ensures fit { All (λ place. place + width n class.now ≤ counts.slot_count n) result.now }
    ensures few { length result.now ≤ 78 }
{
    match class {
        Class::Ca3 { intp, .. } => firsts(n, u64::from(*intp)),
        Class::Fa2 { slots, .. } => slot_numbers(n, slots),
        Class::Se1 { min, .. } => separation_places(n, *min),
        Class::Ca4 {
            span: Span::Every,
            slots,
            ..
        } => slot_numbers(n, slots),
        _ => consecutive(0, 1),
    }
}

/// The places at which an SE1 with this `min` bounds each two of its teams: the first slots of its windows.
pub fn separation_places(n: u16, min: u32) -> &'static [u16]
    requires n { IsTeamCount n }
    ensures places { (teams : List ℕ) → result.now ≡ keys.places_of n (class.Se1 teams min) }
    ensures fit { All (λ place. place + separation n min ≤ counts.slot_count n) result.now }
    ensures few { length result.now ≤ 78 }
{
    firsts(n, u64::from(separation_window(n, min)))
}

/// How many slots a window of an SE1 has.
pub(crate) fn separation_window(n: u16, min: u32) -> u16
    requires { n ≤ 40 }
    ensures { result ≡ separation n min }
{
    (u64::from(min) + 1).min(u64::from(slot_count(n))) as u16
}

/// The first slots of all windows of so many slots.
fn firsts(n: u16, window: u64) -> &'static [u16]
    requires n { n ≤ 40 }
    requires window { 0 < window }
    ensures firsts { result.now ≡ range_with_len 0 (counts.slot_count n + 1 - window) }
    ensures few { length result.now ≤ 78 }
{
    consecutive(
        0,
        (u64::from(slot_count(n)) + 1).saturating_sub(window) as u16,
    )
}

/// So many consecutive numbers.
pub(crate) fn consecutive(first: u16, count: u16) -> &'static [u16]
    requires { first + count ≤ 78 }
    ensures numbers { result.now ≡ range_with_len first count }
    ensures few { length result.now ≤ 78 }
{
    let first = usize::from(first);
    &NUMBERS[first..first + usize::from(count)]
}

/// The numbers of all slots of the longest season.
static NUMBERS: [u16; 78] = [
    0, 1, 2, 3, 4, 5, 6, 7, 8, 9, 10, 11, 12, 13, 14, 15, 16, 17, 18, 19, 20, 21, 22, 23, 24, 25,
    26, 27, 28, 29, 30, 31, 32, 33, 34, 35, 36, 37, 38, 39, 40, 41, 42, 43, 44, 45, 46, 47, 48, 49,
    50, 51, 52, 53, 54, 55, 56, 57, 58, 59, 60, 61, 62, 63, 64, 65, 66, 67, 68, 69, 70, 71, 72, 73,
    74, 75, 76, 77,
];
