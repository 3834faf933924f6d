//! The keys of a class: the lists of literals that it bounds, and by how much.
ghost use Rattle.std.specs.Prelude.{◌≡◌, ◌+◌, ◌^◌, ◌<◌, ◌≤◌, ℕ, List, IsTrue};
ghost use Rattle.league.specs.Counts as counts;
ghost use Rattle.league.specs.Instance.{IsTeamCount, are_slots, class_fits};
ghost use Rattle.league.specs.Shapes.{has_opponents};
ghost use Rattle.league.specs.declared.class.Class.TheVariants as class;
ghost use Rattle.encoding.specs.Ascending.{AreSlots};
ghost use Rattle.encoding.specs.Keys as keys;
ghost use Rattle.encoding.specs.Keys.{IsListable, IsWithin, held, key_of};
ghost use Rattle.encoding.specs.Keys.{most_counted, most_literals, separation, suits, width};
ghost use Rattle.encoding.specs.Pairs.{IsPair};
ghost use Rattle.encoding.specs.declared.subjects.Subject.TheVariants as subject;

use crate::sets::{meeting_numbers, slot_numbers, team_numbers};
use crate::subjects::{Subject, consecutive, separation_window};
use league::{Class, Side, SlotSet, Span, TeamSet};

/// The literals that a key counts.
#[derive(Clone, Copy)]
pub enum Counted<'a> {
    /// The games of a team at home, or away, in some slots; of both sides none.
    Venues {
        team: u16,
        side: Side,
        slots: &'a [u16],
    },
    /// The games of a team with others on a side in some slots.
    Against {
        team: u16,
        opponents: &'a [u16],
        side: Side,
        slots: &'a [u16],
    },
    /// The games of some teams with others on a side in some slots, each once.
    Between {
        teams1: &'a TeamSet,
        teams2: &'a TeamSet,
        side: Side,
        slots: &'a [u16],
    },
    /// The games of some meetings in some slots.
    Games {
        meetings: &'a [(u16, u16)],
        slots: &'a [u16],
    },
    /// The breaks of a team on a side at some slots.
    Breaks {
        team: u16,
        side: Side,
        slots: &'a [u16],
    },
    /// The breaks of some teams at some slots.
    AllBreaks {
        teams: &'a [u16],
        slots: &'a [u16],
    },
    /// The away games of a team and the home games of a later one in some slots.
    Lead {
        first: u16,
        second: u16,
        slots: &'a [u16],
    },
}

/// Literals, and how many of them are true: from `low` to `high`.
#[derive(Clone, Copy)]
pub struct Key<'a> {
    pub low: u64,
    pub high: u64,
    pub counted: Counted<'a>,
}

impl<'a> Key<'a> {
    /// A key of these literals, of which from `low` to `high` are true.
    fn new(low: u32, high: u32, counted: Counted<'a>) -> Key<'a>
        ensures low { result.low ≡ low }
        ensures high { result.high ≡ high }
        ensures counted { result.counted ≡ counted.entry }
    {
        Key {
            low: u64::from(low),
            high: u64::from(high),
            counted,
        }
    }
}

/// The key of a class for one of its subjects at one of its places.
pub fn key_at(n: u16, class: &Class, subject: Subject, place: u16) -> Key<'_>
    requires n { IsTeamCount n }
    requires fits { IsTrue (class_fits n class.now) }
    requires suits { IsTrue (suits class.now subject) }
    requires within { IsWithin n subject }
    requires place { place + width n class.now ≤ counts.slot_count n }
    ensures key { held n result ≡ key_of n class.now subject place }
    ensures listable { IsListable n result.counted }
    ensures few { most_counted result.counted ≤ most_literals class.now }
    ensures low { result.low < 2 ^ 32 }
{
    match subject {
        Subject::Whole => whole_key(n, class, place),
        Subject::Team(team) => team_key(n, class, team, place),
        Subject::Pair(first, second) => pair_key(n, class, first, second, place),
    }
}

/// The key of a class that bounds all of whom it speaks together.
fn whole_key(n: u16, class: &Class, place: u16) -> Key<'_>
    requires n { IsTeamCount n }
    requires fits { IsTrue (class_fits n class.now) }
    requires suits { IsTrue (suits class.now subject.Whole) }
    requires place { place + width n class.now ≤ counts.slot_count n }
    ensures key { held n result ≡ key_of n class.now subject.Whole place }
    ensures listable { IsListable n result.counted }
    ensures few { most_counted result.counted ≤ most_literals class.now }
    ensures low { result.low < 2 ^ 32 }
{
    match class {
        Class::Ca4 {
            teams1,
            teams2,
            min,
            max,
            side,
            span,
            slots,
        } => {
            let counted = Counted::Between {
                teams1,
                teams2,
                side: *side,
                slots: slots_at(n, *span, slots, place),
            };
            Key::new(*min, *max, counted)
        }
        Class::Ga1 {
            meetings,
            min,
            max,
            slots,
        } => {
            let meetings = meeting_numbers(n, meetings);
            let slots = slot_numbers(n, slots);
            Key::new(*min, *max, Counted::Games { meetings, slots })
        }
        Class::Br2 { teams, intp, slots } => {
            let teams = team_numbers(n, teams);
            let slots = slot_numbers(n, slots);
            Key::new(0, *intp, Counted::AllBreaks { teams, slots })
        }
        _ => unreachable!(),
    }
}

/// The slots of a CA4 at one of its places: all of them together, or one.
fn slots_at(n: u16, span: Span, slots: &SlotSet, place: u16) -> &[u16]
    requires n { n ≤ 40 }
    requires slots { IsTrue (are_slots n slots.now) }
    requires place { place < counts.slot_count n }
    ensures slots { result.now ≡ keys.slots_at span slots.now place }
    ensures order { AreSlots n result.now }
{
    match span {
        Span::Global => slot_numbers(n, slots),
        Span::Every => consecutive(place, 1),
    }
}

/// The key of a class for a team.
fn team_key(n: u16, class: &Class, team: u16, place: u16) -> Key<'_>
    requires n { IsTeamCount n }
    requires fits { IsTrue (class_fits n class.now) }
    requires suits { IsTrue (suits class.now (subject.Team team)) }
    requires team { team < n }
    requires place { place + width n class.now ≤ counts.slot_count n }
    ensures key { held n result ≡ key_of n class.now (subject.Team team) place }
    ensures listable { IsListable n result.counted }
    ensures few { most_counted result.counted ≤ most_literals class.now }
    ensures low { result.low < 2 ^ 32 }
{
    match class {
        Class::Ca1 {
            min,
            max,
            side,
            slots,
            ..
        } => {
            let slots = slot_numbers(n, slots);
            let side = *side;
            Key::new(*min, *max, Counted::Venues { team, side, slots })
        }
        Class::Br1 {
            intp,
            side,
            slots,
            ..
        } => {
            let slots = slot_numbers(n, slots);
            let side = *side;
            Key::new(0, *intp, Counted::Breaks { team, side, slots })
        }
        _ => opposed_key(n, class, team, place),
    }
}

/// The key of a class for a team and its opponents.
fn opposed_key(n: u16, class: &Class, team: u16, place: u16) -> Key<'_>
    requires n { IsTeamCount n }
    requires opponents { IsTrue (has_opponents class.now) }
    requires fits { IsTrue (class_fits n class.now) }
    requires team { team < n }
    requires place { place + width n class.now ≤ counts.slot_count n }
    ensures key { held n result ≡ key_of n class.now (subject.Team team) place }
    ensures listable { IsListable n result.counted }
    ensures few { most_counted result.counted ≤ most_literals class.now }
    ensures low { result.low < 2 ^ 32 }
{
    match class {
        Class::Ca2 {
            teams2,
            min,
            max,
            side,
            slots,
            ..
        } => {
            let counted = Counted::Against {
                team,
                opponents: team_numbers(n, teams2),
                side: *side,
                slots: slot_numbers(n, slots),
            };
            Key::new(*min, *max, counted)
        }
        Class::Ca3 {
            teams2,
            min,
            max,
            intp,
            side,
            ..
        } => {
            let counted = Counted::Against {
                team,
                opponents: team_numbers(n, teams2),
                side: *side,
                slots: consecutive(place, *intp as u16),
            };
            Key::new(*min, *max, counted)
        }
        _ => unreachable!(),
    }
}

/// The key of a class for two teams, the earlier one first.
fn pair_key(n: u16, class: &Class, first: u16, second: u16, place: u16) -> Key<'_>
    requires n { IsTeamCount n }
    requires suits { IsTrue (suits class.now (subject.Pair first second)) }
    requires pair { IsPair n (first, second) }
    requires place { place + width n class.now ≤ counts.slot_count n }
    ensures key { held n result ≡ key_of n class.now (subject.Pair first second) place }
    ensures listable { IsListable n result.counted }
    ensures few { most_counted result.counted ≤ most_literals class.now }
    ensures low { result.low < 2 ^ 32 }
{
    match class {
        Class::Fa2 { intp, .. } => {
            let so_far = u64::from(place) + 1;
            let low = so_far.saturating_sub(u64::from(*intp));
            let high = so_far + u64::from(*intp);
            let slots = consecutive(0, place + 1);
            let counted = Counted::Lead {
                first,
                second,
                slots,
            };
            Key { low, high, counted }
        }
        Class::Se1 { min, .. } => separation_key(n, first, second, *min, place),
        _ => unreachable!(),
    }
}

/// The key of an SE1 with this `min` for two teams, the earlier one first: at most one of their games is in the window
/// from a place on. It doesn't depend on the other teams of the SE1.
pub fn separation_key(n: u16, first: u16, second: u16, min: u32, place: u16) -> Key<'static>
    requires n { IsTeamCount n }
    requires pair { IsPair n (first, second) }
    requires place { place + separation n min ≤ counts.slot_count n }
    ensures key { (teams : List ℕ) → held n result ≡ key_of n (class.Se1 teams min) (subject.Pair first second) place }
    ensures listable { IsListable n result.counted }
    ensures few { most_counted result.counted ≤ 156 }
    ensures low { result.low < 2 ^ 32 }
{
    let counted = Counted::Against {
        team: first,
        opponents: consecutive(second, 1),
        side: Side::Both,
        slots: consecutive(place, separation_window(n, min)),
    };
    Key::new(0, 1, counted)
}
