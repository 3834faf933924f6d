// Lists of ids and of meetings in attributes, read straight into their sets.
ghost use Rattle.std.specs.Prelude.{◌≡◌, ◌≢◌, ◌<◌, ◌≤◌, ◌==◌, [], true, length, count_by, IfOk};
ghost use Rattle.std.specs.List.{before_first, after_first, position_or_len};
ghost use Rattle.std.specs.Str.{byte};
ghost use Rattle.std.specs.Ordering.{nat_cmp};
ghost use Rattle.robinx.specs.SeenPieces.{Gives};
ghost use Rattle.league.specs.Sets.{pair_cmp};
ghost use Rattle.league.specs.Instance.{are_teams, are_slots, are_meetings};
ghost use Rattle.league.specs.Counts as counts;
ghost use Rattle.robinx.specs.Values as values;
ghost use Rattle.robinx.specs.Gathered.{gathered};

use crate::attribute::Attrs;
use crate::tag_fault::{FormKind, Stop};
use crate::values::{id, required};
use league::{PairSet, SlotId, SlotSet, TeamId, TeamSet, slot_count};
use std::alloc::Global;

/// How many bytes stand before this one. An item has few bytes, so that a plain loop finds its end sooner than a
/// search by vectors would.
#[tactic(auto, using(std::proofs::lemmas::List::Sums::position_or_len_is))]
fn len_before(byte: u8, text: &[u8]) -> usize
    ensures value { result ≡ position_or_len (λ b. b == byte) text.now }
    ensures within { result ≤ length text.now }
{
    let mut len = 0;
    while len < text.len() && text[len] != byte {
        len += 1;
    }
    len
}

/// What stands before the first of these bytes, and what after it.
fn split_at_byte(byte: u8, text: &[u8]) -> (&[u8], &[u8])
    ensures before { result.0.now ≡ before_first (λ b. b == byte) text.now }
    ensures after { result.1.now ≡ after_first (λ b. b == byte) text.now }
    ensures shorter { 0 < length text.now → length result.1.now < length text.now }
{
    let len = len_before(byte, text);
    let (front, rest) = text.split_at(len);
    match rest {
        [] => (front, rest),
        [_, after @ ..] => (front, after),
    }
}

fn team(n: u16, text: &[u8]) -> Result<u16, FormKind>
    ensures value { result ≡ values.team n text.now }
    ensures below { IfOk result (λ team. team < n) }
{
    id(FormKind::UnknownTeam, n, text)
}

fn slot(n: u16, text: &[u8]) -> Result<u16, FormKind>
    requires { n ≤ 40 }
    ensures value { result ≡ values.slot n text.now }
    ensures below { IfOk result (λ slot. slot < counts.slot_count n) }
{
    id(FormKind::UnknownSlot, slot_count(n), text)
}

/// A team that has to be there.
pub(crate) fn team_in(attrs: &Attrs, name: &[u8], n: u16) -> Result<u16, FormKind>
    ensures value { result ≡ values.required name.now (values.team n) attrs.now }
    ensures below { IfOk result (λ team. team < n) }
{
    team(n, required(attrs, name)?)
}

/// A slot that has to be there.
pub(crate) fn slot_in(attrs: &Attrs, name: &[u8], n: u16) -> Result<u16, FormKind>
    requires { n ≤ 40 }
    ensures value { result ≡ values.required name.now (values.slot n) attrs.now }
    ensures below { IfOk result (λ slot. slot < counts.slot_count n) }
{
    slot(n, required(attrs, name)?)
}

/// The teams of a list, as a set.
fn gather_teams(alloc: Global, n: u16, text: &[u8]) -> Result<TeamSet, Stop>
    ensures { Gives (λ x. x) result (gathered nat_cmp [] (values.each (values.team n) (values.items_of text.now))) }
{
    let mut teams = TeamSet::new(alloc);
    let mut rest = text;
    'items: while !rest.is_empty() {
        let (item, after) = split_at_byte(b';', rest);
        let team = team(n, item)?;
        teams.insert(TeamId(team))?;
        rest = after;
    }
    Ok(teams)
}

/// The slots of a list, as a set.
fn gather_slots(alloc: Global, n: u16, text: &[u8]) -> Result<SlotSet, Stop>
    requires { n ≤ 40 }
    ensures { Gives (λ x. x) result (gathered nat_cmp [] (values.each (values.slot n) (values.items_of text.now))) }
{
    let mut slots = SlotSet::new(alloc);
    let mut rest = text;
    'items: while !rest.is_empty() {
        let (item, after) = split_at_byte(b';', rest);
        let slot = slot(n, item)?;
        slots.insert(SlotId(slot))?;
        rest = after;
    }
    Ok(slots)
}

fn has_one_comma(item: &[u8]) -> bool
    ensures { result ≡ (count_by (λ b. b == byte ",") item.now == 1) }
{
    item.iter().filter(|b| **b == b',').count() == 1
}

/// A meeting: a home team, a comma, and another team.
fn meeting(n: u16, item: &[u8]) -> Result<(u16, u16), FormKind>
    ensures { result ≡ values.meeting n item.now }
{
    if !has_one_comma(item) {
        return Err(FormKind::BadNumber);
    }
    let (before, after) = split_at_byte(b',', item);
    let home = team(n, before)?;
    let away = team(n, after)?;
    distinct(home, away)
}

/// Two different teams.
pub(crate) fn distinct(home: u16, away: u16) -> Result<(u16, u16), FormKind>
    ensures value { result ≡ values.distinct home away }
    ensures differ { IfOk result (λ pair. home ≢ away) }
{
    if home == away {
        return Err(FormKind::SameTeam);
    }
    Ok((home, away))
}

/// The meetings of a list, as a set.
fn gather_meetings(alloc: Global, n: u16, text: &[u8]) -> Result<PairSet, Stop>
    ensures { Gives (λ x. x) result
        (gathered pair_cmp [] (values.each (values.meeting n) (values.items_of text.now))) }
{
    let mut meetings = PairSet::new(alloc);
    let mut rest = text;
    'items: while !rest.is_empty() {
        let (item, after) = split_at_byte(b';', rest);
        let (home, away) = meeting(n, item)?;
        meetings.insert((TeamId(home), TeamId(away)))?;
        rest = after;
    }
    Ok(meetings)
}

fn teams(alloc: Global, n: u16, text: &[u8]) -> Result<TeamSet, Stop>
    ensures value { Gives (λ x. x) result (values.teams n text.now) }
    ensures fit { IfOk result (λ teams. are_teams n teams ≡ true) }
{
    gather_teams(alloc, n, text)
}

fn slots(alloc: Global, n: u16, text: &[u8]) -> Result<SlotSet, Stop>
    requires { n ≤ 40 }
    ensures value { Gives (λ x. x) result (values.slots n text.now) }
    ensures fit { IfOk result (λ slots. are_slots n slots ≡ true) }
{
    gather_slots(alloc, n, text)
}

fn meetings(alloc: Global, n: u16, text: &[u8]) -> Result<PairSet, Stop>
    ensures value { Gives (λ x. x) result (values.meetings n text.now) }
    ensures fit { IfOk result (λ meetings. are_meetings n meetings ≡ true) }
{
    gather_meetings(alloc, n, text)
}

/// The teams of an attribute that has to be there.
pub(crate) fn teams_in(alloc: Global, attrs: &Attrs, name: &[u8], n: u16) -> Result<TeamSet, Stop>
    ensures value { Gives (λ x. x) result (values.required name.now (values.teams n) attrs.now) }
    ensures fit { IfOk result (λ teams. are_teams n teams ≡ true) }
{
    teams(alloc, n, required(attrs, name)?)
}

/// The slots of an attribute that has to be there.
pub(crate) fn slots_in(alloc: Global, attrs: &Attrs, name: &[u8], n: u16) -> Result<SlotSet, Stop>
    requires { n ≤ 40 }
    ensures value { Gives (λ x. x) result (values.required name.now (values.slots n) attrs.now) }
    ensures fit { IfOk result (λ slots. are_slots n slots ≡ true) }
{
    slots(alloc, n, required(attrs, name)?)
}

/// The meetings of an attribute that has to be there.
pub(crate) fn meetings_in(
    alloc: Global,
    attrs: &Attrs,
    name: &[u8],
    n: u16,
) -> Result<PairSet, Stop>
    ensures value { Gives (λ x. x) result (values.required name.now (values.meetings n) attrs.now) }
    ensures fit { IfOk result (λ meetings. are_meetings n meetings ≡ true) }
{
    meetings(alloc, n, required(attrs, name)?)
}
