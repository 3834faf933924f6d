//! What bounds of breaks allow together.
ghost use Rattle.std.specs.Prelude.{◌≡◌, ◌+◌, ◌-◌, ◌^◌, ◌<◌, ◌≤◌, not, min, length, slice_index};
ghost use Rattle.std.specs.List.{All, filter, list_all, list_any, range_with_len, sum_by};
ghost use Rattle.break_counts.specs.BreakCounts.{later_slots};
ghost use Rattle.break_counts.specs.Sums as sums;
ghost use Rattle.break_counts.specs.Tables.{IsTable};

use crate::cover::has;
use crate::stretch::Stretch;
use league::{Class, League, Side};
use std::alloc::{AllocError, Global};

/// A bound that is added up: that of the constraint at a place, of all teams of a BR2 together, or of one team of a BR1.
#[derive(Clone, Copy)]
pub struct Summand {
    pub place: usize,
    pub team: u16,
}

/// In how many stretches each team may have breaks, added up over all teams: what bounds allow together, and what each
/// team is allowed by itself whose breaks they don't count. It is 2^64 - 1 where that is less.
pub(crate) fn allowed_together(
    league: &League,
    summands: &[Summand],
    stretches: &[Stretch],
    allowed: &[u32],
) -> u64
    requires table { IsTable league.now.n league.now.constraints stretches.now allowed.now }
    requires few { length allowed.now ≤ 40 }
    requires within { All (λ t. t.first + t.count ≤ 78) stretches.now }
    ensures { result ≡ min
        (sums.allowed_together league.now.n league.now.constraints summands.now stretches.now) (2 ^ 64 - 1) }
{
    let beside = total_beside(league, summands, stretches, allowed);
    total_of(league, summands).saturating_add(beside)
}

/// The sum of the numbers of the teams that have a break in the stretches that bounds don't count.
fn total_beside(
    league: &League,
    summands: &[Summand],
    stretches: &[Stretch],
    numbers: &[u32],
) -> u64
    requires few { length numbers.now ≤ 40 }
    requires within { All (λ t. t.first + t.count ≤ 78) stretches.now }
    ensures sum { result ≡ sum_by (λ i. slice_index numbers.now i)
        (filter (λ i. not (sums.is_counted league.now.constraints summands.now stretches.now i))
        (range_with_len 0 (length numbers.now))) }
    ensures fits { result < 2 ^ 40 }
{
    let mut sum = 0u64;
    for team in 0..numbers.len() {
        if !is_counted(league, summands, stretches, team as u16) {
            sum += u64::from(numbers[team]);
        }
    }
    sum
}

/// The teams each of whose breaks in the stretches is counted by one of these bounds.
///
/// # Errors
/// Only where memory runs out.
pub(crate) fn counted_teams(
    alloc: Global,
    league: &League,
    summands: &[Summand],
    stretches: &[Stretch],
) -> Result<Vec<u16>, AllocError>
    requires { All (λ t. t.first + t.count ≤ 78) stretches.now }
{
    let mut teams = Vec::new(alloc);
    for team in 0..league.n() {
        if is_counted(league, summands, stretches, team) {
            teams.push(team)?;
        }
    }
    Ok(teams)
}

/// Whether bounds count, one beside another, each break of a team in the stretches.
fn is_counted(league: &League, summands: &[Summand], stretches: &[Stretch], team: u16) -> bool
    requires { All (λ t. t.first + t.count ≤ 78) stretches.now }
    ensures { result ≡ sums.is_counted league.now.constraints summands.now stretches.now team }
{
    for stretch in stretches {
        if !is_counted_in(league, summands, *stretch, team) {
            return false;
        }
    }
    true
}

/// Whether bounds count each break of a team in one stretch.
fn is_counted_in(league: &League, summands: &[Summand], stretch: Stretch, team: u16) -> bool
    requires { stretch.first + stretch.count ≤ 78 }
    ensures { result ≡ list_all (λ s. list_any (sums.counts league.now.constraints team s) summands.now)
        (later_slots stretch) }
{
    for distance in 1..stretch.count {
        if !is_counted_at(league, summands, team, stretch.first + distance) {
            return false;
        }
    }
    true
}

/// Whether one of the bounds counts a team's break at a slot.
fn is_counted_at(league: &League, summands: &[Summand], team: u16, slot: u16) -> bool
    ensures { result ≡ list_any (sums.counts league.now.constraints team slot) summands.now }
{
    for summand in summands {
        if counts(league, *summand, team, slot) {
            return true;
        }
    }
    false
}

/// Whether a bound counts a team's break at a slot.
fn counts(league: &League, summand: Summand, team: u16, slot: u16) -> bool
    ensures { result ≡ sums.counts league.now.constraints team slot summand }
{
    match league.constraints().get(summand.place) {
        Some(constraint) => {
            constraint.hard && counts_break(&constraint.class, summand.team, team, slot)
        }
        None => false,
    }
}

/// Whether a class counts a team's break at a slot, where this team of a BR1 is named.
fn counts_break(class: &Class, named: u16, team: u16, slot: u16) -> bool
    ensures { result ≡ sums.counts_break class.now named team slot }
{
    match class {
        Class::Br1 {
            teams,
            intp: _,
            side,
            slots,
        } => {
            *side == Side::Both
                && named == team
                && has(teams.numbers(), team)
                && has(slots.numbers(), slot)
        }
        Class::Br2 {
            teams,
            intp: _,
            slots,
        } => has(teams.numbers(), team) && has(slots.numbers(), slot),
        _ => false,
    }
}

/// What bounds allow together, or 2^64 - 1 where that is less.
fn total_of(league: &League, summands: &[Summand]) -> u64
    ensures { result ≡ min (sum_by (sums.allows league.now.constraints) summands.now) (2 ^ 64 - 1) }
{
    let mut total = 0u64;
    for summand in summands {
        total = total.saturating_add(u64::from(allows(league, *summand)));
    }
    total
}

/// What a bound allows.
fn allows(league: &League, summand: Summand) -> u32
    ensures { result ≡ sums.allows league.now.constraints summand }
{
    match league.constraints().get(summand.place) {
        Some(constraint) => most_breaks(&constraint.class),
        None => 0,
    }
}

/// The bound of a class.
fn most_breaks(class: &Class) -> u32
    ensures { result ≡ sums.most_breaks class.now }
{
    match class {
        Class::Br1 {
            teams: _,
            intp,
            side: _,
            slots: _,
        } => *intp,
        Class::Br2 {
            teams: _,
            intp,
            slots: _,
        } => *intp,
        _ => 0,
    }
}
