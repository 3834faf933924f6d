//! Where a league allows its teams too few breaks.
ghost use Rattle.std.specs.Prelude.{◌≡◌, ◌+◌, ◌*◌, ◌-◌, ◌^◌, ◌<◌, ◌≤◌, not, length, is_some, sum, IfOk, IfSome, slice_index};
ghost use Rattle.std.specs.List.{All, filter, range_with_len, sum_by};
ghost use Rattle.league.specs.Instance.{IsInstance};
ghost use Rattle.league.specs.Sets.{is_in};
ghost use Rattle.break_counts.specs.BreakCounts as counts;
ghost use Rattle.break_counts.specs.BreakCounts.{are_few, is_few_in};
ghost use Rattle.break_counts.specs.Tables.{AreInSeason, IsTable};

use crate::allowed::allowed_of;
use crate::cover::{covers, has};
use crate::stretch::{Stretch, copy_of};
use league::{Class, League, slot_count};
use std::alloc::{AllocError, Global};

/// Stretches in which the teams are allowed too few breaks together, and the class of a hard constraint with which they
/// are.
#[derive(Drop)]
pub(crate) struct Shortage<'a> {
    pub(crate) stretches: Vec<Stretch>,
    pub(crate) class: &'a Class,
}

/// The first shortage of a league, if it has one.
///
/// # Errors
/// Only where memory runs out.
pub(crate) fn find_shortage<'a>(
    alloc: Global,
    league: &'a League,
) -> Result<Option<Shortage<'a>>, AllocError>
    ensures few { IfOk result (λ found. is_some found ≡ are_few league.now) }
    ensures stretches { IfOk result (λ found. IfSome found (λ s. AreInSeason league.now.n s.stretches.items)) }
    ensures instance { IsInstance league.now }
{
    let n = league.n();
    if !league.phased() {
        let season = Stretch {
            first: 0,
            count: slot_count(n),
        };
        return shortage_in(alloc, league, &[season]);
    }
    let first = Stretch {
        first: 0,
        count: n - 1,
    };
    let second = Stretch {
        first: n - 1,
        count: n - 1,
    };
    match shortage_in(alloc, league, &[first])? {
        Some(found) => Ok(Some(found)),
        None => match shortage_in(alloc, league, &[second])? {
            Some(found) => Ok(Some(found)),
            None => shortage_in(alloc, league, &[first, second]),
        },
    }
}

/// The first shortage in these stretches.
fn shortage_in<'a>(
    alloc: Global,
    league: &'a League,
    stretches: &[Stretch],
) -> Result<Option<Shortage<'a>>, AllocError>
    requires few { length stretches.now ≤ 2 }
    requires within { All (λ t. t.first + t.count ≤ 78) stretches.now }
    requires season { AreInSeason league.now.n stretches.now }
    ensures few { IfOk result (λ found.
        is_some found ≡ is_few_in league.now.n league.now.constraints stretches.now) }
    ensures stretches { IfOk result (λ found. IfSome found (λ s. AreInSeason league.now.n s.stretches.items)) }
{
    let allowed = allowed_of(alloc, league, stretches)?;
    match first_few(league, &allowed, stretches) {
        Some(class) => Ok(Some(Shortage {
            stretches: copy_of(alloc, stretches)?,
            class,
        })),
        None => Ok(None),
    }
}

/// The class of the first hard constraint with which the teams are allowed too few breaks in these stretches, by what each
/// is allowed.
fn first_few<'a>(league: &'a League, allowed: &[u32], stretches: &[Stretch]) -> Option<&'a Class>
    requires table { IsTable league.now.n league.now.constraints stretches.now allowed.now }
    requires few { length stretches.now ≤ 2 }
    requires within { All (λ t. t.first + t.count ≤ 78) stretches.now }
    ensures { is_some result ≡ is_few_in league.now.n league.now.constraints stretches.now }
{
    let n = league.n();
    let needed = stretches.len() as u64 * u64::from(n - 2);
    let constraints = league.constraints();
    for constraint in constraints {
        if constraint.hard && allowed_with(league, allowed, stretches, &constraint.class) < needed {
            return Some(&constraint.class);
        }
    }
    None
}

/// In how many of the stretches all teams may have breaks together, by a class and what each is allowed.
fn allowed_with(league: &League, allowed: &[u32], stretches: &[Stretch], class: &Class) -> u64
    requires table { IsTable league.now.n league.now.constraints stretches.now allowed.now }
    requires few { length allowed.now ≤ 40 }
    requires within { All (λ t. t.first + t.count ≤ 78) stretches.now }
    ensures { result ≡ counts.allowed_with league.now.n league.now.constraints stretches.now class.now }
{
    let Class::Br2 { teams, intp, slots } = class else {
        return total(allowed);
    };
    if covers(slots.numbers(), stretches) {
        u64::from(*intp) + total_outside(allowed, teams.numbers())
    } else {
        total(allowed)
    }
}

/// The sum of some numbers.
fn total(numbers: &[u32]) -> u64
    requires { length numbers.now ≤ 40 }
    ensures { result ≡ sum numbers.now }
{
    numbers.iter().map(|number| u64::from(*number)).sum()
}

/// The sum of the numbers of all but these teams.
fn total_outside(numbers: &[u32], teams: &[u16]) -> u64
    requires { length numbers.now ≤ 40 }
    ensures sum { result ≡ sum_by (λ i. slice_index numbers.now i)
        (filter (λ i. not (is_in i teams.now)) (range_with_len 0 (length numbers.now))) }
    ensures fits { result < 2 ^ 40 }
{
    let mut sum = 0u64;
    for k in 0..numbers.len() {
        if !has(teams, k as u16) {
            sum += u64::from(numbers[k]);
        }
    }
    sum
}
