//! The members of a contradiction while it is made smaller, and what is known of each.
ghost use Rattle.std.specs.Prelude.{◌≡◌, ◌<◌, ◌==◌, not, true, None, Some, length, map, slice_set, IfOk, IfSome};
ghost use Rattle.std.specs.List.{filter};
ghost use Rattle.league.specs.Instance.{IsInstance};
ghost use Rattle.league.specs.Sets.{is_in};
ghost use Rattle.explain.specs.Parts as parts;
ghost use Rattle.explain.specs.Standings as standings;
ghost use Rattle.explain.specs.Standings.{AreClosed, IsOpenAt, kept, loosened};

use crate::cases::Case;
use crate::hard_numbers;
use league::League;
use refutation::Log;
use std::alloc::{AllocError, Global};

/// A hard constraint by its number, and what is known of the others without it: nothing, where it is still to be tried.
#[derive(Drop)]
pub(crate) struct Member {
    pub(crate) number: u32,
    pub(crate) case: Option<Case>,
}

/// Members, and a log that refutes the league of these alone.
#[derive(Drop)]
pub(crate) struct Contradiction {
    pub(crate) members: Vec<Member>,
    pub(crate) log: Log,
}

/// All hard constraints of a league, each still to be tried.
///
/// # Errors
/// Only where memory runs out.
pub(crate) fn all_open(alloc: Global, league: &League) -> Result<Vec<Member>, AllocError>
    ensures members { IfOk result (λ members.
        members.items ≡ map standings.open_member (parts.hard_numbers league.now.constraints)) }
    ensures instance { IsInstance league.now }
{
    let numbers = hard_numbers(alloc, league)?;
    numbers
        .iter()
        .map(|number| Member {
            number: *number,
            case: None,
        })
        .collect(alloc)
}

/// The place of the first member that is still to be tried.
pub(crate) fn first_open(members: &[Member]) -> Option<usize>
    ensures untried { IfSome result (IsOpenAt members.now) }
    ensures closed { result ≡ None → AreClosed members.now }
{
    members.iter().position(|member| member.case.is_none())
}

/// How many members are still to be tried, for those who hear of it.
pub(crate) fn open_count(members: &[Member]) -> u64 {
    members
        .iter()
        .filter(|member| member.case.is_none())
        .count() as u64
}

/// The numbers of some members.
///
/// # Errors
/// Only where memory runs out.
pub(crate) fn numbers_of(alloc: Global, members: &[Member]) -> Result<Vec<u32>, AllocError>
    ensures { IfOk result (λ numbers. numbers.items ≡ standings.numbers_of members.now) }
{
    let mut numbers = Vec::with_capacity(alloc, members.len())?;
    for member in members {
        numbers.push(member.number)?;
    }
    Ok(numbers)
}

/// The cases of some members.
///
/// # Errors
/// Only where memory runs out.
pub(crate) fn cases_of(alloc: Global, members: Vec<Member>) -> Result<Vec<Case>, AllocError>
    ensures { IfOk result (λ cases. cases.items ≡ standings.cases_of members.items) }
{
    let mut cases = Vec::with_capacity(alloc, members.len())?;
    for member in members {
        if let Some(case) = member.case {
            cases.push(case)?;
        }
    }
    Ok(cases)
}

/// The numbers of the members but for one.
///
/// # Errors
/// Only where memory runs out.
pub(crate) fn others(alloc: Global, members: &[Member], number: u32) -> Result<Vec<u32>, AllocError>
    ensures { IfOk result (λ others. others.items ≡ parts.without number (standings.numbers_of members.now)) }
{
    let mut others = Vec::with_capacity(alloc, members.len())?;
    for other in members {
        if other.number != number {
            others.push(other.number)?;
        }
    }
    Ok(others)
}

/// The numbers of the members that stand in a list.
///
/// # Errors
/// Only where memory runs out.
pub(crate) fn listed_numbers(
    alloc: Global,
    members: &[Member],
    named: &[u32],
) -> Result<Vec<u32>, AllocError>
    ensures { IfOk result (λ listed.
        listed.items ≡ filter (λ k. is_in k named.now) (standings.numbers_of members.now)) }
{
    let mut listed = Vec::with_capacity(alloc, members.len())?;
    for member in members {
        if is_among(named, member.number) {
            listed.push(member.number)?;
        }
    }
    Ok(listed)
}

/// Whether a number stands in a list.
fn is_among(named: &[u32], number: u32) -> bool
    ensures { result ≡ is_in number named.now }
{
    named.iter().any(|other| *other == number)
}

/// The members but for one, in the smaller contradiction.
///
/// # Errors
/// Only where memory runs out.
pub(crate) fn shrunk(
    alloc: Global,
    members: Vec<Member>,
    number: u32,
) -> Result<Vec<Member>, AllocError>
    ensures { IfOk result (λ smaller. smaller.items ≡ kept (λ k. not (k == number)) members.items) }
{
    let mut smaller = Vec::with_capacity(alloc, members.len())?;
    for member in members {
        if member.number != number {
            smaller.push(reopened(member))?;
        }
    }
    Ok(smaller)
}

/// The members that stand in a list, in the smaller contradiction.
///
/// # Errors
/// Only where memory runs out.
pub(crate) fn listed_members(
    alloc: Global,
    members: Vec<Member>,
    named: &[u32],
) -> Result<Vec<Member>, AllocError>
    ensures { IfOk result (λ smaller. smaller.items ≡ kept (λ k. is_in k named.now) members.items) }
{
    let mut smaller = Vec::with_capacity(alloc, members.len())?;
    for member in members {
        if is_among(named, member.number) {
            smaller.push(reopened(member))?;
        }
    }
    Ok(smaller)
}

/// A member in a smaller contradiction: a schedule is one of fewer constraints too, a spent log says nothing of them.
fn reopened(member: Member) -> Member
    ensures { result ≡ standings.reopened member }
{
    let Member { number, case } = member;
    Member {
        number,
        case: loosened(case),
    }
}

/// What is still known of a member in a smaller contradiction.
fn loosened(case: Option<Case>) -> Option<Case>
    ensures { result ≡ loosened case }
{
    match case {
        Some(Case::Without { schedule }) => Some(Case::Without { schedule }),
        _ => None,
    }
}

/// What is known of the member at a place, from now on.
pub(crate) fn settle(
    contradiction: Contradiction,
    place: usize,
    number: u32,
    case: Case,
) -> Contradiction
    requires { place < length contradiction.members.items }
    ensures members { result.members.items ≡ slice_set contradiction.members.items place
        (record { number = number; case = Some case }) }
    ensures log { result.log ≡ contradiction.log }
{
    let Contradiction { mut members, log } = contradiction;
    members[place] = Member {
        number,
        case: Some(case),
    };
    Contradiction { members, log }
}
