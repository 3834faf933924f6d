//! The rows of constraints that bound breaks, and their numbers.
ghost use Rattle.std.specs.Prelude.{◌+◌, ◌<◌, ◌≤◌};
ghost use Rattle.std.specs.List.{All};

use crate::cover::{covers, has};
use crate::stretch::Stretch;
use encoding::{Encoding, ab_at, hb_at};
use league::{Class, Constraint, League, Side, slot_count};
use rows::{Lit, RowStore, Term};
use std::alloc::{AllocError, Global};

/// A bound of a team's breaks on a side, and the class of its constraint.
#[derive(Clone, Copy)]
pub(crate) struct Bound<'a> {
    pub(crate) class: &'a Class,
    pub(crate) intp: u32,
}

/// The least bound below `limit` of a team's breaks on a side in some stretches, by a hard BR1.
pub(crate) fn least_bound<'a>(
    league: &'a League,
    stretches: &[Stretch],
    side: Side,
    team: u16,
    limit: u32,
) -> Option<Bound<'a>>
    requires { All (λ t. t.first + t.count ≤ 78) stretches.now }
{
    let mut found = None;
    let mut least = limit;
    for constraint in league.constraints() {
        if let Some(intp) = bound_by(constraint, stretches, side, team, least) {
            least = intp;
            let class = &constraint.class;
            found = Some(Bound { class, intp });
        }
    }
    found
}

/// The bound of a hard BR1, if it is below a limit and counts each break of a team on a side in the stretches.
fn bound_by(
    constraint: &Constraint,
    stretches: &[Stretch],
    side: Side,
    team: u16,
    limit: u32,
) -> Option<u32>
    requires { All (λ t. t.first + t.count ≤ 78) stretches.now }
{
    let Class::Br1 {
        teams,
        intp,
        side: other,
        slots,
    } = &constraint.class
    else {
        return None;
    };
    let counts = constraint.hard
        && *other == side
        && *intp < limit
        && has(teams.numbers(), team)
        && covers(slots.numbers(), stretches);
    if counts { Some(*intp) } else { None }
}

/// The number of the row of a BR2, or of one team of a BR1, if there is one.
///
/// # Errors
/// Only where memory runs out.
pub(crate) fn bound_row(
    alloc: Global,
    encoding: &Encoding,
    class: &Class,
    team: u16,
) -> Result<Option<u64>, AllocError> {
    match class {
        Class::Br1 {
            teams: _,
            intp,
            side,
            slots,
        } => break_row(alloc, encoding, *side, &[team], slots.numbers(), *intp),
        Class::Br2 { teams, intp, slots } => {
            let teams = teams.numbers();
            break_row(alloc, encoding, Side::Both, teams, slots.numbers(), *intp)
        }
        _ => Ok(None),
    }
}

/// The number of the row that says that these teams have at most so many breaks on a side at these slots, if there is
/// one.
///
/// # Errors
/// Only where memory runs out.
fn break_row(
    alloc: Global,
    encoding: &Encoding,
    side: Side,
    teams: &[u16],
    slots: &[u16],
    most: u32,
) -> Result<Option<u64>, AllocError> {
    let literals = no_breaks(alloc, encoding.n(), side, teams, slots)?;
    Ok(number_of(encoding.rows(), &literals, most))
}

/// The literals that say that these teams have no breaks on a side at these slots.
fn no_breaks(
    alloc: Global,
    n: u16,
    side: Side,
    teams: &[u16],
    slots: &[u16],
) -> Result<Vec<Lit>, AllocError>
    requires { n ≤ 40 }
{
    let mut literals = Vec::new(alloc);
    if side != Side::A {
        add_breaks(&mut literals, n, teams, slots, true)?;
    }
    if side != Side::H {
        add_breaks(&mut literals, n, teams, slots, false)?;
    }
    Ok(literals)
}

/// Adds the literals that these teams have no home breaks, or no away breaks, at these slots.
fn add_breaks(
    literals: &mut Vec<Lit>,
    n: u16,
    teams: &[u16],
    slots: &[u16],
    home: bool,
) -> Result<(), AllocError>
    requires { n ≤ 40 }
{
    for team in teams {
        for slot in slots {
            add_break(literals, n, *team, *slot, home)?;
        }
    }
    Ok(())
}

/// Adds the literal that a team has no home break at a slot, or no away break, if it is a slot at which it may.
fn add_break(
    literals: &mut Vec<Lit>,
    n: u16,
    team: u16,
    slot: u16,
    home: bool,
) -> Result<(), AllocError>
    requires { n ≤ 40 }
{
    if team >= n || slot == 0 || slot >= slot_count(n) {
        return Ok(());
    }
    let var = if home {
        hb_at(n, team, slot)
    } else {
        ab_at(n, team, slot)
    };
    literals.push(Lit::new(var, false))?;
    Ok(())
}

/// The number of the first row that says that all but `bound` of these literals are true, if there is one.
fn number_of(rows: &RowStore, literals: &[Lit], bound: u32) -> Option<u64> {
    let degree = (literals.len() as u64).saturating_sub(u64::from(bound));
    for k in 0..rows.len() {
        if rows.degree(k) == degree && are_units(rows.terms(k), literals) {
            return Some(k as u64 + 1);
        }
    }
    None
}

/// Whether these are the terms of literals that each count once.
fn are_units(terms: &[Term], literals: &[Lit]) -> bool {
    if terms.len() != literals.len() {
        return false;
    }
    for place in 0..terms.len() {
        let term = terms[place];
        if term.coef != 1 || term.lit != literals[place] {
            return false;
        }
    }
    true
}
