//! Groups of literals of which exactly one is true.
ghost use Rattle.std.specs.Prelude.{◌≡◌, ◌<◌, ◌≤◌, length};

use rows::{Lit, RowStore, Term};

/// Where two groups stand that have no variable in common, each as two rows one behind the other: at least one of its
/// literals is true, and at most one.
#[derive(Clone, Copy)]
pub(crate) struct Groups {
    /// The place of the first row of the first group.
    pub(crate) least: usize,
    /// The place of the first row of the second group, and the first two literals of it.
    pub(crate) others: usize,
    pub(crate) one: Lit,
    pub(crate) other: Lit,
}

/// The first group, and the first one behind it that has no variable in common with it, if there are two.
pub(crate) fn groups_of(rows: &RowStore) -> Option<Groups> {
    let mut first = None;
    for place in 1..rows.len() {
        if !is_group(rows, place) {
            continue;
        }
        let Some(least) = first else {
            first = Some(place - 1);
            continue;
        };
        let found = groups_at(rows, least, place - 1);
        if found.is_some() {
            return found;
        }
    }
    None
}

/// The groups at two places, if they have no variable in common.
fn groups_at(rows: &RowStore, least: usize, others: usize) -> Option<Groups> {
    if least >= rows.len() || others >= rows.len() {
        return None;
    }
    let [one, other, ..] = rows.terms(others) else {
        return None;
    };
    if !are_apart(rows.terms(least), rows.terms(others)) {
        return None;
    }
    Some(Groups {
        least,
        others,
        one: one.lit,
        other: other.lit,
    })
}

/// Whether the row before a place says that at least one of two literals or more is true, and that at the place that at
/// most one is.
fn is_group(rows: &RowStore, place: usize) -> bool
    requires later { 1 ≤ place }
    requires there { place < length rows.now }
{
    let least = rows.terms(place - 1);
    let most = rows.terms(place);
    if least.len() < 2 || least.len() != most.len() {
        return false;
    }
    let others = least.len() as u64 - 1;
    rows.degree(place - 1) == 1 && rows.degree(place) == others && are_opposite(least, most)
}

/// Whether all coefficients are 1, and each literal of the one row is the negation of that of the other at its place.
fn are_opposite(least: &[Term], most: &[Term]) -> bool
    requires { length least.now ≡ length most.now }
{
    for at in 0..least.len() {
        let one = least[at];
        let other = most[at];
        if one.coef != 1 || other.coef != 1 || one.lit != other.lit.negate() {
            return false;
        }
    }
    true
}

/// Whether the terms have no variable in common.
fn are_apart(some: &[Term], others: &[Term]) -> bool {
    for term in some {
        for other in others {
            if term.lit.var() == other.lit.var() {
                return false;
            }
        }
    }
    true
}
