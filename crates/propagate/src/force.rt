//! What one row forces.
ghost use Rattle.std.specs.Prelude.{◌≡◌, ℕ, ◌+◌, ◌<◌, ◌≤◌, ◌^◌, length, true, false, None, slice_index_or, IfSome};
ghost use Rattle.rows.specs.Partials as partials;
ghost use Rattle.rows.specs.Partials.{IsInConflict, IsQuietRow, value_of};
ghost use Rattle.propagate.specs.Trails.{values_of};
ghost use Rattle.propagate.specs.Numbered.{row_at};
ghost use Rattle.propagate.specs.Looks.{AreSound, IsForcedIn, IsGrownOver, IsUnforced};

use crate::path::Path;
use rows::{Lit, Value};

/// A literal that a row forces, and its place in the row, from 0.
#[derive(Clone, Copy)]
pub(crate) struct Forced {
    pub(crate) place: usize,
    pub(crate) lit: Lit,
}

/// Makes each literal true that a row forces, if its reach isn't surely enough. It says whether the row could be met,
/// and changes nothing where it is in conflict.
pub(crate) fn look(path: &mut Path, place: usize) -> bool
    requires sound { AreSound path.old }
    requires there { place < path.old.given }
    ensures grown { IsGrownOver path.old path.new }
    ensures met { result ≡ true → IsQuietRow (values_of path.new.entries) (row_at path.new.rows place) }
    ensures conflict { result ≡ false → IsInConflict (values_of path.new.entries) (row_at path.new.rows place) }
{
    if path.is_enough(place) {
        return true;
    }
    let reached = path.reach(place);
    let degree = path.degree(place);
    if reached < degree {
        return false;
    }
    force_all(path, place, reached - degree);
    true
}

/// Makes each literal true that a row of this slack forces.
fn force_all(path: &mut Path, place: usize, slack: u64)
    requires sound { AreSound path.old }
    requires there { place < length path.old.rows }
    requires slack { (row_at path.old.rows place).degree + slack
        ≡ partials.reach (values_of path.old.entries) (row_at path.old.rows place).terms }
    ensures grown { IsGrownOver path.old path.new }
    ensures quiet { IsQuietRow (values_of path.new.entries) (row_at path.new.rows place) }
{
    let _count = path.row_count();
    let mut from = 0;
    'terms: while let Some(forced) = next_forced(path, place, slack, from) {
        path.force(forced.lit, place as u64 + 1);
        from = forced.place + 1;
    }
}

/// The first literal of a row, from a place on, that is free and has a coefficient above the slack.
fn next_forced(path: &Path, place: usize, slack: u64, from: usize) -> Option<Forced>
    requires sound { AreSound path.now }
    requires there { place < length path.now.rows }
    ensures some { IfSome result (λ f.
        IsForcedIn (values_of path.now.entries) (row_at path.now.rows place).terms slack from f) }
    ensures few { IfSome result (λ f. f.place + 1 < 2 ^ 64) }
    ensures none { result ≡ None
        → IsUnforced (values_of path.now.entries) (row_at path.now.rows place).terms slack from
        (length (row_at path.now.rows place).terms) }
{
    let terms = path.terms(place);
    let mut at = from;
    'terms: while at < terms.len() {
        let term = terms[at];
        if u64::from(term.coef) > slack {
            if let Value::Free = path.value(term.lit) {
                return Some(Forced {
                    place: at,
                    lit: term.lit,
                });
            }
        }
        at += 1;
    }
    None
}
