//! Propagation: what rows force, until none forces a literal or one is in conflict.
ghost use Rattle.std.specs.Prelude.{◌≡◌, ◌+◌, ℕ, ◌<◌, ◌≤◌, length, true, false, None, IfSome, slice_index_or};
ghost use Rattle.rows.specs.Literals.{negate};
ghost use Rattle.rows.specs.Partials.{IsInConflict, IsQuietRow};
ghost use Rattle.propagate.specs.Trails.{IsSettled, NamesConflict, values_of};
ghost use Rattle.propagate.specs.Looks.{AreGivenSeen, AreSound, IsGrownOver, IsReady, IsTrail, IsTurn};
ghost use Rattle.propagate.specs.Numbered.{row_at};
ghost use Rattle.propagate.specs.declared.entry.Entry.{Entry as AnEntry};

use crate::clause::look_over;
use crate::entry::Conflict;
use crate::force::look;
use crate::hang::hang_next;
use crate::path::Path;
use crate::walk::walk;
use crate::watches::Watches;
use rows::Lit;

/// How far a path was looked at: each of the first `rows` rows is quiet, or one of the entries from `entries` on made a
/// literal of it false.
#[derive(Clone, Copy)]
pub(crate) struct Looked {
    pub(crate) entries: usize,
    pub(crate) rows: usize,
}

/// What one turn of propagation comes to.
#[derive(Clone, Copy)]
pub(crate) enum Turn {
    /// One entry or one row more was looked at.
    Again,
    /// All were: no row is in conflict or forces a literal.
    Quiet,
    /// A row is in conflict.
    Stopped(Conflict),
}

/// Makes each literal true that the rows force, one after another, until no row forces one or one is in conflict.
pub(crate) fn settle(
    path: &mut Path,
    watches: &mut Watches,
    looked: &mut Looked,
) -> Option<Conflict>
    requires { IsTrail path.old watches.old looked.old }
    ensures grown { IsGrownOver path.old path.new }
    ensures trail { IsTrail path.new watches.new looked.new }
    ensures found { IsSettled path.new.rows (values_of path.new.entries) result }
    ensures all { result ≡ None → looked.new.entries ≡ length path.new.entries }
{
    'turns: loop {
        match take_turn(path, watches, looked) {
            Turn::Again => {}
            Turn::Quiet => return None,
            Turn::Stopped(conflict) => return Some(conflict),
        }
    }
}

/// Looks at the rows of the next entry, or where there is none at the next row.
fn take_turn(path: &mut Path, watches: &mut Watches, looked: &mut Looked) -> Turn
    requires { IsTrail path.old watches.old looked.old }
    ensures grown { IsGrownOver path.old path.new }
    ensures trail { IsTrail path.new watches.new looked.new }
    ensures came { IsTurn path.new looked.old looked.new result }
{
    let count = path.row_count();
    if looked.entries < path.len() {
        if let Some(conflict) = visit(path, watches, *looked) {
            return Turn::Stopped(conflict);
        }
        looked.entries += 1;
        // A clause that has no watches is looked at again after each entry.
        looked.rows = looked.rows.min(watches.hung);
        return Turn::Again;
    }
    if looked.rows == count {
        return Turn::Quiet;
    }
    if !look_at(path, looked.rows) {
        return Turn::Stopped(Conflict {
            row: looked.rows as u64 + 1,
        });
    }
    hang_next(path, watches, *looked);
    looked.rows += 1;
    Turn::Again
}

/// Looks at each row of which the next entry made a literal false: first at the clauses, which come last.
fn visit(path: &mut Path, watches: &mut Watches, looked: Looked) -> Option<Conflict>
    requires trail { IsTrail path.old watches.old looked }
    requires there { looked.entries < length path.old.entries }
    ensures grown { IsGrownOver path.old path.new }
    ensures trail { IsTrail path.new watches.new looked }
    ensures conflict { IfSome result (NamesConflict path.new.rows (values_of path.new.entries)) }
    ensures visited { result ≡ None → (rows : ℕ) → rows ≤ looked.rows → rows ≤ watches.new.hung
        → IsTrail path.new watches.new (record { entries = looked.entries + 1; rows = rows }) }
{
    let falsified = path.entry(looked.entries).lit.negate();
    if let Some(conflict) = walk(path, watches, looked.entries, falsified) {
        return Some(conflict);
    }
    visit_rows(path, looked, falsified)
}

/// Looks at each row that was given of which the entry at a place made this literal false.
fn visit_rows(path: &mut Path, looked: Looked, falsified: Lit) -> Option<Conflict>
    requires ready { IsReady path.old looked }
    requires there { looked.entries < length path.old.entries }
    requires falsified { (d : AnEntry) → negate (slice_index_or path.old.entries looked.entries d).lit ≡ falsified }
    ensures grown { IsGrownOver path.old path.new }
    ensures ready { IsReady path.new looked }
    ensures conflict { IfSome result (NamesConflict path.new.rows (values_of path.new.entries)) }
    ensures visited { result ≡ None → AreGivenSeen path.new looked }
{
    let _len = path.len();
    let _given = path.given();
    let links = path.links(falsified);
    let mut at = path.past_quiet(falsified, links.len());
    'rows: while at > 0 {
        let link = path.link(falsified, at - 1);
        if !look(path, link.row as usize) {
            return Some(Conflict {
                row: u64::from(link.row) + 1,
            });
        }
        at = path.past_quiet(falsified, at - 1);
    }
    None
}

/// Makes each literal true that the row or clause at a place forces. It says whether it could be met, and changes
/// nothing where it is in conflict.
fn look_at(path: &mut Path, place: usize) -> bool
    requires sound { AreSound path.old }
    requires there { place < length path.old.rows }
    ensures grown { IsGrownOver path.old path.new }
    ensures met { result ≡ true → IsQuietRow (values_of path.new.entries) (row_at path.new.rows place) }
    ensures conflict { result ≡ false → IsInConflict (values_of path.new.entries) (row_at path.new.rows place) }
{
    if place < path.given() {
        look(path, place)
    } else {
        look_over(path, place)
    }
}
