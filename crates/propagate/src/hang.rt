//! Which two literals of a clause are watched.
ghost use Rattle.std.specs.Prelude.{◌≡◌, ◌≢◌, ◌+◌, ◌<◌, ◌≤◌, ◌^◌, ◌⊎◌, length, true, IfSome};
ghost use Rattle.propagate.specs.Numbered.{row_at};
ghost use Rattle.propagate.specs.Trails.{level_of};
ghost use Rattle.propagate.specs.Looks.{AreSound};
ghost use Rattle.propagate.specs.Watches.{IsHeld, IsLateIn, IsPair, IsWatching, WasOpen};

use crate::calm::was_open;
use crate::clause::next_open;
use crate::path::Path;
use crate::settle::Looked;
use crate::watches::Watches;
use rows::{Lit, Value};

/// Two literals of a clause.
#[derive(Clone, Copy)]
pub(crate) struct Pair {
    pub(crate) first: Lit,
    pub(crate) second: Lit,
}

/// Has the next clause watched, if it is the first one that isn't and has two literals for it, or counts it among those
/// that need no look if a literal of it is true for good.
pub(crate) fn hang_next(path: &Path, watches: &mut Watches, looked: Looked)
    requires sound { AreSound path.now }
    requires looked { looked.entries ≤ length path.now.entries }
    requires watching { IsWatching path.now watches.old looked.entries }
    requires within { looked.rows < length path.now.rows }
    ensures { IsWatching path.now watches.new looked.entries }
{
    let _count = path.row_count();
    if looked.rows != watches.hung {
        return;
    }
    match pair_of(path, looked.rows) {
        Some(pair) => watches.push_pair(pair, looked.rows),
        None => hold(path, watches, looked.rows),
    }
}

/// Counts the next clause among those that need no look, if a literal of it is true for good.
fn hold(path: &Path, watches: &mut Watches, place: usize)
    requires sound { AreSound path.now }
    requires there { path.now.given ≤ place }
    requires within { place < length path.now.rows }
    requires few { place + 1 < 2 ^ 64 }
    requires next { watches.old.hung ≡ place }
    ensures { (watches.new ≡ watches.old)
        ⊎ (IsHeld (row_at path.now.rows place) path.now.entries
        × (watches.new ≡ record watches.old { hung = place + 1 })) }
{
    if is_held(path, place) {
        watches.hung = place + 1;
    }
}

/// Whether no decision was made, and a literal of a clause is true.
fn is_held(path: &Path, place: usize) -> bool
    requires sound { AreSound path.now }
    requires there { path.now.given ≤ place }
    requires within { place < length path.now.rows }
    ensures { result ≡ true → IsHeld (row_at path.now.rows place) path.now.entries }
{
    if path.level() > 0 {
        return false;
    }
    match next_open(path, place, 0) {
        None => false,
        Some(found) => is_true(path.value(found)),
    }
}

/// Two literals of a clause that may be watched.
fn pair_of(path: &Path, place: usize) -> Option<Pair>
    requires sound { AreSound path.now }
    requires there { path.now.given ≤ place }
    requires within { place < length path.now.rows }
    ensures { IfSome result (IsPair path.now (row_at path.now.rows place)) }
{
    let first = match next_open(path, place, 0) {
        None => return None,
        Some(found) => found,
    };
    if let Some(second) = next_open(path, place, first.var()) {
        return Some(Pair { first, second });
    }
    if !is_true(path.value(first)) {
        return None;
    }
    match next_late(path, place, first.var()) {
        None => None,
        Some(second) => Some(Pair { first, second }),
    }
}

/// The first literal of a clause that wasn't false before the last decision, and isn't of this variable.
fn next_late(path: &Path, place: usize, skip: u32) -> Option<Lit>
    requires sound { AreSound path.now }
    requires there { path.now.given ≤ place }
    requires within { place < length path.now.rows }
    ensures { IfSome result (IsLateIn path.now (row_at path.now.rows place) skip) }
{
    let level = path.level();
    let terms = path.terms(place);
    for term in terms {
        if is_late(path, term.lit, skip, level) {
            return Some(term.lit);
        }
    }
    None
}

/// Whether a literal wasn't false before the last decision, and isn't of this variable.
fn is_late(path: &Path, lit: Lit, skip: u32, level: u32) -> bool
    requires sound { AreSound path.now }
    requires known { lit.var ≤ path.now.vars }
    requires level { level ≡ level_of path.now.entries }
    ensures { result ≡ true → (lit.var ≢ skip) × WasOpen lit path.now.entries }
{
    if lit.var() == skip {
        return false;
    }
    was_open(path, lit, level)
}

/// Whether a value is true.
fn is_true(value: Value) -> bool
    ensures { result ≡ true → value ≡ Value.True }
{
    match value {
        Value::True => true,
        Value::False | Value::Free => false,
    }
}
