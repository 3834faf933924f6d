//! Looks at the clauses that are watched at one literal.
ghost use Rattle.std.specs.Prelude.{◌≡◌, ◌+◌, ◌≤◌, ◌<◌, ◌^◌, length, None, IfSome, slice_index_or};
ghost use Rattle.rows.specs.Literals.{negate};
ghost use Rattle.propagate.specs.Trails.{NamesConflict, values_of};
ghost use Rattle.propagate.specs.Looks.{AreSound, IsGrownOver};
ghost use Rattle.propagate.specs.Watches.{IsNext, IsNextBacked, IsNode, IsWatching, partner_of};
ghost use Rattle.propagate.specs.declared.entry.Entry.{Entry as AnEntry};

use crate::clause::{next_open, settle_last};
use crate::entry::Conflict;
use crate::link::slot;
use crate::path::Path;
use crate::watches::{Watches, partner};
use rows::{Lit, Value};

/// What a node watches from now on, and the conflict that was found, if any.
#[derive(Clone, Copy)]
pub(crate) struct Next {
    pub(crate) lit: Lit,
    pub(crate) stopped: Option<Conflict>,
}

/// Looks at each clause that is watched at the literal that the entry at a place made false.
pub(crate) fn walk(
    path: &mut Path,
    watches: &mut Watches,
    looked: usize,
    falsified: Lit,
) -> Option<Conflict>
    requires sound { AreSound path.old }
    requires watching { IsWatching path.old watches.old looked }
    requires there { looked < length path.old.entries }
    requires falsified { (d : AnEntry) → negate (slice_index_or path.old.entries looked d).lit ≡ falsified }
    ensures grown { IsGrownOver path.old path.new }
    ensures watching { IsWatching path.new watches.new looked }
    ensures hung { watches.new.hung ≡ watches.old.hung }
    ensures conflict { IfSome result (NamesConflict path.new.rows (values_of path.new.entries)) }
    ensures visited { result ≡ None → IsWatching path.new watches.new (looked + 1) }
{
    let mut left = watches.nodes.len();
    let mut stopped = None;
    let mut at = watches.take_off(slot(falsified));
    'nodes: while at > 0 {
        let place = at - 1;
        at = watches.nodes[place].next;
        let next = next_watch(path, watches, place, stopped);
        watches.hang(place, next.lit);
        stopped = next.stopped;
        left -= 1;
    }
    stopped
}

/// Looks at the clause of a node whose literal is false, unless a conflict was found before.
fn next_watch(path: &mut Path, watches: &Watches, place: usize, stopped: Option<Conflict>) -> Next
    requires sound { AreSound path.old }
    requires there { place < length watches.now.nodes.items }
    requires node { IsNode path.old.rows path.old.given watches.now.hung watches.now.nodes.items place }
    requires other { IsNode path.old.rows path.old.given watches.now.hung watches.now.nodes.items (partner_of place) }
    requires hung { watches.now.hung ≤ length path.old.rows }
    requires stopped { IfSome stopped (NamesConflict path.old.rows (values_of path.old.entries)) }
    ensures grown { IsGrownOver path.old path.new }
    ensures next { IsNext path.new watches.now.nodes.items place result.lit }
    ensures looked { result.stopped ≡ None
        → (stopped ≡ None) × IsNextBacked path.new watches.now.nodes.items place result.lit }
    ensures conflict { IfSome result.stopped (NamesConflict path.new.rows (values_of path.new.entries)) }
{
    match stopped {
        None => look_at_node(path, watches, place),
        Some(conflict) => Next {
            lit: watches.nodes[place].lit,
            stopped: Some(conflict),
        },
    }
}

/// Looks at the clause of a node whose literal is false.
fn look_at_node(path: &mut Path, watches: &Watches, place: usize) -> Next
    requires sound { AreSound path.old }
    requires there { place < length watches.now.nodes.items }
    requires node { IsNode path.old.rows path.old.given watches.now.hung watches.now.nodes.items place }
    requires other { IsNode path.old.rows path.old.given watches.now.hung watches.now.nodes.items (partner_of place) }
    requires hung { watches.now.hung ≤ length path.old.rows }
    ensures grown { IsGrownOver path.old path.new }
    ensures next { IsNext path.new watches.now.nodes.items place result.lit }
    ensures looked { result.stopped ≡ None → IsNextBacked path.new watches.now.nodes.items place result.lit }
    ensures conflict { IfSome result.stopped (NamesConflict path.new.rows (values_of path.new.entries)) }
{
    let node = watches.nodes[place];
    let other = watches.nodes[partner(place)].lit;
    if let Value::True = path.value(other) {
        return Next {
            lit: node.lit,
            stopped: None,
        };
    }
    if let Some(found) = next_open(path, node.row, other.var()) {
        return Next {
            lit: found,
            stopped: None,
        };
    }
    if settle_last(path, node.row, other) {
        return Next {
            lit: node.lit,
            stopped: None,
        };
    }
    Next {
        lit: node.lit,
        stopped: Some(Conflict {
            row: node.row as u64 + 1,
        }),
    }
}
