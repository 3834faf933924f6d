//! Looks at one added clause.
ghost use Rattle.std.specs.Prelude.{◌≡◌, ◌≢◌, ◌<◌, ◌≤◌, ◌⊎◌, length, true, false, None, Contains, IfSome};
ghost use Rattle.rows.specs.Cardinality.{unit};
ghost use Rattle.rows.specs.Partials.{IsInConflict, IsQuietRow, value_of};
ghost use Rattle.propagate.specs.Trails.{values_of};
ghost use Rattle.propagate.specs.Numbered.{row_at};
ghost use Rattle.propagate.specs.Looks.{AreSound, IsGrownOver};
ghost use Rattle.propagate.specs.Watches.{AllFalseBut, IsOpenIn};
ghost use Rattle.rows.specs.declared.partial.Value.TheVariants.{True};

use crate::path::Path;
use rows::{Lit, Value};

/// The first literal of a row that isn't false and not of this variable.
pub(crate) fn next_open(path: &Path, place: usize, skip: u32) -> Option<Lit>
    requires sound { AreSound path.now }
    requires there { path.now.given ≤ place }
    requires within { place < length path.now.rows }
    ensures some { IfSome result (IsOpenIn (values_of path.now.entries) (row_at path.now.rows place) skip) }
    ensures none { result ≡ None → AllFalseBut skip (values_of path.now.entries) (row_at path.now.rows place) }
{
    let terms = path.terms(place);
    for term in terms {
        if is_open_beside(path, term.lit, skip) {
            return Some(term.lit);
        }
    }
    None
}

/// Whether a literal isn't false and not of this variable.
fn is_open_beside(path: &Path, lit: Lit, skip: u32) -> bool
    requires { lit.var ≤ path.now.vars }
    ensures yes { result ≡ true → (lit.var ≢ skip) × (value_of (values_of path.now.entries) lit ≢ Value.False) }
    ensures no { result ≡ false
        → (value_of (values_of path.now.entries) lit ≡ Value.False) ⊎ ((1 ≤ skip) × (lit.var ≡ skip)) }
{
    if lit.var() == skip {
        return false;
    }
    is_open(path.value(lit))
}

/// Whether a value isn't false.
fn is_open(value: Value) -> bool
    ensures yes { result ≡ true → value ≢ Value.False }
    ensures no { result ≡ false → value ≡ Value.False }
{
    match value {
        Value::False => false,
        Value::True | Value::Free => true,
    }
}

/// Makes the literal of a clause true whose other literals are all false, if it is free. It says whether the literal is
/// true now, and changes nothing where it is false.
pub(crate) fn settle_last(path: &mut Path, place: usize, lit: Lit) -> bool
    requires sound { AreSound path.old }
    requires there { path.old.given ≤ place }
    requires within { place < length path.old.rows }
    requires literal { Contains (row_at path.old.rows place).terms (unit lit) }
    requires others { AllFalseBut lit.var (values_of path.old.entries) (row_at path.old.rows place) }
    ensures grown { IsGrownOver path.old path.new }
    ensures met { result ≡ true → value_of (values_of path.new.entries) lit ≡ True }
    ensures conflict { result ≡ false → IsInConflict (values_of path.new.entries) (row_at path.new.rows place) }
{
    let _count = path.row_count();
    match path.value(lit) {
        Value::True => true,
        Value::False => false,
        Value::Free => {
            path.force(lit, place as u64 + 1);
            true
        }
    }
}

/// Makes the literal of a clause true that it forces. It says whether the clause could be met, and changes nothing
/// where it is in conflict.
pub(crate) fn look_over(path: &mut Path, place: usize) -> bool
    requires sound { AreSound path.old }
    requires there { path.old.given ≤ place }
    requires within { place < length path.old.rows }
    ensures grown { IsGrownOver path.old path.new }
    ensures met { result ≡ true → IsQuietRow (values_of path.new.entries) (row_at path.new.rows place) }
    ensures conflict { result ≡ false → IsInConflict (values_of path.new.entries) (row_at path.new.rows place) }
{
    match next_open(path, place, 0) {
        None => false,
        Some(found) => look_beside(path, place, found),
    }
}

/// Makes the literal of a clause true that it forces, where a literal is known that isn't false. It says whether the
/// clause could be met, and changes nothing where it is in conflict.
fn look_beside(path: &mut Path, place: usize, found: Lit) -> bool
    requires sound { AreSound path.old }
    requires there { path.old.given ≤ place }
    requires within { place < length path.old.rows }
    requires opened { IsOpenIn (values_of path.old.entries) (row_at path.old.rows place) 0 found }
    ensures grown { IsGrownOver path.old path.new }
    ensures met { result ≡ true → IsQuietRow (values_of path.new.entries) (row_at path.new.rows place) }
    ensures conflict { result ≡ false → IsInConflict (values_of path.new.entries) (row_at path.new.rows place) }
{
    if let Some(_second) = next_open(path, place, found.var()) {
        return true;
    }
    settle_last(path, place, found)
}
