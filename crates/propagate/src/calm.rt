//! Whether a literal was false before a decision of a path.
ghost use Rattle.std.specs.Prelude.{◌≡◌, ◌≤◌, true};
ghost use Rattle.propagate.specs.Looks.{AreSound};
ghost use Rattle.propagate.specs.Trails.{level_of};
ghost use Rattle.propagate.specs.Watches.{WasOpen};

use crate::path::Path;
use rows::{Lit, Value};

/// Whether a literal wasn't false before the last decision.
pub(crate) fn was_open(path: &Path, lit: Lit, level: u32) -> bool
    requires sound { AreSound path.now }
    requires known { lit.var ≤ path.now.vars }
    requires level { level ≡ level_of path.now.entries }
    ensures { result ≡ true → WasOpen lit path.now.entries }
{
    if let Value::False = path.value(lit) {
        return path.entry(path.place(lit)).level == level;
    }
    true
}
