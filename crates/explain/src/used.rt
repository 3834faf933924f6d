//! What a log uses. It is marked from the last step back (Goldberg and Novikov 2003).
ghost use Rattle.std.specs.Prelude.{◌≡◌, [], ◌∷◌, ◌≤◌, ◌<◌, length, map, IfOk};
ghost use Rattle.explain.specs.Used.{AreNoted, IsMarked, named_at};

use refutation::{Log, Part, StepKind};
use std::alloc::{AllocError, Global};

/// Which rows and steps a log over so many rows uses: a flag for each row, and behind these one for each step.
///
/// # Errors
/// Only where memory runs out.
pub(crate) fn marked(alloc: Global, rows: usize, log: &Log) -> Result<Vec<bool>, AllocError>
    ensures { IfOk result (λ flags. IsMarked rows log.now flags.items) }
{
    let steps = log.len();
    let Some(count) = rows.checked_add(steps) else {
        return Err(AllocError);
    };
    let mut flags = vec![in alloc; false; count]?;
    if steps > 0 {
        flags[count - 1] = true;
    }
    for done in 0..steps {
        let k = steps - 1 - done;
        if flags[rows + k] {
            note_step(&mut flags, rows + k, log, k);
        }
    }
    Ok(flags)
}

/// Sets the flags of what the step at a place names, below a limit.
fn note_step(flags: &mut [bool], limit: usize, log: &Log, k: usize)
    requires limit { limit ≤ length flags.old }
    requires there { k < length log.now }
    ensures { AreNoted limit (named_at log.now k) flags.old flags.new }
{
    match log.kind(k) {
        StepKind::Clause => note_hints(flags, limit, log.hints(k)),
        StepKind::Linear => note_rows(flags, limit, log.parts(k)),
    }
}

/// Sets the flags of some hints, below a limit.
fn note_hints(flags: &mut [bool], limit: usize, hints: &[u64])
    requires { limit ≤ length flags.old }
    ensures { AreNoted limit hints.now flags.old flags.new }
{
    for hint in hints {
        note(flags, limit, *hint);
    }
}

/// Sets the flags of the rows of some parts, below a limit.
fn note_rows(flags: &mut [bool], limit: usize, parts: &[Part])
    requires { limit ≤ length flags.old }
    ensures { AreNoted limit (map (λ part. part.row) parts.now) flags.old flags.new }
{
    for part in parts {
        note(flags, limit, part.row);
    }
}

/// Sets the flag of a number, from 1, where it lies below a limit.
fn note(flags: &mut [bool], limit: usize, number: u64)
    requires { limit ≤ length flags.old }
    ensures { AreNoted limit (number ∷ []) flags.old flags.new }
{
    if number > 0 && number <= limit as u64 {
        flags[number as usize - 1] = true;
    }
}
