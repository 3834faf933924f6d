//! The names of new files.
ghost use Rattle.std.specs.Prelude.{◌≡◌, IfOk, string_bytes};
ghost use Rattle.robin_host.specs.Names as names;

use std::alloc::{AllocError, Global};

/// The name of a new file beside another one.
///
/// # Errors
/// Only where memory runs out.
pub(crate) fn draft_name(alloc: Global, file: &str, number: u64) -> Result<String, AllocError>
    ensures { IfOk result (λ name. string_bytes name ≡ names.draft_name file.now number) }
{
    format!(in alloc; "{file}.robin-{number}")
}
