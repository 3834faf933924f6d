//! A copy of rows.
ghost use Rattle.std.specs.Prelude.{◌≡◌, IfOk};

use rows::RowStore;
use std::alloc::{AllocError, Global};

/// A store of the same rows, which has room for a few more.
///
/// # Errors
/// Only where memory runs out.
pub(crate) fn copied(alloc: Global, rows: &RowStore) -> Result<RowStore, AllocError>
    ensures { IfOk result (λ copy. copy ≡ rows.now) }
{
    let mut copy = RowStore::new(alloc);
    for k in 0..rows.len() {
        copy.push(rows.terms(k), rows.degree(k))?;
    }
    Ok(copy)
}
