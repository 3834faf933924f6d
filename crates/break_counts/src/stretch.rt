//! Stretches of slots.
ghost use Rattle.std.specs.Prelude.{◌≡◌, IfOk};

use std::alloc::{AllocError, Global};

/// A stretch: a number of slots in a row, from a first one on.
#[derive(Clone, Copy)]
pub struct Stretch {
    pub first: u16,
    pub count: u16,
}

/// A copy of some stretches.
///
/// # Errors
/// Only where memory runs out.
pub(crate) fn copy_of(alloc: Global, stretches: &[Stretch]) -> Result<Vec<Stretch>, AllocError>
    ensures { IfOk result (λ copy. copy.items ≡ stretches.now) }
{
    let mut copy = Vec::new(alloc);
    copy.extend_from_slice(stretches)?;
    Ok(copy)
}
