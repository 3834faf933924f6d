//! Wide rows whose numbers fit, as rows.
ghost use Rattle.std.specs.Prelude.{◌≡◌, ◌≤◌, IfOk, IfSome};
ghost use Rattle.std.specs.List.{All};

use rows::{Term, WideTerm};
use std::alloc::{AllocError, Global};

/// The wide terms as terms, if each coefficient fits 32 bits and no variable is above `vars`.
///
/// # Errors
/// Only where memory runs out.
pub(crate) fn narrowed(
    alloc: Global,
    terms: &[WideTerm],
    vars: u32,
) -> Result<Option<Vec<Term>>, AllocError>
    ensures same { IfOk result (λ found. IfSome found (λ narrow. narrow.items ≡ terms.now)) }
    ensures known { IfOk result (λ found. IfSome found (λ narrow. All (λ t. t.lit.var ≤ vars) narrow.items)) }
{
    let mut narrow = Vec::with_capacity(alloc, terms.len())?;
    for term in terms {
        if term.coef > u128::from(u32::MAX) || term.lit.var() > vars {
            return Ok(None);
        }
        narrow.push(Term {
            coef: term.coef as u32,
            lit: term.lit,
        })?;
    }
    Ok(Some(narrow))
}
