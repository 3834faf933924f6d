//! The steps of a search behind sums.
ghost use Rattle.std.specs.Prelude.{◌≡◌, ◌++◌, false, IfOk};
ghost use Rattle.std.specs.List.{All};
ghost use Rattle.refutation.specs.Steps.{is_linear};

use refutation::Log;
use std::alloc::AllocError;

/// The clause steps of a log behind the steps of another.
///
/// # Errors
/// Only where memory runs out.
pub(crate) fn behind(sums: Log, search: &Log) -> Result<Log, AllocError>
    requires { All (λ step. is_linear step ≡ false) search.now }
    ensures { IfOk result (λ log. log ≡ sums ++ search.now) }
{
    let mut log = sums;
    for k in 0..search.len() {
        log.push(search.clause(k), search.hints(k))?;
    }
    Ok(log)
}
