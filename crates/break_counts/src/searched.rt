//! A refutation by a search to the end.
ghost use Rattle.std.specs.Prelude.{◌≡◌, true, IfOk};
ghost use Rattle.venue_counts.specs.CountLogs.{IsRefuting};
ghost use Rattle.break_counts.specs.BreakCounts.{are_few};

use clause_search::{Found, search};
use encoding::Encoding;
use refutation::Log;
use std::alloc::{AllocError, Global};

/// The log of a search without a limit, over the rows of a league that allows its teams too few breaks. No values
/// satisfy them.
///
/// # Errors
/// Only where memory runs out.
pub(crate) fn searched(alloc: Global, encoding: &Encoding) -> Result<Log, AllocError>
    requires { are_few encoding.now ≡ true }
    ensures { IfOk result (IsRefuting encoding.now) }
{
    let vars = encoding.vars();
    let found = search(alloc, encoding.rows(), vars, &[], None)?;
    match found {
        Found::Refuted(log) => Ok(log),
        Found::Sat(_values) => unreachable!(),
        Found::Spent(_log) => unreachable!(),
    }
}
