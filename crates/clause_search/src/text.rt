//! The text of a log whose steps are tidy.
ghost use Rattle.std.specs.Prelude.{◌≡◌, false, Ok, IfOk};
ghost use Rattle.std.specs.List.{All};
ghost use Rattle.clause_search.specs.News.{IsTidy};
ghost use Rattle.refutation.specs.Logs.{log_of};
ghost use Rattle.refutation.specs.Steps.{is_linear};
ghost use Rattle.refutation.specs.Texts as texts;

use refutation::{Log, log_text};
use std::alloc::{AllocError, Global};

/// The text of a log of clause steps that have each variable once at most, and few hints, over as many variables as a
/// league's rows have at most. It reads back as the log.
///
/// # Errors
/// Only where memory runs out.
pub fn tidy_text(alloc: Global, log: &Log) -> Result<Vec<u8>, AllocError>
    requires tidy { All (IsTidy 130960) log.now }
    requires clauses { All (λ step. is_linear step ≡ false) log.now }
    ensures text { IfOk result (λ text. text.items ≡ texts.log_text log.now) }
    ensures reads_back { IfOk result (λ text. log_of text.items ≡ Ok log.now) }
{
    log_text(alloc, log)
}
