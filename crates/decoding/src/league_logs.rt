//! Logs checked over an encoding.
ghost use Rattle.std.specs.Prelude.{◌≡◌, IfOk, Ok};
ghost use Rattle.league.specs.Instance.{IsInstance};
ghost use Rattle.encoding.specs.Encoding.{rows_of};
ghost use Rattle.encoding.specs.Variables.{var_count};
ghost use Rattle.refutation.specs.Verdict.{verdict_of};
ghost use Rattle.refutation_check.specs.Judged.{no_step_of};
ghost use Rattle.decoding.specs.Excluded.{NoneAccepted};

use encoding::Encoding;
use refutation::{Log, Verdict};
use refutation_check::{Checker, check};
use std::alloc::{AllocError, Global};

/// The verdict on a log over the encoding's rows. Where it is accepted, the league accepts no list of games.
///
/// # Errors
/// Only where memory runs out.
pub fn check_log(alloc: Global, encoding: &Encoding, log: &Log) -> Result<Verdict, AllocError>
    ensures verdict { IfOk result (λ verdict.
        verdict ≡ verdict_of (rows_of encoding.now) (var_count encoding.now) log.now) }
    ensures none { result ≡ Ok Verdict.Accepted → NoneAccepted encoding.now }
{
    check(alloc, encoding.rows(), encoding.vars(), log)
}

/// A checker over the encoding's rows, for a log that comes in pieces.
///
/// # Errors
/// Only where memory runs out.
pub fn checker_of(alloc: Global, encoding: &Encoding) -> Result<Checker<'_>, AllocError>
    ensures checker { IfOk result (λ checker. checker ≡ no_step_of (rows_of encoding.now) (var_count encoding.now)) }

    // What holds of every encoding: accepted logs exclude every schedule of its league.
    ensures instance { IsInstance encoding.now }
{
    Checker::new(alloc, encoding.rows(), encoding.vars())
}
