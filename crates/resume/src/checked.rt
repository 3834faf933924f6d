//! Logs over resume rows.
ghost use Rattle.std.specs.Prelude.{◌≡◌, ◌≤◌, length, IfOk, Ok};
ghost use Rattle.std.specs.List.{All};
ghost use Rattle.league.specs.Counts as counts;
ghost use Rattle.league.specs.Counts.{counts_of};
ghost use Rattle.league.specs.Instance.{IsGame, IsInstance};
ghost use Rattle.encoding.specs.Variables.{var_count};
ghost use Rattle.refutation.specs.Verdict.{verdict_of};
ghost use Rattle.refutation_check.specs.Judged.{no_step_of};
ghost use Rattle.resume.specs.Kept as kept;
ghost use Rattle.resume.specs.Kept.{resume_rows};
ghost use Rattle.resume.specs.Resumable.{NoneResumes};
ghost use Rattle.resume.specs.Systems.{rows_for};
ghost use Rattle.encoding.specs.Limit.{KeepsLimit};

use crate::system::{ResumeSystem, resume_system};
use encoding::EncodeFault;
use league::{League, Schedule};
use refutation::{Log, Verdict};
use refutation_check::{Checker, check};
use std::alloc::{AllocError, Global};

/// The verdict on a log over the resume rows. Where it is accepted, no schedule that the league accepts keeps the games
/// played below slot k.
///
/// # Errors
/// `TooLarge` exactly where the resume rows have more than 40,000,000 terms, with their number; else only where memory
/// runs out.
pub fn check_resume(
    alloc: Global,
    league: &League,
    played: &Schedule,
    k: u16,
    log: &Log,
) -> Result<Verdict, EncodeFault>
    requires few { length played.now ≤ 10000 }
    requires fit { All (IsGame league.now.n) played.now }
    requires slots { k ≤ counts.slot_count league.now.n }
    ensures verdict { IfOk result (λ verdict. verdict
        ≡ verdict_of (resume_rows league.now (counts_of played.now) k) (var_count league.now) log.now) }
    ensures none { result ≡ Ok Verdict.Accepted → NoneResumes league.now (counts_of played.now) k }
    ensures limit { KeepsLimit (kept.resume_size league.now k) result }
{
    let system = resume_system(alloc, league, played, k)?;
    let verdict = verdict_on(alloc, &system, log)?;
    Ok(verdict)
}

/// The verdict on a log over the rows of a system.
///
/// # Errors
/// Only where memory runs out.
fn verdict_on(alloc: Global, system: &ResumeSystem, log: &Log) -> Result<Verdict, AllocError>
    ensures verdict { IfOk result (λ verdict. verdict
        ≡ verdict_of (rows_for system.now)
        (var_count system.now.league) log.now) }
    ensures instance { IsInstance system.now.league }
{
    check(alloc, system.rows(), system.vars(), log)
}

/// A checker over the rows of a system, for a log that comes in pieces.
///
/// # Errors
/// Only where memory runs out.
pub fn checker_of(alloc: Global, system: &ResumeSystem) -> Result<Checker<'_>, AllocError>
    ensures checker { IfOk result (λ checker. checker
        ≡ no_step_of (rows_for system.now)
        (var_count system.now.league)) }

    // What holds of every system.
    ensures instance { IsInstance system.now.league }
{
    Checker::new(alloc, system.rows(), system.vars())
}
