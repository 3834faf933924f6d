//! Leagues that allow their teams too few breaks: nothing resumes their seasons, whatever is played.
ghost use Rattle.std.specs.Prelude.{◌≡◌, ◌≤◌, false, true, length, IfOk, IfSome, None};
ghost use Rattle.std.specs.List.{All};
ghost use Rattle.league.specs.Counts as counts;
ghost use Rattle.league.specs.Instance.{IsGame, IsInstance};
ghost use Rattle.encoding.specs.Limit.{most_terms};
ghost use Rattle.break_counts.specs.BreakCounts.{are_few};
ghost use Rattle.resume.specs.Kept as kept;
ghost use Rattle.command_resume.specs.Counted.{CountsOut, RefutesSeason};

use crate::audited::system_of;
use crate::behind::{Behind, moved};
use break_counts::{break_count, break_sum, has_short_lines};
use clause_search::{Found, search};
use league::{League, Schedule};
use refutation::{Log, Verdict};
use refutation_check::check;
use resume::ResumeSystem;
use std::alloc::{AllocError, Global};

/// Some only where a league allows its teams too few breaks, by one hard constraint or by some together, whatever is
/// played: a log that refutes its resume rows. Its steps are those of `break_count` or `break_sum`, which follow from
/// the league's rows alone.
///
/// # Errors
/// Only where memory runs out.
pub(crate) fn count_out(
    alloc: Global,
    league: &League,
    played: &Schedule,
    k: u16,
) -> Result<Option<Log>, AllocError>
    requires few { length played.now ≤ 10000 }
    requires fit { All (IsGame league.now.n) played.now }
    requires slots { k ≤ counts.slot_count league.now.n }
    requires small { kept.resume_size league.now k ≤ most_terms }
    ensures counted { IfOk result (λ found. IfSome found (CountsOut league.now played.now k)) }
    ensures enough { IfOk result (λ found. found ≡ None → are_few league.now ≡ false) }

    // What holds of every league.
    ensures instance { IsInstance league.now }
{
    let counted = break_count(alloc, league)?;
    let Some(first) = counted else {
        return add_up(alloc, league, played, k);
    };
    let system = system_of(alloc, league, played, k)?;
    let log = refuting(alloc, &system, kept_clauses(league, k), &first)?;
    Ok(Some(log))
}

/// Some only where some hard constraints of a league allow its teams too few breaks together: a log that refutes its
/// resume rows.
///
/// # Errors
/// Only where memory runs out.
fn add_up(
    alloc: Global,
    league: &League,
    played: &Schedule,
    k: u16,
) -> Result<Option<Log>, AllocError>
    requires few { length played.now ≤ 10000 }
    requires fit { All (IsGame league.now.n) played.now }
    requires slots { k ≤ counts.slot_count league.now.n }
    requires small { kept.resume_size league.now k ≤ most_terms }
    ensures { IfOk result (λ found. IfSome found (CountsOut league.now played.now k)) }
{
    let added = break_sum(alloc, league)?;
    let Some(first) = added else {
        return Ok(None);
    };
    let season = system_of(alloc, league, played, k)?;
    let log = behind_kept(alloc, &season, kept_clauses(league, k), &first)?;
    Ok(log)
}

/// How many clauses keep what is played in the first k slots.
fn kept_clauses(league: &League, k: u16) -> u64 {
    let n = u64::from(league.n());
    n * n.saturating_sub(1) * u64::from(k)
}

/// A log that refutes the resume rows of a league that allows its teams too few breaks: the steps of a log over the
/// league's rows. Were they not accepted, a search without a limit would find another.
///
/// # Errors
/// Only where memory runs out.
fn refuting(
    alloc: Global,
    system: &ResumeSystem,
    clauses: u64,
    first: &Log,
) -> Result<Log, AllocError>
    requires { are_few system.now.league ≡ true }
    ensures { IfOk result (RefutesSeason system.now.league system.now.played system.now.k) }
{
    if let Some(log) = behind_kept(alloc, system, clauses, first)? {
        return Ok(log);
    }
    searched(alloc, system)
}

/// The steps of a log over a league's rows, behind so many clauses that keep what is played, if they are accepted over
/// the resume rows.
///
/// # Errors
/// Only where memory runs out.
fn behind_kept(
    alloc: Global,
    system: &ResumeSystem,
    clauses: u64,
    first: &Log,
) -> Result<Option<Log>, AllocError>
    ensures { IfOk result (λ found.
        IfSome found (RefutesSeason system.now.league system.now.played system.now.k)) }
{
    let rows = (system.rows().len() as u64).saturating_sub(clauses);
    let log = moved(alloc, first, Behind { rows, clauses })?;
    if_accepted(alloc, system, log)
}

/// A log, if it is accepted over resume rows and its text can be written.
///
/// # Errors
/// Only where memory runs out.
fn if_accepted(alloc: Global, system: &ResumeSystem, log: Log) -> Result<Option<Log>, AllocError>
    ensures { IfOk result (λ found.
        IfSome found (RefutesSeason system.now.league system.now.played system.now.k)) }
{
    let verdict = check(alloc, system.rows(), system.vars(), &log)?;
    if verdict == Verdict::Accepted && log.names_rows() && has_short_lines(&log) {
        Ok(Some(log))
    } else {
        Ok(None)
    }
}

/// The log of a search without a limit over the resume rows of a league that allows its teams too few breaks. No values
/// satisfy them.
///
/// # Errors
/// Only where memory runs out.
fn searched(alloc: Global, system: &ResumeSystem) -> Result<Log, AllocError>
    requires { are_few system.now.league ≡ true }
    ensures { IfOk result (RefutesSeason system.now.league system.now.played system.now.k) }
{
    let vars = system.vars();
    let found = search(alloc, system.rows(), vars, &[], None)?;
    match found {
        Found::Refuted(log) => Ok(log),
        Found::Sat(_values) => unreachable!(),
        Found::Spent(_log) => unreachable!(),
    }
}
