//! Whether a league's break counts refute it.
ghost use Rattle.std.specs.Prelude.{◌≡◌, ◌≤◌, ◌↔◌, true, IfOk, IfSome, IsSome};
ghost use Rattle.league.specs.Instance.{IsInstance};
ghost use Rattle.encoding.specs.Limit.{most_terms};
ghost use Rattle.encoding.specs.Encoding.{encoding_size};
ghost use Rattle.venue_counts.specs.CountLogs.{IsRefuting};
ghost use Rattle.break_counts.specs.BreakCounts.{are_few};
ghost use Rattle.break_counts.specs.Sums.{AddUp};
ghost use Rattle.break_counts.specs.Tables.{AreInSeason};

use crate::lines::has_short_lines;
use crate::log::{log_of, log_of_sum};
use crate::searched::searched;
use crate::shortage::{Shortage, find_shortage};
use crate::sums::{Sum, find_sum};
use encoding::{Encoding, encode_small};
use league::League;
use refutation::{Log, Verdict};
use refutation_check::check;
use std::alloc::{AllocError, Global};

/// Some exactly where a league allows its teams too few breaks: a log that refutes it, by the rows of the league alone.
/// It has some clauses for each two teams, and their sums. It is checked before it is given; were it not accepted, a
/// search without a limit would find another. The league's rows are written only where it allows too few.
///
/// # Errors
/// Only where memory runs out.
pub fn break_count(alloc: Global, league: &League) -> Result<Option<Log>, AllocError>
    requires small { encoding_size league.now ≤ most_terms }
    ensures few { IfOk result (λ found. IsSome found ↔ (are_few league.now ≡ true)) }
    ensures refuting { IfOk result (λ found. IfSome found (IsRefuting league.now)) }

    // What holds of every league.
    ensures instance { IsInstance league.now }
{
    match find_shortage(alloc, league)? {
        Some(shortage) => Ok(Some(refute_shortage(alloc, league, &shortage)?)),
        None => Ok(None),
    }
}

/// A log that refutes a league with a shortage.
///
/// # Errors
/// Only where memory runs out.
fn refute_shortage(
    alloc: Global,
    league: &League,
    shortage: &Shortage<'_>,
) -> Result<Log, AllocError>
    requires small { encoding_size league.now ≤ most_terms }
    requires few { are_few league.now ≡ true }
    requires season { AreInSeason league.now.n shortage.now.stretches.items }
    ensures { IfOk result (IsRefuting league.now) }
{
    let encoding = encode_small(alloc, league)?;
    refute_rows(alloc, league, &encoding, shortage)
}

/// A log that refutes the rows of a league with a shortage: the one that counts, if it is accepted, and else that of a
/// search.
///
/// # Errors
/// Only where memory runs out.
fn refute_rows(
    alloc: Global,
    league: &League,
    encoding: &Encoding,
    shortage: &Shortage<'_>,
) -> Result<Log, AllocError>
    requires few { are_few encoding.now ≡ true }
    requires season { AreInSeason league.now.n shortage.now.stretches.items }
    ensures { IfOk result (IsRefuting encoding.now) }
{
    let stretches = &shortage.stretches;
    let log = log_of(alloc, league, encoding, stretches, shortage.class)?;
    match if_accepted(alloc, encoding, log)? {
        Some(log) => Ok(log),
        None => searched(alloc, encoding),
    }
}

/// A log that refutes a league, where hard constraints BR1 and BR2 allow its teams too few breaks together, and such are
/// found. It is checked before it is given.
///
/// # Errors
/// Only where memory runs out.
pub fn break_sum(alloc: Global, league: &League) -> Result<Option<Log>, AllocError>
    requires small { encoding_size league.now ≤ most_terms }
    ensures few { IfOk result (λ found. IfSome found (λ log. AddUp league.now)) }
    ensures refuting { IfOk result (λ found. IfSome found (IsRefuting league.now)) }

    // What holds of every league.
    ensures instance { IsInstance league.now }
{
    match find_sum(alloc, league)? {
        Some(sum) => refute_sum(alloc, league, &sum),
        None => Ok(None),
    }
}

/// A log that refutes a league by bounds that are added up, if it is accepted.
///
/// # Errors
/// Only where memory runs out.
fn refute_sum(alloc: Global, league: &League, sum: &Sum) -> Result<Option<Log>, AllocError>
    requires small { encoding_size league.now ≤ most_terms }
    requires season { AreInSeason league.now.n sum.now.stretches.items }
    ensures { IfOk result (λ found. IfSome found (IsRefuting league.now)) }
{
    let encoding = encode_small(alloc, league)?;
    let log = log_of_sum(alloc, league, &encoding, sum)?;
    if_accepted(alloc, &encoding, log)
}

/// A log, if it is accepted over the rows of a league and its text can be written.
///
/// # Errors
/// Only where memory runs out.
fn if_accepted(alloc: Global, encoding: &Encoding, log: Log) -> Result<Option<Log>, AllocError>
    ensures { IfOk result (λ found. IfSome found (IsRefuting encoding.now)) }
{
    let verdict = check(alloc, encoding.rows(), encoding.vars(), &log)?;
    if verdict == Verdict::Accepted && log.names_rows() && has_short_lines(&log) {
        Ok(Some(log))
    } else {
        Ok(None)
    }
}
