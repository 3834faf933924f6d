//! Refutations by counting, tried first: no search over clauses finds them in any time.
ghost use Rattle.std.specs.Prelude.{◌≡◌, ◌≤◌, false, None, Ok, IfOk, IfSome};
ghost use Rattle.encoding.specs.Limit.{most_terms};
ghost use Rattle.encoding.specs.Encoding.{encoding_size};
ghost use Rattle.break_counts.specs.BreakCounts.{are_few};
ghost use Rattle.solve.specs.Solutions.{RefutesLeague};
ghost use Rattle.venue_counts.specs.VenueCounts.{are_crowded, are_short};

use break_counts::{break_count, break_sum};
use league::League;
use refutation::Log;
use std::alloc::{AllocError, Global};
use venue_counts::{venue_count, venue_count_low};

/// The log that refutes a league whose venue counts are short, or crowded, or that allows its teams too few breaks.
///
/// # Errors
/// Only where memory runs out.
pub(crate) fn count_out(alloc: Global, league: &League) -> Result<Option<Log>, AllocError>
    requires small { encoding_size league.now ≤ most_terms }
    ensures refuted { IfOk result (λ found. IfSome found (RefutesLeague league.now)) }
    ensures short { result ≡ Ok None → are_short league.now ≡ false }
    ensures crowded { result ≡ Ok None → are_crowded league.now ≡ false }
    ensures few { result ≡ Ok None → are_few league.now ≡ false }
{
    if let Some(log) = count_venues(alloc, league)? {
        return Ok(Some(log));
    }
    let breaks = count_breaks(alloc, league)?;
    Ok(breaks)
}

/// The log that refutes a league whose venue counts are short, or crowded.
///
/// # Errors
/// Only where memory runs out.
fn count_venues(alloc: Global, league: &League) -> Result<Option<Log>, AllocError>
    requires small { encoding_size league.now ≤ most_terms }
    ensures refuted { IfOk result (λ found. IfSome found (RefutesLeague league.now)) }
    ensures short { result ≡ Ok None → are_short league.now ≡ false }
    ensures crowded { result ≡ Ok None → are_crowded league.now ≡ false }
{
    if let Some(log) = venue_count(alloc, league)? {
        return Ok(Some(log));
    }
    let crowded = venue_count_low(alloc, league)?;
    Ok(crowded)
}

/// The log that refutes a league that allows its teams too few breaks, by one bound of some teams or by bounds that are
/// added up.
///
/// # Errors
/// Only where memory runs out.
fn count_breaks(alloc: Global, league: &League) -> Result<Option<Log>, AllocError>
    requires small { encoding_size league.now ≤ most_terms }
    ensures refuted { IfOk result (λ found. IfSome found (RefutesLeague league.now)) }
    ensures few { result ≡ Ok None → are_few league.now ≡ false }
{
    if let Some(log) = break_count(alloc, league)? {
        return Ok(Some(log));
    }
    let sum = break_sum(alloc, league)?;
    Ok(sum)
}
