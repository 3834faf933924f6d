//! A search by cutting planes, where the searches by clauses are spent.
ghost use Rattle.std.specs.Prelude.{◌≤◌, ◌↔◌, IfOk, IfSome, IsTrue};
ghost use Rattle.encoding.specs.Limit.{most_terms};
ghost use Rattle.encoding.specs.Encoding.{encoding_size};
ghost use Rattle.solve.specs.Solutions.{IsFoundOrRefuted, IsOpen, RefutesLeague};

use crate::solved::Solved;
use encoding::encode_small;
use league::League;
use league_search::refute_league;
use refutation::Log;
use robin_watch::Listener;
use std::alloc::{AllocError, Global};

/// A search learns at most so many rows: later ones take ever longer.
const MOST_ROWS: u64 = 2_000;

/// A search over more terms isn't tried: each of its conflicts takes long.
const MOST_TERMS: u64 = 1_000_000;

/// What is found of a league whose rows have so many terms. Where that is spent, and a search by cutting planes finds a
/// log that refutes the league, it is this log.
///
/// # Errors
/// Only where memory runs out.
pub(crate) fn found_or_refuted<W: Listener>(
    alloc: Global,
    league: &League,
    terms: u64,
    conflicts: Option<u64>,
    found: Solved,
    watch: &W,
) -> Result<Solved, AllocError>
    requires small { encoding_size league.now ≤ most_terms }
    ensures { IfOk result (IsFoundOrRefuted league.now found) }
{
    if !is_spent(&found) {
        return Ok(found);
    }
    match refuted_by_planes(alloc, league, terms, conflicts, watch)? {
        Some(log) => Ok(Solved::Refuted(log)),
        None => Ok(found),
    }
}

/// Whether an answer is a log that is spent.
fn is_spent(answer: &Solved) -> bool
    ensures { IsTrue result ↔ IsOpen answer.now }
{
    matches!(answer, Solved::Spent { .. })
}

/// A log by cutting planes that refutes a league, if a search finds one. It learns at most a quarter as many rows as a
/// search by clauses may learn clauses, and at most 2,000. A search by clauses without a limit is never spent.
///
/// # Errors
/// Only where memory runs out.
fn refuted_by_planes<W: Listener>(
    alloc: Global,
    league: &League,
    terms: u64,
    conflicts: Option<u64>,
    watch: &W,
) -> Result<Option<Log>, AllocError>
    requires small { encoding_size league.now ≤ most_terms }
    ensures { IfOk result (λ found. IfSome found (RefutesLeague league.now)) }
{
    let rows = (conflicts.unwrap_or(0) / 4).min(MOST_ROWS);
    if rows == 0 || terms > MOST_TERMS {
        return Ok(None);
    }
    let encoding = encode_small(alloc, league)?;
    let found = refute_league(alloc, &encoding, rows, watch)?;
    Ok(found)
}
