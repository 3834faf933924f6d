//! The search over a league's rows.
ghost use Rattle.std.specs.Prelude.{◌≡◌, ◌≤◌, ℕ, true, Option, IfOk, IfSome};
ghost use Rattle.std.specs.List.{All};
ghost use Rattle.encoding.specs.Encoding.{rows_of};
ghost use Rattle.encoding.specs.Variables.{has_breaks, var_count};
ghost use Rattle.clause_search.specs.Answers.{IsAnswer, IsSomeAnswer};
ghost use Rattle.league_search.specs.Answers.{IsLeagueAnswer, IsLeagueAnswerBy, IsWritable};
ghost use Rattle.league_search.specs.Sums.{IsLonger};

use crate::behind::behind;
use crate::break_rows::break_sums;
use crate::longer::with_sums;
use break_counts::has_short_lines;
use clause_search::{Found, search_watched};
use encoding::Encoding;
use refutation::Log;
use robin_watch::Watch;
use rows::{Lit, RowStore};
use std::alloc::{AllocError, Global};

/// The rows of a league with rows of breaks behind them, and the sums that give these.
#[derive(Drop)]
pub(crate) struct Longer {
    pub(crate) rows: RowStore,
    pub(crate) sums: Log,
}

/// Searches for values that satisfy every row of a league, or a log that refutes them. With a limit it learns at most so
/// many clauses, and the watch may end it.
///
/// Where hard constraints bound breaks, it goes over rows of breaks too, and the log begins with the sums that give
/// them.
///
/// # Errors
/// Only where memory runs out.
pub fn search_league<W: Watch>(
    alloc: Global,
    encoding: &Encoding,
    prefer: &[Lit],
    limit: Option<u64>,
    watch: &W,
) -> Result<Found, AllocError>
    requires { All (λ l. l.var ≤ var_count encoding.now) prefer.now }
    ensures { IfOk result (IsLeagueAnswerBy encoding.now limit (W.may_stop watch.now)) }
{
    if !encoding.has_breaks() {
        return search_plain(alloc, encoding, prefer, limit, watch);
    }
    match with_break_rows(alloc, encoding)? {
        Some(longer) => search_longer(alloc, encoding, longer, prefer, limit, watch),
        None => search_plain(alloc, encoding, prefer, limit, watch),
    }
}

/// The search over the league's rows alone.
///
/// # Errors
/// Only where memory runs out.
fn search_plain<W: Watch>(
    alloc: Global,
    encoding: &Encoding,
    prefer: &[Lit],
    limit: Option<u64>,
    watch: &W,
) -> Result<Found, AllocError>
    requires { All (λ l. l.var ≤ var_count encoding.now) prefer.now }
    ensures { IfOk result (IsLeagueAnswerBy encoding.now limit (W.may_stop watch.now)) }
{
    let vars = encoding.vars();
    let found = search_watched(alloc, encoding.rows(), vars, prefer, limit, watch)?;
    Ok(found)
}

/// The search over the league's rows and those of breaks.
///
/// # Errors
/// Only where memory runs out.
fn search_longer<W: Watch>(
    alloc: Global,
    encoding: &Encoding,
    longer: Longer,
    prefer: &[Lit],
    limit: Option<u64>,
    watch: &W,
) -> Result<Found, AllocError>
    requires known { All (λ l. l.var ≤ var_count encoding.now) prefer.now }
    requires breaks { has_breaks encoding.now.constraints ≡ true }
    requires longer { IsLonger (rows_of encoding.now) (var_count encoding.now) longer.sums longer.rows }
    requires writable { IsWritable longer.sums }
    ensures { IfOk result (IsLeagueAnswerBy encoding.now limit (W.may_stop watch.now)) }
{
    let vars = encoding.vars();
    let Longer { rows, sums } = longer;
    let found = search_watched(alloc, &rows, vars, prefer, limit, watch)?;
    behind_sums(encoding, &rows, sums, found)
}

/// The rows of a league with those of breaks, if each sum gives a row.
///
/// # Errors
/// Only where memory runs out.
pub(crate) fn with_break_rows(
    alloc: Global,
    encoding: &Encoding,
) -> Result<Option<Longer>, AllocError>
    ensures longer { IfOk result (λ found. IfSome found (λ longer.
        IsLonger (rows_of encoding.now) (var_count encoding.now) longer.sums longer.rows)) }
    ensures writable { IfOk result (λ found. IfSome found (λ longer. IsWritable longer.sums)) }
{
    let vars = encoding.vars();
    let sums = break_sums(alloc, encoding)?;
    if !sums.names_rows() || !has_short_lines(&sums) {
        return Ok(None);
    }
    match with_sums(alloc, encoding.rows(), vars, &sums)? {
        Some(rows) => Ok(Some(Longer { rows, sums })),
        None => Ok(None),
    }
}

/// What the search over longer rows found, said of the league: the sums come before the steps of its log.
///
/// # Errors
/// Only where memory runs out.
fn behind_sums(
    encoding: &Encoding,
    rows: &RowStore,
    sums: Log,
    found: Found,
) -> Result<Found, AllocError>
    requires breaks { has_breaks encoding.now.constraints ≡ true }
    requires longer { IsLonger (rows_of encoding.now) (var_count encoding.now) sums rows.now }
    requires writable { IsWritable sums }
    requires found { IsSomeAnswer rows.now (var_count encoding.now) found }
    ensures { (limit : Option ℕ) → IsAnswer rows.now (var_count encoding.now) limit found
        → IfOk result (IsLeagueAnswer encoding.now limit) }
{
    let _vars = encoding.vars();
    match found {
        Found::Sat(values) => Ok(Found::Sat(values)),
        Found::Refuted(search) => {
            let log = behind(sums, &search)?;
            Ok(Found::Refuted(log))
        }
        Found::Spent(search) => {
            let log = behind(sums, &search)?;
            Ok(Found::Spent(log))
        }
    }
}
