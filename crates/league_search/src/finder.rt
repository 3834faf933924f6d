//! The search for patterns.
ghost use Rattle.std.specs.Prelude.{◌≡◌, ℕ, ◌+◌, ◌-◌, length, Option, IfOk};
ghost use Rattle.encoding.specs.Encoding.{rows_of};
ghost use Rattle.encoding.specs.Variables.{var_count};
ghost use Rattle.encoding.specs.Variables as variables;
ghost use Rattle.clause_search.specs.Answers.{IsAnswer, IsSomeAnswer};
ghost use Rattle.league_search.specs.PatternAnswers.{IsPatternAnswer, IsPatternAnswerBy};
ghost use Rattle.league_search.specs.Raised.{IsPicked};

use crate::found::PatternFound;
use crate::letters::patterns_by;
use crate::picked::{Picked, pick};
use crate::raised::raised;
use clause_search::{Found, search_watched};
use encoding::{Encoding, x_count};
use robin_watch::{Unwatched, Watch};
use std::alloc::{AllocError, Global};

/// Finds patterns that the pattern rows of a league allow, a pattern for each team, or a log that refutes them. With a
/// limit the search learns at most so many clauses, and then its log is the answer; without one, or with one of 3 to
/// the number of variables that aren't those of games, it goes on to the end.
///
/// A log is one over all rows of the encoding: each hint is the number of a pattern row there, or of an earlier step.
/// So where the pattern rows are refuted, the league accepts no schedule.
///
/// # Errors
/// Only where memory runs out.
pub fn pattern_set(
    alloc: Global,
    encoding: &Encoding,
    limit: Option<u64>,
) -> Result<PatternFound, AllocError>
    ensures { IfOk result (IsPatternAnswer encoding.now limit) }
{
    pattern_set_watched(alloc, encoding, limit, &Unwatched)
}

/// Finds patterns as `pattern_set` does, until the watch ends the search: then the clauses that it has learnt are the
/// limit.
///
/// # Errors
/// Only where memory runs out.
pub fn pattern_set_watched<W: Watch>(
    alloc: Global,
    encoding: &Encoding,
    limit: Option<u64>,
    watch: &W,
) -> Result<PatternFound, AllocError>
    ensures { IfOk result (IsPatternAnswerBy encoding.now limit (W.may_stop watch.now)) }
{
    let games = x_count(encoding.n());
    let vars = encoding.vars() - games;
    let picked = pick(alloc, encoding.rows(), games)?;
    let found = search_watched(alloc, &picked.rows, vars, &[], limit, watch)?;
    answer(alloc, encoding, games, &picked, found)
}

/// What the search found, said of the league.
///
/// # Errors
/// Only where memory runs out.
fn answer(
    alloc: Global,
    encoding: &Encoding,
    games: u32,
    picked: &Picked,
    found: Found,
) -> Result<PatternFound, AllocError>
    requires games { games ≡ variables.x_count encoding.now.n }
    requires picked { IsPicked games (rows_of encoding.now) (length (rows_of encoding.now)) picked.now.rows
        picked.now.numbers.items }
    requires found { IsSomeAnswer picked.now.rows (var_count encoding.now - games) found }
    ensures { (limit : Option ℕ) → IsAnswer picked.now.rows (var_count encoding.now - games) limit found
        → IfOk result (IsPatternAnswer encoding.now limit) }
{
    let _vars = encoding.vars();
    let all = encoding.rows().len();
    match found {
        Found::Sat(values) => {
            let patterns = patterns_by(alloc, encoding, &values, games)?;
            Ok(PatternFound::Patterns(patterns))
        }
        Found::Refuted(log) => {
            let log = raised(alloc, &log, games, &picked.numbers, all)?;
            Ok(PatternFound::Refuted(log))
        }
        Found::Spent(log) => {
            let log = raised(alloc, &log, games, &picked.numbers, all)?;
            Ok(PatternFound::Spent(log))
        }
    }
}
