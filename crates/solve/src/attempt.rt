//! One try: a search and a walk, and from a schedule that is found, a descent.
ghost use Rattle.std.specs.Prelude.{◌≡◌, ◌≤◌, length, IfOk};
ghost use Rattle.std.specs.List.{All};
ghost use Rattle.rows.specs.Rows.{SatisfiesAll};
ghost use Rattle.rows.specs.Values.{assigned};
ghost use Rattle.encoding.specs.Encoding.{rows_of};
ghost use Rattle.encoding.specs.Variables.{var_count};
ghost use Rattle.league_search.specs.Answers.{IsLeagueAnswerBy};
ghost use Rattle.solve.specs.Tried.{IsSeasonBy, IsTriedBy};

use crate::from_walk::try_walk;
use crate::lower::Season;
use crate::share::Share;
use crate::told::{lowered_told, tell_accepted};
use crate::tries::{Tried, with_walked};
use clause_search::Found;
use decoding::decode;
use encoding::Encoding;
use league_search::search_league;
use robin_watch::{Budgets, Listener, News, Phase};
use rows::{Assignment, Lit};
use std::alloc::{AllocError, Global};

/// One try: a search that decides these literals first, and a walk by the moves that the seed draws. The watch may end
/// each of them, and each descent. Where a limit is set to the search it comes first: unless it refutes the league, the
/// walk follows, and the better schedule of both stays. Where none is set the walk comes first, and the search only if
/// the walk finds no schedule.
///
/// # Errors
/// Only where memory runs out.
pub(crate) fn try_both<W: Listener>(
    alloc: Global,
    encoding: &Encoding,
    prefer: &[Lit],
    share: Share,
    watch: &W,
) -> Result<Tried, AllocError>
    requires known { All (λ l. l.var ≤ var_count encoding.now) prefer.now }
    ensures { IfOk result (IsTriedBy encoding.now share.budgets (W.may_stop watch.now)) }
{
    match share.budgets.conflicts {
        Some(_) => search_then_walk(alloc, encoding, prefer, share, watch),
        None => walk_or_search(alloc, encoding, prefer, share, watch),
    }
}

/// What a search comes to, and unless it refutes the league, a walk: the better one of both.
///
/// # Errors
/// Only where memory runs out.
fn search_then_walk<W: Listener>(
    alloc: Global,
    encoding: &Encoding,
    prefer: &[Lit],
    share: Share,
    watch: &W,
) -> Result<Tried, AllocError>
    requires known { All (λ l. l.var ≤ var_count encoding.now) prefer.now }
    ensures { IfOk result (IsTriedBy encoding.now share.budgets (W.may_stop watch.now)) }
{
    let found = try_search(alloc, encoding, prefer, share.budgets, watch)?;
    if matches!(found, Tried::Refuted(_)) {
        return Ok(found);
    }
    let walked = try_walk(alloc, encoding.league(), share, watch)?;
    Ok(with_walked(found, walked))
}

/// What a walk comes to, and if it finds no schedule, a search.
///
/// # Errors
/// Only where memory runs out.
fn walk_or_search<W: Listener>(
    alloc: Global,
    encoding: &Encoding,
    prefer: &[Lit],
    share: Share,
    watch: &W,
) -> Result<Tried, AllocError>
    requires known { All (λ l. l.var ≤ var_count encoding.now) prefer.now }
    ensures { IfOk result (IsTriedBy encoding.now share.budgets (W.may_stop watch.now)) }
{
    match try_walk(alloc, encoding.league(), share, watch)? {
        Some(season) => Ok(Tried::Found(season)),
        None => try_search(alloc, encoding, prefer, share.budgets, watch),
    }
}

/// What a search finds that decides these literals first, and where that is a schedule, what a descent makes of it.
///
/// # Errors
/// Only where memory runs out.
pub(crate) fn try_search<W: Listener>(
    alloc: Global,
    encoding: &Encoding,
    prefer: &[Lit],
    budgets: Budgets,
    watch: &W,
) -> Result<Tried, AllocError>
    requires known { All (λ l. l.var ≤ var_count encoding.now) prefer.now }
    ensures { IfOk result (IsTriedBy encoding.now budgets (W.may_stop watch.now)) }
{
    watch.tell(News::Phase(Phase::Search));
    let found = search_league(alloc, encoding, prefer, budgets.conflicts, watch)?;
    answer(alloc, encoding, found, budgets, watch)
}

/// What the search found, said of the league.
///
/// # Errors
/// Only where memory runs out.
fn answer<W: Listener>(
    alloc: Global,
    encoding: &Encoding,
    found: Found,
    budgets: Budgets,
    watch: &W,
) -> Result<Tried, AllocError>
    requires found { IsLeagueAnswerBy encoding.now budgets.conflicts (W.may_stop watch.now) found }
    ensures { IfOk result (IsTriedBy encoding.now budgets (W.may_stop watch.now)) }
{
    let _vars = encoding.vars();
    match found {
        Found::Sat(values) => {
            let season = accepted(alloc, encoding, &values, budgets.moves, watch)?;
            Ok(Tried::Found(season))
        }
        Found::Refuted(log) => Ok(Tried::Refuted(log)),
        Found::Spent(log) => Ok(Tried::Spent(log)),
    }
}

/// What a descent makes of the schedule that values stand for which satisfy every row. The watch hears of both.
///
/// # Errors
/// Only where memory runs out.
fn accepted<W: Listener>(
    alloc: Global,
    encoding: &Encoding,
    values: &Assignment,
    moves: u64,
    watch: &W,
) -> Result<Season, AllocError>
    requires count { length values.now ≡ var_count encoding.now }
    requires satisfied { SatisfiesAll (assigned values.now) (rows_of encoding.now) }
    ensures { IfOk result (IsSeasonBy encoding.now moves (W.may_stop watch.now)) }
{
    let league = encoding.league();
    let schedule = decode(alloc, encoding, values)?;
    let _accepted = tell_accepted(alloc, league, &schedule, watch)?;
    lowered_told(alloc, league, &schedule, moves, 0, watch)
}
