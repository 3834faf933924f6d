//! The solver.
ghost use Rattle.std.specs.Prelude.{◌≡◌, ℕ, ◌<◌, ◌≤◌, ◌^◌, length, true, Ok, Some, IfOk};
ghost use Rattle.league.specs.Accepted.{IsAccepted};
ghost use Rattle.league.specs.Counts.{counts_of};
ghost use Rattle.league.specs.Instance.{Instance};
ghost use Rattle.break_counts.specs.BreakCounts.{are_few};
ghost use Rattle.circle_method.specs.Circle.{double_games};
ghost use Rattle.encoding.specs.Encoding.{encoding_size};
ghost use Rattle.league_search.specs.PatternLogs.{IsPatternSpent};
ghost use Rattle.league_search.specs.PatternSets.{IsPatternSet};
ghost use Rattle.robin_watch.specs.Limits.{IsKeptTo};
ghost use Rattle.solve.specs.Earliest.{IsBest, IsBestOfTries};
ghost use Rattle.solve.specs.Solutions.{HasSchedule, IsRefuted, IsSolution, IsSolutionBy};
ghost use Rattle.solve.specs.Tried.{IsSeasonBy, IsTriedBy};
ghost use Rattle.solve.specs.declared.tries.Tried.{Tried};
ghost use Rattle.venue_counts.specs.VenueCounts.{are_crowded, are_short};
ghost use Rattle.encoding.specs.Limit.{KeepsLimit, most_terms};

use crate::attempt::try_both;
use crate::by_planes::found_or_refuted;
use crate::circle::try_circle;
use crate::counting::count_out;
use crate::lower::Season;
use crate::prefer::{preferred, shuffled, venues};
use crate::share::{Share, walk_times};
use crate::solved::Solved;
use crate::tries::{Tried, better, is_refuted, schedule_found, solved_by};
use encoding::{EncodeFault, Encoding, check_size, encode_small};
use league::League;
use league_search::{PatternFound, pattern_set_watched};
use patterns::PatternSet;
use refutation::Log;
use robin_watch::{Budgets, Listener, News, Phase};
use std::alloc::{AllocError, Global};

/// Finds a schedule that the league accepts, or a proof that there is none.
///
/// Where the venue counts or the break counts of the league refute it, that is the answer. The first try starts from
/// the schedule of the circle method where the league accepts it. Where it doesn't, a search for patterns comes first,
/// which learns at most as many clauses as the budget of patterns says: a log that refutes the pattern rows is the
/// answer, and patterns that it finds are what the search over all rows decides first. Each later try searches in
/// another random order. Each try that doesn't start from that schedule also walks, first from it and then from random
/// ones, by moves that its seed draws: at most a hundred for each that its descent may make, and a hundred for each
/// move that there is of so many teams, as often as 10,000 go into the moves of the descent; behind its search, where
/// that is limited, and else before it, and then a schedule that the walk finds takes the search's place. Where the
/// tries are as many as the time allows, longer walks come after short ones: that of the kth try behind the first may
/// try as many times the moves as the greatest power of two that divides k. With a limit of conflicts the search of a
/// try learns at most so many clauses, and then its log is the answer, with what is known of the patterns; without one
/// it goes on to the end. The watch may end each search, walk and descent, and the tries behind the first. From a
/// schedule that is accepted a descent goes on by moves to better ones, at most so many moves a try. The schedule of
/// the least objective is the answer, of equal ones the earliest; a refutation is the answer at once. Where all tries are
/// spent, a search by cutting planes follows. What a search finds first is not promised, and an objective is the
/// schedule's own, not the least of all.
///
/// # Errors
/// `TooLarge` exactly where the league's rows have more than 40,000,000 terms, with their number, before anything
/// else; else only where memory runs out.
pub fn solve<W: Listener>(
    alloc: Global,
    league: &League,
    budgets: Budgets,
    watch: &W,
) -> Result<Solved, EncodeFault>
    ensures limit { KeepsLimit (encoding_size league.now) result }
    ensures solution { IfOk result (IsSolutionBy league.now budgets (W.may_stop watch.now)) }

    // Where nothing may stop the run, it keeps to the budgets that were set.
    ensures unstopped { (W.may_stop watch.now → ⊥) → IfOk result (IsSolution league.now budgets ⊥) }

    // The answer is the best of what the tries find.
    ensures best { IfOk result (IsBest league.now budgets (W.may_stop watch.now)) }

    // Where the league accepts the schedule of the circle method, the answer is a schedule.
    ensures circle { IsAccepted league.now (counts_of (double_games league.now.n)) → IfOk result HasSchedule }

    // Where the venue counts of the league are short, or crowded, or it allows its teams too few breaks, it is refuted
    // whatever the budgets.
    ensures short { are_short league.now ≡ true → IfOk result IsRefuted }
    ensures crowded { are_crowded league.now ≡ true → IfOk result IsRefuted }
    ensures few { are_few league.now ≡ true → IfOk result IsRefuted }
{
    let terms = check_size(league)?;
    watch.tell(News::Phase(Phase::Counts));
    if let Some(log) = count_out(alloc, league)? {
        return Ok(Solved::Refuted(log));
    }
    let found = best_try(alloc, league, budgets, watch)?;
    let solved = found_or_refuted(alloc, league, terms, budgets.conflicts, found, watch)?;
    Ok(solved)
}

/// The best answer of all tries. The league's rows are written where a try searches them.
///
/// # Errors
/// Only where memory runs out.
fn best_try<W: Listener>(
    alloc: Global,
    league: &League,
    budgets: Budgets,
    watch: &W,
) -> Result<Solved, AllocError>
    requires small { encoding_size league.now ≤ most_terms }
    ensures solution { IfOk result (IsSolutionBy league.now budgets (W.may_stop watch.now)) }
    ensures circle { IsAccepted league.now (counts_of (double_games league.now.n)) → IfOk result HasSchedule }
    ensures best { IfOk result (IsBest league.now budgets (W.may_stop watch.now)) }
{
    if let Some(season) = try_circle(alloc, league, budgets.moves, watch)? {
        return best_with_circle(alloc, league, budgets, season, watch);
    }
    let encoding = encode_small(alloc, league)?;
    let first = try_patterns(alloc, &encoding, budgets, watch)?;
    best_from(alloc, &encoding, budgets, first, watch)
}

/// The best answer of all tries, of which the first starts from the schedule of the circle method: without later ones
/// no row is written.
///
/// # Errors
/// Only where memory runs out.
fn best_with_circle<W: Listener>(
    alloc: Global,
    league: &League,
    budgets: Budgets,
    season: Season,
    watch: &W,
) -> Result<Solved, AllocError>
    requires small { encoding_size league.now ≤ most_terms }
    requires season { IsSeasonBy league.now budgets.moves (W.may_stop watch.now) season }
    ensures solution { IfOk result (IsSolutionBy league.now budgets (W.may_stop watch.now)) }
    ensures schedule { IfOk result HasSchedule }
    ensures best { IfOk result (IsBest league.now budgets (W.may_stop watch.now)) }
{
    if budgets.tries <= 1 {
        return Ok(schedule_found(season));
    }
    let encoding = encode_small(alloc, league)?;
    best_from(alloc, &encoding, budgets, schedule_found(season), watch)
}

/// The best answer of all tries, of which the first came to this.
///
/// # Errors
/// Only where memory runs out.
fn best_from<W: Listener>(
    alloc: Global,
    encoding: &Encoding,
    budgets: Budgets,
    first: Solved,
    watch: &W,
) -> Result<Solved, AllocError>
    requires first { IsSolutionBy encoding.now budgets (W.may_stop watch.now) first }
    ensures solution { IfOk result (IsSolutionBy encoding.now budgets (W.may_stop watch.now)) }
    ensures schedule { HasSchedule first → IfOk result HasSchedule }
    ensures best { IfOk result (IsBest encoding.now budgets (W.may_stop watch.now)) }
{
    best_of(
        |k: u64| later_try(alloc, encoding, budgets, k, watch),
        budgets,
        first,
        watch,
    )
}

/// The best answer of all tries, of which the first came to this. A call makes the others, each of which is told how
/// many tries it is behind the first.
///
/// # Errors
/// Only where memory runs out.
fn best_of<F: Fn(u64) -> Result<Tried, AllocError>, W: Listener>(
    attempt: F,
    budgets: Budgets,
    first: Solved,
    watch: &W,
) -> Result<Solved, AllocError>
    requires callable { F.IsAlwaysCallable attempt }
    ensures solution { (league : Instance) → IsSolutionBy league budgets (W.may_stop watch.now) first
        → ((k : ℕ) (tried : Tried) → k < 2 ^ 64 → F.post attempt k (Ok tried)
        → IsTriedBy league budgets (W.may_stop watch.now) tried)
        → IfOk result (IsSolutionBy league budgets (W.may_stop watch.now)) }
    ensures schedule { HasSchedule first → IfOk result HasSchedule }
    ensures best { IfOk result
        (IsBestOfTries (λ k tried. F.post attempt k (Ok tried)) budgets (W.may_stop watch.now) first) }
{
    let mut best = first;
    for k in 1..budgets.tries {
        if is_refuted(&best) {
            return Ok(best);
        }
        if watch.is_over_now(k) {
            return Ok(best);
        }
        watch.tell(News::Try { number: k + 1 });
        let later = attempt(k)?;
        best = better(best, later);
    }
    Ok(best)
}

/// The first try where the schedule of the circle method isn't accepted: patterns are searched first.
///
/// # Errors
/// Only where memory runs out.
fn try_patterns<W: Listener>(
    alloc: Global,
    encoding: &Encoding,
    budgets: Budgets,
    watch: &W,
) -> Result<Solved, AllocError>
    ensures { IfOk result (IsSolutionBy encoding.now budgets (W.may_stop watch.now)) }
{
    let _vars = encoding.vars();
    watch.tell(News::Phase(Phase::Patterns));
    let found = pattern_set_watched(alloc, encoding, Some(budgets.patterns), watch)?;
    match found {
        PatternFound::Patterns(patterns) => { try_with(alloc, encoding, patterns, budgets, watch) }
        PatternFound::Refuted(log) => Ok(Solved::Refuted(log)),
        PatternFound::Spent(log) => try_without(alloc, encoding, log, budgets, watch),
    }
}

/// The first try where patterns were found: they guide the search.
///
/// # Errors
/// Only where memory runs out.
fn try_with<W: Listener>(
    alloc: Global,
    encoding: &Encoding,
    patterns: PatternSet,
    budgets: Budgets,
    watch: &W,
) -> Result<Solved, AllocError>
    requires set { IsPatternSet encoding.now patterns }
    ensures { IfOk result (IsSolutionBy encoding.now budgets (W.may_stop watch.now)) }
{
    let prefer = venues(alloc, encoding, &patterns)?;
    let share = Share { budgets, times: 1 };
    let tried = try_both(alloc, encoding, &prefer, share, watch)?;
    Ok(solved_by(tried, PatternFound::Patterns(patterns)))
}

/// The first try where the search for patterns is spent, at this log: they don't guide the search.
///
/// # Errors
/// Only where memory runs out.
fn try_without<W: Listener>(
    alloc: Global,
    encoding: &Encoding,
    log: Log,
    budgets: Budgets,
    watch: &W,
) -> Result<Solved, AllocError>
    requires kept { IsKeptTo (Some budgets.patterns) (W.may_stop watch.now) (Some (length log)) }
    requires spent { IsPatternSpent encoding.now (Some (length log)) log }
    ensures { IfOk result (IsSolutionBy encoding.now budgets (W.may_stop watch.now)) }
{
    let prefer = preferred(alloc, encoding)?;
    let share = Share { budgets, times: 1 };
    let tried = try_both(alloc, encoding, &prefer, share, watch)?;
    Ok(solved_by(tried, PatternFound::Spent(log)))
}

/// A later try, the kth after the first.
///
/// # Errors
/// Only where memory runs out.
fn later_try<W: Listener>(
    alloc: Global,
    encoding: &Encoding,
    budgets: Budgets,
    k: u64,
    watch: &W,
) -> Result<Tried, AllocError>
    ensures { IfOk result (IsTriedBy encoding.now budgets (W.may_stop watch.now)) }
{
    let seed = budgets.seed.wrapping_add(k);
    let prefer = shuffled(alloc, encoding, seed)?;
    let share = Share {
        budgets: Budgets { seed, ..budgets },
        times: walk_times(budgets.tries, k),
    };
    try_both(alloc, encoding, &prefer, share, watch)
}
