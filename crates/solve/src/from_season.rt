//! The solver from a season that is given: each try walks from there.
ghost use Rattle.std.specs.Prelude.{◌≡◌, ◌≤◌, ℕ, true, Ok, None, IfOk};
ghost use Rattle.std.specs.List.{All};
ghost use Rattle.league.specs.Accepted as costs;
ghost use Rattle.league.specs.Accepted.{IsAccepted};
ghost use Rattle.league.specs.Counts.{counts_of};
ghost use Rattle.league.specs.Instance.{IsGame};
ghost use Rattle.league.specs.Structure.{IsRoundRobin};
ghost use Rattle.break_counts.specs.BreakCounts.{are_few};
ghost use Rattle.circle_method.specs.Circle.{double_games};
ghost use Rattle.encoding.specs.Limit.{KeepsLimit, most_terms};
ghost use Rattle.encoding.specs.Encoding.{encoding_size};
ghost use Rattle.solve.specs.Solutions.{CostsAtMost, HasSchedule, IsRefuted, IsSolution, IsSolutionBy};
ghost use Rattle.venue_counts.specs.VenueCounts.{are_crowded, are_short};

use crate::attempt::try_search;
use crate::by_planes::found_or_refuted;
use crate::circle::try_circle;
use crate::counting::count_out;
use crate::from_walk::walk_from;
use crate::prefer::true_in;
use crate::share::{Share, walk_times};
use crate::solved::Solved;
use crate::tries::{is_refuted, schedule_found, solved_by, with_later};
use encoding::{EncodeFault, Encoding, check_size, encode_small};
use league::{League, Schedule};
use league_search::{PatternFound, pattern_set_watched};
use robin_watch::{Budgets, Listener, News, Phase};
use std::alloc::{AllocError, Global};

/// Finds a schedule that the league accepts, or a proof that there is none, from a double round robin of the league.
///
/// Where the venue counts or the break counts of the league refute it, that is the answer. Each try walks from the
/// start, by moves that its seed draws, as many as a walk of `solve` may try; without moves it stays there. From a
/// schedule that is accepted a descent goes on, at most so many moves a try. Where the first walk finds no such
/// schedule, the schedule of the circle method takes its place if the league accepts that. Else patterns are searched,
/// and then a schedule, by a search over the league's rows that decides first what is true of the start. The schedule
/// of the least objective is the answer, of equal ones the earliest; a refutation is the answer at once. Where all tries
/// are spent, a search by cutting planes follows. The watch may end each walk and search, and the tries behind the first.
///
/// # Errors
/// `TooLarge` exactly where the league's rows have more than 40,000,000 terms, with their number, before anything
/// else; else only where memory runs out.
pub fn solve_from<W: Listener>(
    alloc: Global,
    league: &League,
    start: &Schedule,
    budgets: Budgets,
    watch: &W,
) -> Result<Solved, EncodeFault>
    requires fit { All (IsGame league.now.n) start.now }
    requires round_robin { IsRoundRobin league.now.n league.now.phased (counts_of start.now) }
    ensures limit { KeepsLimit (encoding_size league.now) result }
    ensures solution { IfOk result (IsSolutionBy league.now budgets (W.may_stop watch.now)) }

    // Where nothing may stop the run, it keeps to the budgets that were set.
    ensures unstopped { (W.may_stop watch.now → ⊥) → IfOk result (IsSolution league.now budgets ⊥) }

    // Where the league accepts the start, the answer is a schedule that costs no more.
    ensures no_worse { IsAccepted league.now (counts_of start.now)
        → IfOk result (CostsAtMost (costs.objective league.now (counts_of start.now))) }

    // Where the league accepts the schedule of the circle method, the answer is a schedule.
    ensures circle { IsAccepted league.now (counts_of (double_games league.now.n)) → IfOk result HasSchedule }

    // Where the venue counts of the league are short, or crowded, or it allows its teams too few breaks, it is refuted
    // whatever the budgets.
    ensures short { are_short league.now ≡ true → IfOk result IsRefuted }
    ensures crowded { are_crowded league.now ≡ true → IfOk result IsRefuted }
    ensures few { are_few league.now ≡ true → IfOk result IsRefuted }
{
    let terms = check_size(league)?;
    watch.tell(News::Phase(Phase::Counts));
    if let Some(log) = count_out(alloc, league)? {
        return Ok(Solved::Refuted(log));
    }
    let first = first_try(alloc, league, start, budgets, watch)?;
    let best = best_walk(alloc, league, start, budgets, first, watch)?;
    let solved = found_or_refuted(alloc, league, terms, budgets.conflicts, best, watch)?;
    Ok(solved)
}

/// The first try: a walk, or where that finds no schedule the circle method, or a search.
///
/// # Errors
/// Only where memory runs out.
fn first_try<W: Listener>(
    alloc: Global,
    league: &League,
    start: &Schedule,
    budgets: Budgets,
    watch: &W,
) -> Result<Solved, AllocError>
    requires small { encoding_size league.now ≤ most_terms }
    requires fit { All (IsGame league.now.n) start.now }
    requires round_robin { IsRoundRobin league.now.n league.now.phased (counts_of start.now) }
    ensures solution { IfOk result (IsSolutionBy league.now budgets (W.may_stop watch.now)) }
    ensures no_worse { IsAccepted league.now (counts_of start.now)
        → IfOk result (CostsAtMost (costs.objective league.now (counts_of start.now))) }
    ensures circle { IsAccepted league.now (counts_of (double_games league.now.n)) → IfOk result HasSchedule }
{
    let share = Share { budgets, times: 1 };
    if let Some(season) = walk_from(alloc, league, start, share, watch)? {
        return Ok(schedule_found(season));
    }
    if let Some(season) = try_circle(alloc, league, budgets.moves, watch)? {
        return Ok(schedule_found(season));
    }
    let encoding = encode_small(alloc, league)?;
    search_near(alloc, &encoding, start, budgets, watch)
}

/// The best of what the first try came to, and of further walks from the start.
///
/// # Errors
/// Only where memory runs out.
fn best_walk<W: Listener>(
    alloc: Global,
    league: &League,
    start: &Schedule,
    budgets: Budgets,
    first: Solved,
    watch: &W,
) -> Result<Solved, AllocError>
    requires fit { All (IsGame league.now.n) start.now }
    requires round_robin { IsRoundRobin league.now.n league.now.phased (counts_of start.now) }
    requires first { IsSolutionBy league.now budgets (W.may_stop watch.now) first }
    ensures solution { IfOk result (IsSolutionBy league.now budgets (W.may_stop watch.now)) }
    ensures at_most { (most : ℕ) → CostsAtMost most first → IfOk result (CostsAtMost most) }
    ensures schedule { HasSchedule first → IfOk result HasSchedule }
{
    let mut best = first;
    for k in 1..budgets.tries {
        if is_refuted(&best) || watch.is_over_now(k) {
            return Ok(best);
        }
        watch.tell(News::Try { number: k + 1 });
        let share = Share {
            budgets: Budgets {
                seed: budgets.seed.wrapping_add(k),
                ..budgets
            },
            times: walk_times(budgets.tries, k),
        };
        let walked = walk_from(alloc, league, start, share, watch)?;
        best = with_later(best, walked);
    }
    Ok(best)
}

/// Searches patterns, and then a schedule: what is true of the start is decided first.
///
/// # Errors
/// Only where memory runs out.
fn search_near<W: Listener>(
    alloc: Global,
    encoding: &Encoding,
    start: &Schedule,
    budgets: Budgets,
    watch: &W,
) -> Result<Solved, AllocError>
    requires fit { All (IsGame encoding.now.n) start.now }
    ensures { IfOk result (IsSolutionBy encoding.now budgets (W.may_stop watch.now)) }
{
    let _vars = encoding.vars();
    watch.tell(News::Phase(Phase::Patterns));
    let found = pattern_set_watched(alloc, encoding, Some(budgets.patterns), watch)?;
    match found {
        PatternFound::Patterns(patterns) => {
            let prefer = true_in(alloc, encoding, start)?;
            let tried = try_search(alloc, encoding, &prefer, budgets, watch)?;
            Ok(solved_by(tried, PatternFound::Patterns(patterns)))
        }
        PatternFound::Refuted(log) => Ok(Solved::Refuted(log)),
        PatternFound::Spent(log) => {
            let prefer = true_in(alloc, encoding, start)?;
            let tried = try_search(alloc, encoding, &prefer, budgets, watch)?;
            Ok(solved_by(tried, PatternFound::Spent(log)))
        }
    }
}
