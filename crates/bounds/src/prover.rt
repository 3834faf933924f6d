//! Whether a schedule can be bettered. The search is one step of that of minisat+ for a least objective: the rows ask
//! for one less.
ghost use Rattle.std.specs.Prelude.{◌≡◌, ℕ, ◌-◌, ◌^◌, ◌<◌, ◌≤◌, [], length, IfOk, Option};
ghost use Rattle.std.specs.List.{All};
ghost use Rattle.league.specs.Accepted.{IsAccepted};
ghost use Rattle.league.specs.Accepted as costs;
ghost use Rattle.league.specs.Counts.{counts_of};
ghost use Rattle.league.specs.Instance.{IsGame, IsInstance};
ghost use Rattle.rows.specs.Rows.{SatisfiesAll};
ghost use Rattle.rows.specs.Values.{assigned};
ghost use Rattle.bound_rows.specs.BoundRows.{bound_rows, bound_vars};
ghost use Rattle.bound_rows.specs.Bounded.{IsCounted};
ghost use Rattle.bounds.specs.Lower.{IsLower};
ghost use Rattle.robin_watch.specs.Limits.{IsKeptTo};
ghost use Rattle.bounds.specs.Proofs.{IsProvedBy, IsSought, IsSoughtBy};

use crate::proved::Proved;
use bound_rows::{BoundSystem, bound_system};
use clause_search::{Found, search_watched};
use decoding::decode_games;
use league::{League, Schedule};
use refutation::Log;
use robin_watch::{News, Watch};
use rows::Assignment;
use solve::{Season, lowered_watched};
use std::alloc::{AllocError, Global};

/// The most moves of a descent.
const MOVES: u64 = 1_000_000;

/// What is counted of a schedule and its league beforehand.
#[derive(Clone, Copy, Debug)]
pub struct Counted {
    /// The schedule's objective, as `assess` of `deviation` says it.
    pub cost: u128,
    /// How many terms the league's bound rows have, as `bound_terms` of `bound_rows` counts them.
    pub terms: u64,
}

/// Shows that an accepted schedule can't be bettered, betters it, or spends its budget of `conflicts`.
///
/// A descent goes on from the schedule by moves. If the descent betters the schedule, the answer is the schedule at its
/// end. If not, a search goes over the bound rows of one less than the objective; it learns at most `conflicts`
/// clauses. From a schedule that the search finds, a descent goes on, too. The watch may end the search and each
/// descent. If nothing may end them, the budget is spent only if no single move betters the schedule. Which better
/// schedule is found is not promised.
///
/// # Errors
/// Only where memory runs out.
pub fn prove<W: Watch>(
    alloc: Global,
    league: &League,
    schedule: &Schedule,
    counted: Counted,
    conflicts: Option<u64>,
    watch: &W,
) -> Result<Proved, AllocError>
    requires accepted { IsAccepted league.now (counts_of schedule.now) }
    requires fit { All (IsGame league.now.n) schedule.now }
    requires assessed { counted.cost ≡ costs.objective league.now (counts_of schedule.now) }
    requires terms { IsCounted league.now counted.terms }
    ensures { IfOk result (IsProvedBy league.now (counts_of schedule.now)
        (IsKeptTo conflicts (W.may_stop watch.now)) (W.may_stop watch.now)) }
{
    // An accepted schedule pays the greatest penalty at most once for each term, so that 64 bits hold its objective.
    let objective = in_64_bits(counted.cost);
    if objective == 0 {
        return Ok(least_of_all(alloc));
    }
    let lower = lowered_watched(alloc, league, schedule, MOVES, watch)?;
    if lower.objective < u128::from(objective) {
        return Ok(bettered(lower));
    }
    searched(alloc, league, objective, conflicts, counted.terms, watch)
}

/// Searches for a schedule that the league accepts and that costs less than a bound, shows that there is none, or spends
/// its budget of `conflicts`. Nothing costs less than 0, so that a bound of 0 needs no search.
///
/// The search goes over the bound rows of one less than the bound; it learns at most `conflicts` clauses. From a schedule
/// that it finds, a descent goes on. The watch hears of the search, and may end it and the descent. Which schedule is
/// found is not promised.
///
/// # Errors
/// Only where memory runs out.
pub fn prove_bound<W: Watch>(
    alloc: Global,
    league: &League,
    bound: u64,
    conflicts: Option<u64>,
    terms: u64,
    watch: &W,
) -> Result<Proved, AllocError>
    requires { IsCounted league.now terms }
    ensures { IfOk result (IsSoughtBy league.now bound (IsKeptTo conflicts (W.may_stop watch.now))) }
{
    if bound == 0 {
        return Ok(least_of_all(alloc));
    }
    searched(alloc, league, bound, conflicts, terms, watch)
}

/// A number that 64 bits hold.
fn in_64_bits(number: u128) -> u64
    requires { number < 2 ^ 64 }
    ensures { result ≡ number }
{
    number as u64
}

/// The answer if the objective is 0, which is the least there is.
fn least_of_all(alloc: Global) -> Proved
    ensures { result ≡ Proved.Least 0 [] }
{
    Proved::Least {
        objective: 0,
        log: Log::new(alloc),
    }
}

/// The answer if a descent leads to a schedule that costs less.
fn bettered(lower: Season) -> Proved
    requires { lower.objective < 2 ^ 64 }
    ensures { result ≡ Proved.Better lower.schedule lower.objective }
{
    let Season {
        schedule,
        objective,
        descent: _descent,
    } = lower;
    Proved::Better {
        schedule,
        objective: in_64_bits(objective),
    }
}

/// The answer of a search over the bound rows of one less than an objective, of which the watch hears.
fn searched<W: Watch>(
    alloc: Global,
    league: &League,
    objective: u64,
    conflicts: Option<u64>,
    terms: u64,
    watch: &W,
) -> Result<Proved, AllocError>
    requires some { 1 ≤ objective }
    requires counted { IsCounted league.now terms }
    ensures { IfOk result (IsSoughtBy league.now objective (IsKeptTo conflicts (W.may_stop watch.now))) }
{
    watch.tell(News::Bound { objective });
    let system = bound_system(alloc, league, objective - 1, terms)?;
    answer_over(alloc, league, &system, objective, conflicts, watch)
}

/// The answer of a search over these bound rows of one less than an objective.
fn answer_over<W: Watch>(
    alloc: Global,
    league: &League,
    system: &BoundSystem,
    objective: u64,
    conflicts: Option<u64>,
    watch: &W,
) -> Result<Proved, AllocError>
    requires some { 1 ≤ objective }
    requires instance { IsInstance league.now }
    requires system { system.now ≡ record { league = league.now; bound = objective - 1 } }
    ensures { IfOk result (IsSoughtBy league.now objective (IsKeptTo conflicts (W.may_stop watch.now))) }
{
    let found = search_watched(alloc, system.rows(), system.vars(), &[], conflicts, watch)?;
    match found {
        Found::Sat(values) => decoded(alloc, league, &values, objective, watch),
        Found::Refuted(log) => Ok(Proved::Least { objective, log }),
        Found::Spent(log) => Ok(Proved::Spent { log }),
    }
}

/// The answer if values satisfy the bound rows: the schedule at the end of a descent from the one that the values say.
fn decoded<W: Watch>(
    alloc: Global,
    league: &League,
    values: &Assignment,
    objective: u64,
    watch: &W,
) -> Result<Proved, AllocError>
    requires some { 1 ≤ objective }
    requires count { length values.now ≡ bound_vars league.now }
    requires satisfied { SatisfiesAll (assigned values.now) (bound_rows league.now (objective - 1)) }
    ensures { IfOk result (λ proved. (limit : Option ℕ) → IsSought league.now objective limit proved) }
{
    let schedule = schedule_of(alloc, league, values, objective)?;
    let lower = lowered_watched(alloc, league, &schedule, MOVES, watch)?;
    Ok(bettered(lower))
}

/// The schedule that values say, if they satisfy the bound rows. The league accepts it, and it costs less than the
/// objective.
fn schedule_of(
    alloc: Global,
    league: &League,
    values: &Assignment,
    objective: u64,
) -> Result<Schedule, AllocError>
    requires some { 1 ≤ objective }
    requires count { length values.now ≡ bound_vars league.now }
    requires satisfied { SatisfiesAll (assigned values.now) (bound_rows league.now (objective - 1)) }
    ensures { IfOk result (IsLower league.now objective) }
{
    let schedule = decode_games(alloc, league.n(), values)?;
    Ok(schedule)
}
