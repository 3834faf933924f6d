//! The search for a schedule that keeps the played games.
ghost use Rattle.std.specs.Prelude.{◌≡◌, ◌≤◌, length, IfOk};
ghost use Rattle.std.specs.List.{All};
ghost use Rattle.league.specs.Accepted.{IsAccepted};
ghost use Rattle.league.specs.Accepted as costs;
ghost use Rattle.league.specs.Counts as counts;
ghost use Rattle.league.specs.Counts.{counts_of};
ghost use Rattle.league.specs.Instance.{IsGame, IsInstance};
ghost use Rattle.rows.specs.Rows.{SatisfiesAll};
ghost use Rattle.rows.specs.Values.{assigned};
ghost use Rattle.encoding.specs.Encoding.{rows_of};
ghost use Rattle.encoding.specs.Shadow.{decoded};
ghost use Rattle.encoding.specs.Variables.{var_count};
ghost use Rattle.robin_watch.specs.Limits.{IsKeptTo};
ghost use Rattle.clause_search.specs.Answers.{IsAnswerBy};
ghost use Rattle.resume.specs.Kept as kept;
ghost use Rattle.resume.specs.Systems.{rows_for};
ghost use Rattle.resume.specs.Answers.{IsPlan, IsResumedBy};
ghost use Rattle.resume.specs.Found.{MeetsLeague, Tells};
ghost use Rattle.encoding.specs.Limit.{KeepsLimit};

use crate::plan::{old_plan, preferred};
use crate::resumed::Resumed;
use crate::season::season_of;
use crate::size::resume_size;
use crate::system::{ResumeSystem, resume_system};
use clause_search::{Found, search_watched};
use deviation::assess;
use encoding::{EncodeFault, MOST_TERMS};
use league::{League, Schedule};
use robin_watch::Watch;
use rows::Assignment;
use std::alloc::{AllocError, Global};

/// Finds a schedule that the league accepts and that holds, in the first k slots, the same set of games as `played`; or
/// a log that there is none. With a limit the search learns at most so many clauses, and then its log is the answer;
/// without one, or with one of 3 to the number of variables, it goes on to the end. The watch may end the search.
///
/// The games of `played` from slot k on are the old plan: where the league accepts the whole of it, it is the answer;
/// and else the search decides its games first, to be true, so that the new plan is near it.
///
/// # Errors
/// `TooLarge` exactly where the resume rows have more than 40,000,000 terms, with their number, before anything else;
/// else only where memory runs out.
pub fn resume<W: Watch>(
    alloc: Global,
    league: &League,
    played: &Schedule,
    k: u16,
    conflicts: Option<u64>,
    watch: &W,
) -> Result<Resumed, EncodeFault>
    requires few { length played.now ≤ 10000 }
    requires fit { All (IsGame league.now.n) played.now }
    requires slots { k ≤ counts.slot_count league.now.n }
    ensures limit { KeepsLimit (kept.resume_size league.now k) result }
    ensures answer { IfOk result (IsResumedBy league.now played.now k (IsKeptTo conflicts (W.may_stop watch.now))) }

    // Where the league accepts what `played` has, the answer is a schedule of the same games.
    ensures plan { IsAccepted league.now (counts_of played.now) → IfOk result (IsPlan played.now) }
{
    if resume_size(league, k) <= MOST_TERMS {
        if let Some(plan) = old_plan(alloc, league, played)? {
            return Ok(plan);
        }
    }
    searched(alloc, league, played, k, conflicts, watch)
}

/// What a search over the resume rows comes to.
///
/// # Errors
/// As `resume`.
fn searched<W: Watch>(
    alloc: Global,
    league: &League,
    played: &Schedule,
    k: u16,
    conflicts: Option<u64>,
    watch: &W,
) -> Result<Resumed, EncodeFault>
    requires few { length played.now ≤ 10000 }
    requires fit { All (IsGame league.now.n) played.now }
    requires slots { k ≤ counts.slot_count league.now.n }
    ensures limit { KeepsLimit (kept.resume_size league.now k) result }
    ensures answer { IfOk result (IsResumedBy league.now played.now k (IsKeptTo conflicts (W.may_stop watch.now))) }
{
    let system = resume_system(alloc, league, played, k)?;
    let found = found_in(alloc, &system, league, played, conflicts, watch)?;
    let resumed = told(alloc, league, found)?;
    Ok(resumed)
}

/// What a search finds over the rows of a system that decides the games of `played` first.
///
/// # Errors
/// Only where memory runs out.
fn found_in<W: Watch>(
    alloc: Global,
    system: &ResumeSystem,
    league: &League,
    played: &Schedule,
    conflicts: Option<u64>,
    watch: &W,
) -> Result<Found, AllocError>
    requires league { system.now.league ≡ league.now }
    requires fit { All (IsGame league.now.n) played.now }
    ensures answer { IfOk result (IsAnswerBy (rows_for system.now) (var_count system.now.league) conflicts
        (W.may_stop watch.now)) }
    ensures instance { IsInstance league.now }
{
    let prefer = preferred(alloc, league.n(), played.games())?;
    search_watched(
        alloc,
        system.rows(),
        system.vars(),
        &prefer,
        conflicts,
        watch,
    )
}

/// What was found, as an answer.
///
/// # Errors
/// Only where memory runs out.
fn told(alloc: Global, league: &League, found: Found) -> Result<Resumed, AllocError>
    requires { MeetsLeague league.now found }
    ensures { IfOk result (Tells league.now found) }
{
    match found {
        Found::Sat(values) => priced(alloc, league, &values),
        Found::Refuted(log) => Ok(Resumed::Refuted { log }),
        Found::Spent(log) => Ok(Resumed::Spent { log }),
    }
}

/// The schedule that values stand for which satisfy every row of the league, with what it costs.
///
/// # Errors
/// Only where memory runs out.
fn priced(alloc: Global, league: &League, values: &Assignment) -> Result<Resumed, AllocError>
    requires count { length values.now ≡ var_count league.now }
    requires satisfied { SatisfiesAll (assigned values.now) (rows_of league.now) }
    ensures { IfOk result (Tells league.now (Found.Sat values.now)) }
{
    let schedule = season_of(alloc, league.n(), values)?;
    let assessment = assess(alloc, league, &schedule)?;
    Ok(Resumed::Schedule {
        schedule,
        objective: assessment.objective,
    })
}
