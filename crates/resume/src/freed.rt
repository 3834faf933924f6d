//! A season in which the games of some slots may change.
ghost use Rattle.std.specs.Prelude.{◌≤◌, length, IfOk, IfSome};
ghost use Rattle.std.specs.List.{All};
ghost use Rattle.league.specs.Counts.{counts_of};
ghost use Rattle.league.specs.Instance.{Instance, IsGame};
ghost use Rattle.league.specs.Structure.{IsRoundRobin};
ghost use Rattle.resume.specs.Answers.{IsResumedSeason};
ghost use Rattle.solve.specs.Solutions.{IsSomeSolution};

use crate::fixed::near_league;
use crate::judged::{Season, judged};
use crate::merge::merged;
use crate::near::PartSeason;
use crate::unheard::Unheard;
use encoding::EncodeFault;
use league::{League, Schedule, SlotSet};
use robin_watch::{Budgets, Watch};
use solve::{Solved, solve_from};
use std::alloc::{AllocError, Global};

/// A season that the league accepts and that keeps the played games, where `solve_from` finds one from the old plan over
/// a league that asks for the games of the old plan in the slots that aren't free and, at a penalty, in the others.
///
/// # Errors
/// Only where memory runs out.
pub(crate) fn freed_season<W: Watch>(
    alloc: Global,
    season: PartSeason<'_>,
    free: &SlotSet,
    budgets: Budgets,
    watch: &W,
) -> Result<Option<Season>, AllocError>
    requires few { length season.played.now ≤ 10000 }
    requires fit { All (IsGame season.league.now.n) season.played.now }
    requires round_robin { IsRoundRobin season.league.now.n season.league.now.phased (counts_of season.played.now) }
    ensures { IfOk result (λ found. IfSome found (λ freed. IsResumedSeason season.entry.league.now
        season.entry.played.now season.entry.k freed.schedule freed.objective)) }
{
    let (league, played) = (season.league, season.played);
    let made = near_league(alloc, league, played, free)?;
    let Some(near) = made else {
        return Ok(None);
    };
    let found = solved_near(alloc, &near, played, budgets, watch)?;
    let Some(end) = found else {
        return Ok(None);
    };
    let schedule = merged(alloc, played, &end, season.k)?;
    judged(alloc, league, played, season.k, schedule)
}

/// The schedule that `solve_from` finds, if any, over a league of which the watch hears no season.
///
/// # Errors
/// Only where memory runs out.
fn solved_near<W: Watch>(
    alloc: Global,
    league: &League,
    start: &Schedule,
    budgets: Budgets,
    watch: &W,
) -> Result<Option<Schedule>, AllocError>
    requires fit { All (IsGame league.now.n) start.now }
    requires round_robin { IsRoundRobin league.now.n league.now.phased (counts_of start.now) }
    ensures { IfOk result (λ found. IfSome found (All (IsGame league.now.n))) }
{
    let unheard = Unheard { watch };
    match solve_from(alloc, league, start, budgets, &unheard) {
        Ok(solved) => Ok(schedule_of(solved)),
        Err(EncodeFault::TooLarge { .. }) => Ok(None),
        Err(EncodeFault::Mem) => Err(AllocError),
    }
}

/// The schedule of an answer, if it has one.
fn schedule_of(solved: Solved) -> Option<Schedule>
    ensures { (league : Instance) → IsSomeSolution league solved → IfSome result (All (IsGame league.n)) }
{
    match solved {
        Solved::Schedule {
            schedule,
            objective: _,
            descent: _,
        } => Some(schedule),
        Solved::Refuted(_) => None,
        Solved::Spent {
            log: _,
            patterns: _,
        } => None,
    }
}
