//! A season resumed, and made better.
ghost use Rattle.std.specs.Prelude.{◌≤◌, ℕ, length, Option, IfOk, IfSome};
ghost use Rattle.std.specs.List.{All};
ghost use Rattle.league.specs.Accepted.{IsAccepted};
ghost use Rattle.league.specs.Counts as counts;
ghost use Rattle.league.specs.Counts.{counts_of};
ghost use Rattle.league.specs.Instance.{IsGame};
ghost use Rattle.resume.specs.Kept as kept;
ghost use Rattle.robin_watch.specs.Limits.{IsKeptTo};
ghost use Rattle.resume.specs.Answers.{CostsAtLeast, IsPlan, IsResumed, IsResumedBy, IsResumedSeason};
ghost use Rattle.encoding.specs.Limit.{KeepsLimit};

use crate::judged::{MOST_GAMES, Season};
use crate::near::{is_accepted, schedule_resumed};
use crate::nearest::descend_near;
use crate::old_plan::OldPlan;
use crate::{Resumed, resume};
use encoding::EncodeFault;
use league::{League, Schedule};
use robin_watch::Watch;
use std::alloc::{AllocError, Global};

/// Resumes a season as `resume` does. Where that answers with a schedule, and not with the old plan as it is, the
/// answer is a schedule of a lower objective that keeps the played games too, if a descent of at most 10,000 moves that
/// leave them alone leads to one. The watch may end the search, and the descent.
///
/// # Errors
/// As `resume`.
pub fn resume_lowered<W: Watch>(
    alloc: Global,
    league: &League,
    played: &Schedule,
    k: u16,
    conflicts: Option<u64>,
    watch: &W,
) -> Result<Resumed, EncodeFault>
    requires few { length played.now ≤ 10000 }
    requires fit { All (IsGame league.now.n) played.now }
    requires slots { k ≤ counts.slot_count league.now.n }
    ensures limit { KeepsLimit (kept.resume_size league.now k) result }
    ensures answer { IfOk result (IsResumedBy league.now played.now k (IsKeptTo conflicts (W.may_stop watch.now))) }

    // Where the league accepts what `played` has, the answer is a schedule of the same games.
    ensures plan { IsAccepted league.now (counts_of played.now) → IfOk result (IsPlan played.now) }
{
    let resumed = resume(alloc, league, played, k, conflicts, watch)?;
    let answer = bettered(alloc, league, played, k, resumed, watch)?;
    Ok(answer)
}

/// What is answered, or a better schedule in its place, but for the old plan.
///
/// # Errors
/// Only where memory runs out.
fn bettered<W: Watch>(
    alloc: Global,
    league: &League,
    played: &Schedule,
    k: u16,
    resumed: Resumed,
    watch: &W,
) -> Result<Resumed, AllocError>
    requires few { length played.now ≤ 10000 }
    requires fit { All (IsGame league.now.n) played.now }
    requires answer { (conflicts : Option ℕ) × IsResumed league.now played.now k conflicts resumed }
    requires plan { IsAccepted league.now (counts_of played.now) → IsPlan played.now resumed }
    ensures answer { (conflicts : Option ℕ) → IsResumed league.now played.now k conflicts resumed
        → IfOk result (IsResumed league.now played.now k conflicts) }
    ensures plan { IsAccepted league.now (counts_of played.now) → IfOk result (IsPlan played.now) }
{
    if is_accepted(alloc, league, played)? {
        return Ok(resumed);
    }
    match lower_season(alloc, league, played, k, &resumed, watch)? {
        Some(season) => Ok(schedule_resumed(season)),
        None => Ok(resumed),
    }
}

/// The season to which moves lead from an answer's season that keeps the played games, where it has one.
///
/// # Errors
/// Only where memory runs out.
fn lower_season<W: Watch>(
    alloc: Global,
    league: &League,
    played: &Schedule,
    k: u16,
    resumed: &Resumed,
    watch: &W,
) -> Result<Option<Season>, AllocError>
    requires { (conflicts : Option ℕ) × IsResumed league.now played.now k conflicts resumed.now }
    ensures season { IfOk result (λ found. IfSome found (λ lower.
        IsResumedSeason league.now played.now k lower.schedule lower.objective)) }
    ensures no_dearer { IfOk result (λ found. IfSome found (λ lower.
        CostsAtLeast lower.objective resumed.now)) }
{
    let Resumed::Schedule {
        schedule,
        objective: _,
    } = resumed
    else {
        return Ok(None);
    };
    if schedule.len() > MOST_GAMES {
        return Ok(None);
    }
    let plan = OldPlan {
        league,
        games: &[],
        k,
    };
    let end = descend_near(alloc, plan, schedule, watch)?;
    Ok(Some(Season {
        schedule: end.schedule,
        objective: end.objective,
    }))
}
