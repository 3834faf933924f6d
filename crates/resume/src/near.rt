//! A season resumed that changes little of the old plan.
ghost use Rattle.std.specs.Prelude.{◌≡◌, ◌==◌, ◌≤◌, ◌↔◌, ◌⊎◌, ◌||◌, ◌&&◌, ℕ, true, false, nat_lt, length, Option, IfOk, IfSome, IsTrue};
ghost use Rattle.std.specs.List.{All};
ghost use Rattle.encoding.specs.Limit.{KeepsLimit};
ghost use Rattle.league.specs.Accepted.{IsAccepted};
ghost use Rattle.league.specs.Counts as counts;
ghost use Rattle.league.specs.Counts.{counts_of};
ghost use Rattle.league.specs.Instance.{Instance, IsGame};
ghost use Rattle.league.specs.Structure.{IsRoundRobin};
ghost use Rattle.resume.specs.Kept as kept;
ghost use Rattle.resume.specs.Answers.{IsPlan, IsResumed, IsResumedBy, IsResumedSeason};
ghost use Rattle.resume.specs.Near.{IsAsNear, IsAtMost, IsNoFarther, IsOpenNear, IsSettledNear, changed};
ghost use Rattle.robin_watch.specs.Limits.{IsKeptTo};

use crate::changed::changed_games;
use crate::freed::freed_season;
use crate::judged::Season;
use crate::nearest::{Nearest, descend_near, is_settled};
use crate::old_plan::OldPlan;
use crate::repair::repaired_season;
use crate::{Resumed, resume_lowered};
use deviation::assess;
use encoding::EncodeFault;
use league::{League, Schedule, SlotId, SlotSet, structure};
use robin_watch::{Budgets, Watch};
use std::alloc::{AllocError, Global};

/// A season of which the first k slots are played. What `played` has from slot k on is the old plan.
#[derive(Clone, Copy)]
pub struct PartSeason<'a> {
    pub league: &'a League,
    pub played: &'a Schedule,
    pub k: u16,
}

impl<'a> PartSeason<'a> {
    /// The old plan.
    fn plan(self) -> OldPlan<'a>
        ensures league { result.league.now ≡ self.entry.league.now }
        ensures games { result.games.now ≡ self.entry.played.now }
        ensures k { result.k ≡ self.entry.k }
    {
        OldPlan {
            league: self.league,
            games: self.played.games(),
            k: self.k,
        }
    }
}

/// An answer, and whether it is known to be a season that no single move betters.
#[derive(Drop)]
pub struct Neared {
    pub answer: Resumed,
    pub settled: bool,
}

/// Resumes a season as `resume_lowered` does, and near the old plan, as `nearer_answer` does. The watch may end all of
/// it.
///
/// # Errors
/// As `resume`.
pub fn resume_near<W: Watch>(
    alloc: Global,
    league: &League,
    played: &Schedule,
    k: u16,
    budgets: Budgets,
    watch: &W,
) -> Result<Neared, EncodeFault>
    requires few { length played.now ≤ 10000 }
    requires fit { All (IsGame league.now.n) played.now }
    requires slots { k ≤ counts.slot_count league.now.n }
    ensures limit { KeepsLimit (kept.resume_size league.now k) result }
    ensures answer { IfOk result (λ near. IsResumedBy league.now played.now k
        (IsKeptTo budgets.conflicts (W.may_stop watch.now)) near.answer) }

    // Where it says so, no single move that leaves the played slots alone leads to an accepted season that changes
    // fewer games, or as many at a lower cost.
    ensures settled { IfOk result (IsSettledNear league.now k played.now) }

    // Where it doesn't, one does, or the answer has no season, or the watch may stop the run.
    ensures open_yet { IfOk result (IsOpenNear league.now k played.now (W.may_stop watch.now)) }

    // Where the league accepts what `played` has, the answer is a schedule of the same games.
    ensures plan { IsAccepted league.now (counts_of played.now)
        → IfOk result (λ near. IsPlan played.now near.answer) }
{
    let first = resume_lowered(alloc, league, played, k, budgets.conflicts, watch)?;
    let season = PartSeason { league, played, k };
    let near = nearer_answer(alloc, season, first, budgets, watch)?;
    Ok(near)
}

/// A first answer, or one that is nearer the old plan. Where the league accepts the old plan, or the first answer
/// refutes, it stays. Else, where the old plan is a double round robin, a repair searches with few slots free, and then
/// more of them; then `solve_from` goes from the old plan over a league that asks for the played games and, at a penalty,
/// for the others. Of these seasons and the first answer the one that changes fewest games, and of equal ones the one
/// that costs least, is where a descent begins that leaves the played slots alone. The watch may end all of it, and the
/// look that says whether an answer that stays is settled.
///
/// # Errors
/// Only where memory runs out.
pub fn nearer_answer<W: Watch>(
    alloc: Global,
    season: PartSeason<'_>,
    first: Resumed,
    budgets: Budgets,
    watch: &W,
) -> Result<Neared, AllocError>
    requires few { length season.played.now ≤ 10000 }
    requires fit { All (IsGame season.league.now.n) season.played.now }
    requires first { (conflicts : Option ℕ) × IsResumed season.league.now season.played.now season.k conflicts first }
    ensures answer { (conflicts : Option ℕ)
        → IsResumed season.entry.league.now season.entry.played.now season.entry.k conflicts first
        → IfOk result (λ near.
        IsResumed season.entry.league.now season.entry.played.now season.entry.k conflicts near.answer) }

    // It changes no more games than the first answer, and where it changes as many, it costs no more.
    ensures no_farther { IfOk result (λ near. IsNoFarther season.entry.k season.entry.played.now first near.answer) }
    ensures settled { IfOk result (IsSettledNear season.entry.league.now season.entry.k season.entry.played.now) }
    ensures open_yet { IfOk result (IsOpenNear season.entry.league.now season.entry.k season.entry.played.now
        (W.may_stop watch.now)) }

    // Where the league accepts the old plan, the first answer stays.
    ensures plan { IsAccepted season.entry.league.now (counts_of season.entry.played.now)
        → IfOk result (λ near. near.answer ≡ first) }
{
    let (league, played) = (season.league, season.played);
    if is_accepted(alloc, league, played)? {
        return asked(alloc, season, first, watch);
    }
    let answer = nearest_found(alloc, season, first, budgets, watch)?;
    descended(alloc, season, answer, watch)
}

/// An answer of which nothing is said.
fn unsettled(answer: Resumed) -> Neared
    ensures { result ≡ record { answer = answer; settled = false } }
{
    Neared {
        answer,
        settled: false,
    }
}

/// An answer as it is, and whether it is known to be a season that no single move betters. The watch may end the look
/// at all moves.
///
/// # Errors
/// Only where memory runs out.
fn asked<W: Watch>(
    alloc: Global,
    season: PartSeason<'_>,
    answer: Resumed,
    watch: &W,
) -> Result<Neared, AllocError>
    requires few { length season.played.now ≤ 10000 }
    requires fit { All (IsGame season.league.now.n) season.played.now }
    requires answer { (conflicts : Option ℕ)
        × IsResumed season.league.now season.played.now season.k conflicts answer }
    ensures same { IfOk result (λ near. near.answer ≡ answer) }
    ensures settled { IfOk result (IsSettledNear season.entry.league.now season.entry.k season.entry.played.now) }
    ensures open_yet { IfOk result (IsOpenNear season.entry.league.now season.entry.k season.entry.played.now
        (W.may_stop watch.now)) }
{
    // For its contract: a season has few games.
    let _n = season.league.n();
    match answer {
        Resumed::Schedule {
            schedule,
            objective,
        } => {
            if watch.is_over_now(0) {
                return Ok(unsettled(Resumed::Schedule {
                    schedule,
                    objective,
                }));
            }
            let settled = is_settled(alloc, season.plan(), &schedule, watch)?;
            Ok(Neared {
                answer: Resumed::Schedule {
                    schedule,
                    objective,
                },
                settled,
            })
        }
        Resumed::Refuted { log } => Ok(unsettled(Resumed::Refuted { log })),
        Resumed::Spent { log } => Ok(unsettled(Resumed::Spent { log })),
    }
}

/// An answer, or the season to which a descent leads from it that leaves the played slots alone. The watch may end the
/// descent.
///
/// # Errors
/// Only where memory runs out.
fn descended<W: Watch>(
    alloc: Global,
    season: PartSeason<'_>,
    answer: Resumed,
    watch: &W,
) -> Result<Neared, AllocError>
    requires few { length season.played.now ≤ 10000 }
    requires fit { All (IsGame season.league.now.n) season.played.now }
    requires answer { (conflicts : Option ℕ)
        × IsResumed season.league.now season.played.now season.k conflicts answer }
    ensures answer { (conflicts : Option ℕ)
        → IsResumed season.entry.league.now season.entry.played.now season.entry.k conflicts answer
        → IfOk result (λ near.
        IsResumed season.entry.league.now season.entry.played.now season.entry.k conflicts near.answer) }
    ensures no_farther { IfOk result (λ near. IsNoFarther season.entry.k season.entry.played.now answer near.answer) }
    ensures settled { IfOk result (IsSettledNear season.entry.league.now season.entry.k season.entry.played.now) }
    ensures open_yet { IfOk result (IsOpenNear season.entry.league.now season.entry.k season.entry.played.now
        (W.may_stop watch.now)) }
{
    // For its contract: a season has few games.
    let _n = season.league.n();
    match answer {
        Resumed::Schedule {
            schedule,
            objective,
        } => {
            if watch.is_over_now(2) {
                return Ok(unsettled(Resumed::Schedule {
                    schedule,
                    objective,
                }));
            }
            let end = descend_near(alloc, season.plan(), &schedule, watch)?;
            Ok(end_reached(end))
        }
        Resumed::Refuted { log } => Ok(unsettled(Resumed::Refuted { log })),
        Resumed::Spent { log } => Ok(unsettled(Resumed::Spent { log })),
    }
}

/// The end of a descent as an answer.
fn end_reached(end: Nearest) -> Neared
    ensures { result ≡ record { answer = Resumed.Schedule end.schedule end.objective; settled = end.settled } }
{
    let Nearest {
        schedule,
        objective,
        settled,
    } = end;
    Neared {
        answer: Resumed::Schedule {
            schedule,
            objective,
        },
        settled,
    }
}

/// Whether the league accepts a schedule.
///
/// # Errors
/// Only where memory runs out.
pub(crate) fn is_accepted(
    alloc: Global,
    league: &League,
    schedule: &Schedule,
) -> Result<bool, AllocError>
    requires few { length schedule.now ≤ 10000 }
    requires fit { All (IsGame league.now.n) schedule.now }
    ensures { IfOk result (λ is. IsTrue is ↔ IsAccepted league.now (counts_of schedule.now)) }
{
    let assessment = assess(alloc, league, schedule)?;
    Ok(assessment.feasible)
}

/// The nearest one of a first answer and of the seasons that are found from the old plan, where that is a double round
/// robin: by a repair, and by a walk. Of those that change as many games it is the one that costs least. The watch is
/// asked before each.
///
/// # Errors
/// Only where memory runs out.
fn nearest_found<W: Watch>(
    alloc: Global,
    season: PartSeason<'_>,
    first: Resumed,
    budgets: Budgets,
    watch: &W,
) -> Result<Resumed, AllocError>
    requires few { length season.played.now ≤ 10000 }
    requires fit { All (IsGame season.league.now.n) season.played.now }
    ensures answer { (conflicts : Option ℕ)
        → IsResumed season.entry.league.now season.entry.played.now season.entry.k conflicts first
        → IfOk result (IsResumed season.entry.league.now season.entry.played.now season.entry.k conflicts) }
    ensures no_farther { IfOk result (IsNoFarther season.entry.k season.entry.played.now first) }
{
    let (played, k) = (season.played, season.k);
    if matches!(first, Resumed::Refuted { .. })
        || watch.is_over_now(0)
        || !is_round_robin(season.league, played)
    {
        return Ok(first);
    }
    let repaired = repaired_season(alloc, season, budgets, watch)?;
    let answer = nearer(played, k, first, repaired);
    if watch.is_over_now(1) {
        return Ok(answer);
    }
    let near = near_season(alloc, season, budgets, watch)?;
    Ok(nearer(played, k, answer, near))
}

/// Whether a schedule is a double round robin of the league.
fn is_round_robin(league: &League, schedule: &Schedule) -> bool
    requires few { length schedule.now ≤ 10000 }
    requires fit { All (IsGame league.now.n) schedule.now }
    ensures { IsTrue result ↔ IsRoundRobin league.now.n league.now.phased (counts_of schedule.now) }
{
    let wrongs = structure(league, schedule);
    wrongs.pairs_wrong == 0 && wrongs.cells_wrong == 0 && wrongs.phases_wrong == 0
}

/// A season that the league accepts and that keeps the played games, where `solve_from` finds one from the old plan with
/// all slots from slot k on free.
///
/// # Errors
/// Only where memory runs out.
fn near_season<W: Watch>(
    alloc: Global,
    season: PartSeason<'_>,
    budgets: Budgets,
    watch: &W,
) -> Result<Option<Season>, AllocError>
    requires few { length season.played.now ≤ 10000 }
    requires fit { All (IsGame season.league.now.n) season.played.now }
    requires round_robin { IsRoundRobin season.league.now.n season.league.now.phased (counts_of season.played.now) }
    ensures { IfOk result (λ found. IfSome found (λ near. IsResumedSeason season.entry.league.now
        season.entry.played.now season.entry.k near.schedule near.objective)) }
{
    let mut free = SlotSet::new(alloc);
    for slot in season.k..season.league.slots() {
        let _new = free.insert(SlotId(slot))?;
    }
    freed_season(alloc, season, &free, budgets, watch)
}

/// The nearer one of an answer and a season near the old plan.
fn nearer(played: &Schedule, k: u16, resumed: Resumed, near: Option<Season>) -> Resumed
    ensures answer { (league : Instance) (conflicts : Option ℕ) → IsResumed league played.now k conflicts resumed
        → IfSome near (λ season. IsResumedSeason league played.now k season.schedule season.objective)
        → IsResumed league played.now k conflicts result }
    ensures no_farther { IsNoFarther k played.now resumed result }

    // A season takes the place of a spent log.
    ensures as_near { IfSome near (λ season. IsAsNear k played.now season.schedule season.objective result) }
{
    let Some(season) = near else {
        return resumed;
    };
    match resumed {
        Resumed::Schedule {
            schedule,
            objective,
        } => {
            let first = Season {
                schedule,
                objective,
            };
            schedule_resumed(nearer_season(played, k, first, season))
        }
        Resumed::Refuted { log } => Resumed::Refuted { log },
        Resumed::Spent { log: _ } => schedule_resumed(season),
    }
}

/// A season as an answer.
pub(crate) fn schedule_resumed(season: Season) -> Resumed
    ensures { result ≡ Resumed.Schedule season.schedule season.objective }
{
    let Season {
        schedule,
        objective,
    } = season;
    Resumed::Schedule {
        schedule,
        objective,
    }
}

/// The one of two seasons that changes fewer games of the old plan; of equal ones the one that costs less, and else the
/// first.
fn nearer_season(played: &Schedule, k: u16, first: Season, second: Season) -> Season
    ensures one { (result ≡ first) ⊎ (result ≡ second) }
    ensures first { IsAtMost (changed k played.now result.schedule) result.objective
        (changed k played.now first.schedule) first.objective }
    ensures second { IsAtMost (changed k played.now result.schedule) result.objective
        (changed k played.now second.schedule) second.objective }
{
    if is_nearer(played, k, &first, &second) {
        second
    } else {
        first
    }
}

/// Whether a second season changes fewer games of the old plan than a first, or as many and costs less.
fn is_nearer(played: &Schedule, k: u16, first: &Season, second: &Season) -> bool
    ensures second { result ≡ true → IsAtMost (changed k played.now second.now.schedule) second.now.objective
        (changed k played.now first.now.schedule) first.now.objective }
    ensures first { result ≡ false → IsAtMost (changed k played.now first.now.schedule) first.now.objective
        (changed k played.now second.now.schedule) second.now.objective }
{
    let before = changed_games(played.games(), k, first.schedule.games());
    let after = changed_games(played.games(), k, second.schedule.games());
    is_less(after, before, second.objective, first.objective)
}

/// Whether so many changed games are fewer than before, or as many at a lower cost.
fn is_less(after: usize, before: usize, cost: u128, first: u128) -> bool
    ensures { result ≡ (nat_lt after before || ((after == before) && nat_lt cost first)) }
{
    after < before || (after == before && cost < first)
}
