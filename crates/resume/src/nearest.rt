//! A descent from a season that is accepted.
ghost use Rattle.std.specs.Prelude.{◌≡◌, ◌≤◌, ◌⊎◌, true, false, length, IfOk};
ghost use Rattle.std.specs.List.{All};
ghost use Rattle.league.specs.Accepted.{IsAccepted};
ghost use Rattle.league.specs.Counts.{counts_of};
ghost use Rattle.league.specs.Instance.{IsGame};
ghost use Rattle.league.specs.Structure.{IsRoundRobin};
ghost use Rattle.rule_core.specs.Table.{table_counts};
ghost use Rattle.descent.specs.League.{AreRulesOf};
ghost use Rattle.resume.specs.Nearing.{IsEnd, IsNearest};
ghost use Rattle.resume.specs.Walks.{IsSeasonOn};

use crate::kept_walk::Walk;
use crate::old_plan::OldPlan;
use descent::{Tally, league_tally, season_of};
use deviation::AnyRule;
use league::Schedule;
use robin_watch::Watch;
use rule_core::{Entries, Plain, Steps};
use std::alloc::{AllocError, Global};

/// The season at the end of a descent, in order, with its objective, and whether it is known to be settled.
#[derive(Drop)]
pub struct Nearest {
    pub schedule: Schedule,
    pub objective: u128,
    pub settled: bool,
}

/// The season to which a descent of at most 10,000 moves leads from an accepted one: each move leaves the slots below k
/// alone and leads to an accepted season that changes fewer games of the old plan, or as many at a lower cost. After a
/// move it goes on with the move behind it, and it ends after one whole round of all moves of which none does so. The
/// watch may end it: it is asked before every 16th of all moves is tried.
///
/// # Errors
/// Only where memory runs out.
pub fn descend_near<W: Watch>(
    alloc: Global,
    plan: OldPlan<'_>,
    start: &Schedule,
    watch: &W,
) -> Result<Nearest, AllocError>
    requires plan_few { length plan.games.now ≤ 10000 }
    requires plan_fit { All (IsGame plan.league.now.n) plan.games.now }
    requires few { length start.now ≤ 10000 }
    requires fit { All (IsGame plan.league.now.n) start.now }
    requires accepted { IsAccepted plan.league.now (counts_of start.now) }
    ensures { IfOk result (IsEnd plan.entry.league.now plan.entry.k plan.entry.games.now (W.may_stop watch.now)
        (counts_of start.now)) }
{
    let mut steps = Steps::<Plain>::start();
    let mut tally = league_tally(alloc, plan.league, 1, start.games(), &mut steps)?;
    descend_from(alloc, plan, start, &mut tally, &mut steps, watch)
}

/// Descends as `descend_near` does, from an accepted season whose games a tally has.
///
/// # Errors
/// Only where memory runs out.
fn descend_from<W: Watch>(
    alloc: Global,
    plan: OldPlan<'_>,
    start: &Schedule,
    tally: &mut Tally<AnyRule>,
    steps: &mut Steps<Plain>,
    watch: &W,
) -> Result<Nearest, AllocError>
    requires plan_few { length plan.games.now ≤ 10000 }
    requires plan_fit { All (IsGame plan.league.now.n) plan.games.now }
    requires fit { All (IsGame plan.league.now.n) start.now }
    requires accepted { IsAccepted plan.league.now (counts_of start.now) }
    requires rules { AreRulesOf ⟦<AnyRule as Entries>⟧ 1 plan.league.now tally.old.weights }
    requires teams { tally.old.table.n ≡ plan.league.now.n }
    requires counts { table_counts tally.old.table ≡ counts_of start.now }
    ensures { IfOk result (IsEnd plan.entry.league.now plan.entry.k plan.entry.games.now (W.may_stop watch.now)
        (counts_of start.now)) }
{
    let mut walk = Walk::new(alloc, plan, start)?;
    let settled = walk.go_down(tally, steps, watch);
    nearest_of(alloc, plan.league.phased(), tally, settled)
}

/// The season of a tally's games, in order, with its objective, which is said to be settled or not.
///
/// # Errors
/// Only where memory runs out.
fn nearest_of(
    alloc: Global,
    phased: bool,
    tally: &Tally<AnyRule>,
    settled: bool,
) -> Result<Nearest, AllocError>
    requires round_robin { IsRoundRobin tally.now.table.n phased (table_counts tally.now.table) }
    ensures { IfOk result (IsSeasonOn ⟦<AnyRule as Entries>⟧ tally.now settled) }
{
    Ok(Nearest {
        schedule: season_of(alloc, phased, tally.cells())?,
        objective: tally.objective(),
        settled,
    })
}

/// Whether an accepted season is known to be settled: whether no single move that leaves the slots below k alone leads
/// to an accepted season that changes fewer games of the old plan, or as many at a lower cost. The watch may end the
/// look at all moves, and then this isn't known.
///
/// # Errors
/// Only where memory runs out.
pub fn is_settled<W: Watch>(
    alloc: Global,
    plan: OldPlan<'_>,
    season: &Schedule,
    watch: &W,
) -> Result<bool, AllocError>
    requires plan_few { length plan.games.now ≤ 10000 }
    requires plan_fit { All (IsGame plan.league.now.n) plan.games.now }
    requires few { length season.now ≤ 10000 }
    requires fit { All (IsGame plan.league.now.n) season.now }
    requires accepted { IsAccepted plan.league.now (counts_of season.now) }
    ensures settled { IfOk result (λ settled. settled ≡ true
        → IsNearest plan.entry.league.now plan.entry.k plan.entry.games.now (counts_of season.now)) }
    ensures open_yet { IfOk result (λ settled. settled ≡ false → W.may_stop watch.now
        ⊎ (IsNearest plan.entry.league.now plan.entry.k plan.entry.games.now (counts_of season.now) → ⊥)) }
{
    let mut steps = Steps::<Plain>::start();
    let mut tally = league_tally(alloc, plan.league, 1, season.games(), &mut steps)?;
    is_settled_at(alloc, plan, season, &mut tally, &mut steps, watch)
}

/// Whether an accepted season whose games a tally has is known to be settled, as `is_settled` says it.
///
/// # Errors
/// Only where memory runs out.
fn is_settled_at<W: Watch>(
    alloc: Global,
    plan: OldPlan<'_>,
    season: &Schedule,
    tally: &mut Tally<AnyRule>,
    steps: &mut Steps<Plain>,
    watch: &W,
) -> Result<bool, AllocError>
    requires plan_few { length plan.games.now ≤ 10000 }
    requires plan_fit { All (IsGame plan.league.now.n) plan.games.now }
    requires fit { All (IsGame plan.league.now.n) season.now }
    requires accepted { IsAccepted plan.league.now (counts_of season.now) }
    requires rules { AreRulesOf ⟦<AnyRule as Entries>⟧ 1 plan.league.now tally.old.weights }
    requires teams { tally.old.table.n ≡ plan.league.now.n }
    requires counts { table_counts tally.old.table ≡ counts_of season.now }
    ensures settled { IfOk result (λ settled. settled ≡ true
        → IsNearest plan.entry.league.now plan.entry.k plan.entry.games.now (counts_of season.now)) }
    ensures open_yet { IfOk result (λ settled. settled ≡ false → W.may_stop watch.now
        ⊎ (IsNearest plan.entry.league.now plan.entry.k plan.entry.games.now (counts_of season.now) → ⊥)) }
{
    let mut walk = Walk::new(alloc, plan, season)?;
    Ok(walk.is_settled(tally, steps, watch))
}
