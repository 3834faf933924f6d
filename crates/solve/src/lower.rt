//! From a schedule that is accepted down to a better one.
ghost use Rattle.std.specs.Prelude.{◌≡◌, ◌⊎◌, ◌≤◌, length, IfOk};
ghost use Rattle.std.specs.List.{All};
ghost use Rattle.league.specs.Accepted.{IsAccepted};
ghost use Rattle.league.specs.Accepted as costs;
ghost use Rattle.league.specs.Counts.{counts_of};
ghost use Rattle.league.specs.Instance.{IsGame};
ghost use Rattle.rule_core.specs.Table.{table_counts};
ghost use Rattle.descent.specs.League.{AreRulesOf};
ghost use Rattle.descent.specs.Settled.{IsSettled};
ghost use Rattle.solve.specs.Solutions.{IsSchedule, league_score};
ghost use Rattle.solve.specs.Tried.{IsSeasonBy};

use descent::{Descent, Tally, descend_watched, league_tally, season_of};
use deviation::AnyRule;
use league::{League, Schedule};
use robin_watch::{Unwatched, Watch};
use rule_core::{Entries, Plain, Steps};
use std::alloc::{AllocError, Global};

/// A schedule that is accepted, in order, with its objective, and the descent that led to it.
#[derive(Drop)]
pub struct Season {
    pub schedule: Schedule,
    pub objective: u128,
    pub descent: Descent,
}

/// The schedule to which a descent of at most so many moves leads from an accepted one.
///
/// # Errors
/// Only where memory runs out.
pub fn lowered(
    alloc: Global,
    league: &League,
    start: &Schedule,
    moves: u64,
) -> Result<Season, AllocError>
    requires accepted { IsAccepted league.now (counts_of start.now) }
    requires fit { All (IsGame league.now.n) start.now }
    requires few { length start.now ≤ 10000 }
    ensures descends { IfOk result (λ season.
        IsSchedule league.now moves ⊥ season.schedule season.objective season.descent) }
    ensures first { IfOk result (λ season. counts_of season.descent.first ≡ counts_of start.now) }
{
    lowered_watched(alloc, league, start, moves, &Unwatched)
}

/// The schedule to which such a descent leads, until the watch ends it.
///
/// # Errors
/// Only where memory runs out.
pub fn lowered_watched<W: Watch>(
    alloc: Global,
    league: &League,
    start: &Schedule,
    moves: u64,
    watch: &W,
) -> Result<Season, AllocError>
    requires accepted { IsAccepted league.now (counts_of start.now) }
    requires fit { All (IsGame league.now.n) start.now }
    requires few { length start.now ≤ 10000 }
    ensures season { IfOk result (IsSeasonBy league.now moves (W.may_stop watch.now)) }

    // A descent that may make a move and betters nothing leaves no move that does, where nothing may stop it.
    ensures settles { 1 ≤ moves → IfOk result (λ season.
        costs.objective league.now (counts_of start.now) ≤ season.objective
        → W.may_stop watch.now
        ⊎ IsSettled league.now.n league.now.phased (league_score league.now) (counts_of start.now)) }
    ensures first { IfOk result (λ season. counts_of season.descent.first ≡ counts_of start.now) }
{
    let mut steps = Steps::<Plain>::start();
    let mut tally = league_tally(alloc, league, 1, start.games(), &mut steps)?;
    descended(alloc, league, &mut tally, moves, &mut steps, watch)
}

/// The schedule to which such a descent leads from the games of a tally.
///
/// # Errors
/// Only where memory runs out.
fn descended<W: Watch>(
    alloc: Global,
    league: &League,
    tally: &mut Tally<AnyRule>,
    moves: u64,
    steps: &mut Steps<Plain>,
    watch: &W,
) -> Result<Season, AllocError>
    requires rules { AreRulesOf ⟦<AnyRule as Entries>⟧ 1 league.now tally.old.weights }
    requires teams { tally.old.table.n ≡ league.now.n }
    requires accepted { IsAccepted league.now (table_counts tally.old.table) }
    ensures season { IfOk result (IsSeasonBy league.now moves (W.may_stop watch.now)) }
    ensures first { IfOk result (λ season. counts_of season.descent.first ≡ table_counts tally.old.table) }
{
    let phased = league.phased();
    let descent = descend_watched(alloc, phased, tally, moves, steps, watch)?;
    let schedule = season_of(alloc, phased, tally.cells())?;
    Ok(Season {
        schedule,
        objective: tally.objective(),
        descent,
    })
}
