//! Descents of which a watch hears.
ghost use Rattle.std.specs.Prelude.{◌≡◌, ◌≤◌, ◌↔◌, length, IfOk, IsTrue};
ghost use Rattle.std.specs.List.{All};
ghost use Rattle.league.specs.Accepted.{IsAccepted};
ghost use Rattle.league.specs.Counts.{counts_of};
ghost use Rattle.league.specs.Instance.{IsGame};
ghost use Rattle.solve.specs.Tried.{IsSeasonBy};

use crate::lower::{Season, lowered_watched};
use deviation::assess;
use league::{League, Schedule};
use robin_watch::{Listener, News, Phase};
use std::alloc::{AllocError, Global};

/// The schedule to which a descent of at most so many moves leads from an accepted one, until the watch ends it. The
/// watch hears of that schedule, and that a walk tried so many moves before.
///
/// # Errors
/// Only where memory runs out.
pub(crate) fn lowered_told<W: Listener>(
    alloc: Global,
    league: &League,
    start: &Schedule,
    moves: u64,
    tried: u64,
    watch: &W,
) -> Result<Season, AllocError>
    requires accepted { IsAccepted league.now (counts_of start.now) }
    requires fit { All (IsGame league.now.n) start.now }
    requires few { length start.now ≤ 10000 }
    ensures season { IfOk result (IsSeasonBy league.now moves (W.may_stop watch.now)) }
    ensures first { IfOk result (λ season. counts_of season.descent.first ≡ counts_of start.now) }
{
    watch.tell(News::Phase(Phase::Descent { moves }));
    let season = lowered_watched(alloc, league, start, moves, watch)?;
    watch.tell_season(league, season.schedule.games(), season.objective, tried);
    Ok(season)
}

/// Tells the watch of a schedule before any move is tried, where the league accepts it, and says whether it does.
///
/// # Errors
/// Only where memory runs out.
pub(crate) fn tell_accepted<W: Listener>(
    alloc: Global,
    league: &League,
    found: &Schedule,
    watch: &W,
) -> Result<bool, AllocError>
    requires fit { All (IsGame league.now.n) found.now }
    requires few { length found.now ≤ 10000 }
    ensures { IfOk result (λ accepted. IsTrue accepted ↔ IsAccepted league.now (counts_of found.now)) }
{
    let assessment = assess(alloc, league, found)?;
    if !assessment.feasible {
        return Ok(false);
    }
    watch.tell_season(league, found.games(), assessment.objective, 0);
    Ok(true)
}
