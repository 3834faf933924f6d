//! The schedule of the circle method, tried first.
ghost use Rattle.std.specs.Prelude.{◌≡◌, None, Some, Ok, IfOk, IfSome};
ghost use Rattle.league.specs.Accepted.{IsAccepted};
ghost use Rattle.league.specs.Counts.{counts_of};
ghost use Rattle.circle_method.specs.Circle.{double_games};
ghost use Rattle.solve.specs.Tried.{IsSeasonBy};

use crate::lower::Season;
use crate::told::{lowered_told, tell_accepted};
use circle_method::double;
use league::League;
use robin_watch::Listener;
use std::alloc::{AllocError, Global};

/// What a descent of at most so many moves makes of the schedule of the circle method, where the league accepts that,
/// until the watch ends it. The watch hears of both.
///
/// # Errors
/// Only where memory runs out.
pub(crate) fn try_circle<W: Listener>(
    alloc: Global,
    league: &League,
    moves: u64,
    watch: &W,
) -> Result<Option<Season>, AllocError>
    ensures schedule { IfOk result (λ tried. IfSome tried (IsSeasonBy league.now moves (W.may_stop watch.now))) }
    ensures refused { result ≡ Ok None → IsAccepted league.now (counts_of (double_games league.now.n)) → ⊥ }
{
    let mut schedule = double(alloc, league.n())?;
    schedule.put_in_order();
    let accepted = tell_accepted(alloc, league, &schedule, watch)?;
    if !accepted {
        return Ok(None);
    }
    let season = lowered_told(alloc, league, &schedule, moves, 0, watch)?;
    Ok(Some(season))
}
