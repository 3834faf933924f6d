//! A schedule that a walk finds.
ghost use Rattle.std.specs.Prelude.{IfOk, IfSome};
ghost use Rattle.std.specs.List.{All};
ghost use Rattle.league.specs.Accepted as costs;
ghost use Rattle.league.specs.Accepted.{IsAccepted};
ghost use Rattle.league.specs.Counts.{counts_of};
ghost use Rattle.league.specs.Instance.{IsGame};
ghost use Rattle.league.specs.Structure.{IsRoundRobin};
ghost use Rattle.solve.specs.Tried.{FindsAtMost, IsSeasonBy};

use crate::lower::Season;
use crate::share::Share;
use crate::told::lowered_told;
use circle_method::double;
use league::{League, Schedule};
use robin_watch::{Listener, News, Phase};
use std::alloc::{AllocError, Global};
use walk::walk;

/// How many moves a walk may try for each that a descent may make, and for each that the league has.
const TRIED: u64 = 100;

/// For how many moves of a descent a walk may try `TRIED` moves for each that the league has.
const USUAL: u64 = 10_000;

/// What a descent makes of the schedule that a walk finds, where the league accepts that. The walk goes from the
/// schedule of the circle method by the moves that a seed draws. The watch may end both. Without moves there is none.
///
/// # Errors
/// Only where memory runs out.
pub(crate) fn try_walk<W: Listener>(
    alloc: Global,
    league: &League,
    share: Share,
    watch: &W,
) -> Result<Option<Season>, AllocError>
    ensures { IfOk result (λ tried. IfSome tried (IsSeasonBy league.now share.budgets.moves (W.may_stop watch.now))) }
{
    if share.budgets.moves == 0 {
        return Ok(None);
    }
    let start = double(alloc, league.n())?;
    walk_from(alloc, league, &start, share, watch)
}

/// What a descent makes of the schedule that a walk finds, where the league accepts that. The walk goes from a double
/// round robin by the moves that a seed draws. The watch hears of the schedules, and may end both.
///
/// # Errors
/// Only where memory runs out.
pub(crate) fn walk_from<W: Listener>(
    alloc: Global,
    league: &League,
    start: &Schedule,
    share: Share,
    watch: &W,
) -> Result<Option<Season>, AllocError>
    requires fit { All (IsGame league.now.n) start.now }
    requires round_robin { IsRoundRobin league.now.n league.now.phased (counts_of start.now) }
    ensures season { IfOk result (λ tried. IfSome tried (IsSeasonBy league.now share.budgets.moves (W.may_stop watch.now))) }

    // From an accepted start the walk finds a schedule that costs no more.
    ensures no_worse { IsAccepted league.now (counts_of start.now)
        → IfOk result (FindsAtMost (costs.objective league.now (counts_of start.now))) }
{
    let moves = share.budgets.moves;
    let budget = walk_budget(league.n(), moves).saturating_mul(share.times);
    watch.tell(News::Phase(Phase::Walk { moves: budget }));
    let walked = walk(alloc, league, start, share.budgets.seed, budget, watch)?;
    if walked.best.score.infeasibility > 0 {
        return Ok(None);
    }
    let games = &walked.best.games;
    let season = lowered_told(alloc, league, games, moves, walked.tried, watch)?;
    Ok(Some(season))
}

/// How many moves a usual walk may try of n teams, where a descent may make so many: a hundred for each of these, but at
/// most a hundred for each that there is of n teams, as often as 10,000 go into the descent's, and once where they are
/// fewer.
fn walk_budget(n: u16, moves: u64) -> u64 {
    let times = (moves / USUAL).max(1);
    let most = move_count(n).saturating_mul(times);
    moves.min(most).saturating_mul(TRIED)
}

/// How many moves there are of n teams, legal or not: of two teams, of two slots, of two teams in all slots, of a team
/// and two slots, and of two teams and a slot.
fn move_count(n: u16) -> u64 {
    let teams = u64::from(n);
    let slots = 2 * teams.saturating_sub(1);
    let team_pairs = teams.saturating_mul(teams.saturating_sub(1)) / 2;
    let slot_pairs = slots.saturating_mul(slots.saturating_sub(1)) / 2;
    let whole = team_pairs.saturating_mul(2).saturating_add(slot_pairs);
    let of_slots = teams.saturating_mul(slot_pairs);
    let of_teams = slots.saturating_mul(team_pairs);
    whole.saturating_add(of_slots).saturating_add(of_teams)
}
