//! A walk from a double round robin.
ghost use Rattle.std.specs.Prelude.{◌≡◌, ◌≤◌, ◌↔◌, length, IfOk};
ghost use Rattle.std.specs.List.{All};
ghost use Rattle.league.specs.Accepted.{IsAccepted};
ghost use Rattle.league.specs.Counts.{counts_of};
ghost use Rattle.league.specs.Instance.{IsGame};
ghost use Rattle.league.specs.Structure.{IsRoundRobin};
ghost use Rattle.descent.specs.Score.{IsNoWorse};
ghost use Rattle.walk.specs.Walked.{IsSeasonOf, league_score};

use crate::best::Best;
use crate::walker::Walker;
use league::{League, Schedule};
use robin_watch::Listener;
use std::alloc::{AllocError, Global};

/// What a walk gives: the best double round robin that it kept, and how many legal moves it says it tried.
#[derive(Drop)]
pub struct Walked {
    pub best: Best,
    pub tried: u64,
}

/// Walks from a double round robin of a league by the moves that a seed draws, at most so many of which are tried, and
/// fewer where the watch ends the walk. It gives the best double round robin that it kept, which isn't worse than the
/// start.
///
/// # Errors
/// Only where memory runs out.
pub fn walk<W: Listener>(
    alloc: Global,
    league: &League,
    start: &Schedule,
    seed: u64,
    budget: u64,
    watch: &W,
) -> Result<Walked, AllocError>
    requires fit { All (IsGame league.now.n) start.now }
    requires round_robin { IsRoundRobin league.now.n league.now.phased (counts_of start.now) }

    // The best is a double round robin of the league, in order, and its score is what it costs there.
    ensures season { IfOk result (λ walked. IsSeasonOf league.now walked.best) }

    // The best schedule has a game for each two teams at each of their venues, so at most 1,600.
    ensures few { IfOk result (λ walked. length walked.best.games ≤ 1600) }

    // The best schedule's infeasibility is 0 exactly where the league accepts it.
    ensures feasible { IfOk result (λ walked. (walked.best.score.infeasibility ≡ 0)
        ↔ IsAccepted league.now (counts_of walked.best.games)) }

    // The best schedule isn't worse than the start: from an accepted schedule a walk doesn't come to a rejected one.
    ensures no_worse { IfOk result (λ walked. IsNoWorse walked.best.score
        (league_score league.now (counts_of start.now))) }

    ensures accepted { IsAccepted league.now (counts_of start.now)
        → IfOk result (λ walked. IsAccepted league.now (counts_of walked.best.games)) }

    // The walk ends within the budget.
    ensures tried { IfOk result (λ walked. walked.tried ≤ budget) }
{
    let mut walker = Walker::new(alloc, league, start, seed, budget)?;
    walker.search(alloc, league, watch)?;
    let tried = budget - walker.left();
    let best = walker.best.in_order(alloc)?;
    Ok(Walked { best, tried })
}
