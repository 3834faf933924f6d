//! Walks from the circle method's season, which has few breaks, with the teams in random orders.
ghost use Rattle.std.specs.Prelude.{OnOk};
ghost use Rattle.std.specs.List.{All};
ghost use Rattle.league.specs.Counts.{counts_of};
ghost use Rattle.league.specs.Instance.{IsGame};
ghost use Rattle.league.specs.Structure.{IsRoundRobin};
ghost use Rattle.walk.specs.Standing.{IsElsewhere, IsFurther, IsWalkerIn};

use crate::course::Course;
use crate::scale::usual_change;
use crate::standing::STRETCH;
use crate::walker::{Patience, Walker};
use crate::weighed::WeighedParts;
use crate::weights::Weighing;
use circle_method::double;
use league::{League, Schedule};
use robin_watch::Listener;
use std::alloc::{AllocError, Global};

/// A walk from the circle method's season tries an eighth of the moves that are left, but not more than so many, or than
/// a 64th where that is more.
const MOVES: u64 = 120_000;

/// A walk from the circle method's season came near to meeting the hard constraints where they cost at most so much at
/// the end of a stretch.
const NEAR: u128 = 6;

/// A walk from the circle method's season was far from meeting the hard constraints where they cost more than so much
/// at the end of each stretch.
const FAR: u128 = 8;

impl Walker {
    /// Where the best games meet the hard constraints: walks from the circle method's season, one walk after another
    /// while they come near and moves are to spare, and goes to the best games. Says whether these are of such a walk.
    ///
    /// # Errors
    /// Only where memory runs out.
    pub(crate) fn walk_circles<W: Listener>(
        &mut self,
        alloc: Global,
        league: &League,
        watch: &W,
    ) -> Result<bool, AllocError>
        requires walker { IsWalkerIn league.now self.old }
        ensures { OnOk result (IsFurther league.now self.old.best.score self.old.left self.new) }
    {
        let before = self.best.score();
        if before.infeasibility > 0 || self.is_done() {
            return Ok(false);
        }
        let circle = double(alloc, league.n())?;
        self.walk_while_near(alloc, league, &circle, watch)?;
        self.stand_on_best(alloc, league)?;
        Ok(self.best.score().is_lower(before))
    }

    /// Walks from a season with the teams in random orders, one walk after another: until one brings better games than
    /// before, only while they aren't far from meeting the hard constraints, and an eighth of the moves is spared.
    ///
    /// # Errors
    /// Only where memory runs out.
    fn walk_while_near<W: Listener>(
        &mut self,
        alloc: Global,
        league: &League,
        season: &Schedule,
        watch: &W,
    ) -> Result<(), AllocError>
        requires walker { IsWalkerIn league.now self.old }
        requires fit { All (IsGame league.now.n) season.now }
        requires round_robin { IsRoundRobin league.now.n league.now.phased (counts_of season.now) }
        ensures { OnOk result (IsFurther league.now self.old.best.score self.old.left self.new) }
    {
        let before = self.best.score();
        let usual = self.usual_change(alloc, league)?;
        let eighth = self.left / 8;
        let moves = eighth.min(MOVES).max(self.left / 64);
        let mut spare = eighth;
        'walks: for _walk in 0..self.left / STRETCH + 1 {
            if self.left < spare.saturating_add(moves / 2) || self.is_over(watch) {
                return Ok(());
            }
            let course = Course::scaled(moves.min(self.left), usual);
            let lowest = self.walk_relabelled(alloc, league, season, course, watch)?;
            if self.best.score().is_lower(before) {
                spare = 0;
            } else if lowest > FAR {
                return Ok(());
            }
        }
        Ok(())
    }

    /// Walks from a season with the teams in a random order. If that only comes near to meeting the hard constraints it
    /// looks for games that meet them, and walks on from these. Says how little the hard constraints cost on the way.
    ///
    /// # Errors
    /// Only where memory runs out.
    fn walk_relabelled<W: Listener>(
        &mut self,
        alloc: Global,
        league: &League,
        season: &Schedule,
        course: Course,
        watch: &W,
    ) -> Result<u128, AllocError>
        requires walker { IsWalkerIn league.now self.old }
        requires fit { All (IsGame league.now.n) season.now }
        requires round_robin { IsRoundRobin league.now.n league.now.phased (counts_of season.now) }
        ensures { OnOk result (IsFurther league.now self.old.best.score self.old.left self.new) }
    {
        self.stand_at(alloc, league, season)?;
        self.standing.relabel();
        let lowest = self.walk_together(alloc, league, course, watch)?;
        if lowest == 0 || lowest > NEAR {
            return Ok(lowest);
        }
        let sum = self.meet_hard(alloc, league, Patience::short(), watch)?;
        if sum > 0 {
            return Ok(lowest);
        }
        self.walk_together(alloc, league, course.half(), watch)?;
        Ok(lowest)
    }

    /// Walks on all constraints together in stretches, after each of which the weights are adapted. Games that meet the
    /// hard constraints and are better than the best so far are kept at the end of a stretch, which ends where they are
    /// better by a 64th. Says how little the hard constraints cost at the end of a stretch. A league of too many parts
    /// isn't walked in.
    ///
    /// # Errors
    /// Only where memory runs out.
    fn walk_together<W: Listener>(
        &mut self,
        alloc: Global,
        league: &League,
        course: Course,
        watch: &W,
    ) -> Result<u128, AllocError>
        requires walker { IsWalkerIn league.now self.old }
        ensures { OnOk result (IsFurther league.now self.old.best.score self.old.left self.new) }
    {
        let mut parts = WeighedParts::new(alloc, league, Weighing::Together(course.weight))?;
        self.walk_on_parts(alloc, league, &mut parts, course, watch)
    }

    /// Walks so on the parts of all constraints.
    ///
    /// # Errors
    /// Only where memory runs out.
    fn walk_on_parts<W: Listener>(
        &mut self,
        alloc: Global,
        league: &League,
        parts: &mut WeighedParts,
        course: Course,
        watch: &W,
    ) -> Result<u128, AllocError>
        requires walker { IsWalkerIn league.now self.old }
        ensures { OnOk result (IsFurther league.now self.old.best.score self.old.left self.new) }
    {
        let end = self.left.saturating_sub(course.moves);
        let mut lowest = u128::MAX;
        'stretches: for _stretch in 0..course.moves / STRETCH + 1000 {
            if self.left <= end || !parts.are_all() || self.is_over(watch) {
                return Ok(lowest);
            }
            parts.set_goal(self.goal());
            let stage = course.stage(self.left - end);
            let sum = self.stretch(alloc, league, parts, stage, watch)?;
            lowest = lowest.min(sum);
        }
        Ok(lowest)
    }

    /// What the constraints may cost at the next games that are worth while.
    fn goal(&self) -> u64 {
        let best = self.best.score().objective;
        let goal = best.saturating_sub(best / 64).saturating_sub(1);
        u64::try_from(goal).unwrap_or(u64::MAX)
    }

    /// A usual change of the objective by a move from the games where it stands.
    ///
    /// # Errors
    /// Only where memory runs out.
    fn usual_change(&mut self, alloc: Global, league: &League) -> Result<u64, AllocError>
        requires walker { IsWalkerIn league.now self.old }
        ensures { OnOk result (IsElsewhere league.now self.old.best self.old.left self.new) }
    {
        let mut parts = WeighedParts::on(alloc, league, Weighing::SOFT, &self.standing.board)?;
        let change = usual_change(
            alloc,
            &mut self.standing.random,
            &self.standing.board,
            &mut parts,
        )?;
        Ok(change)
    }

    /// Goes to the best games.
    ///
    /// # Errors
    /// Only where memory runs out.
    fn stand_on_best(&mut self, alloc: Global, league: &League) -> Result<(), AllocError>
        requires walker { IsWalkerIn league.now self.old }
        ensures { OnOk result (IsElsewhere league.now self.old.best self.old.left self.new) }
    {
        let schedule = self.best.schedule(alloc)?;
        self.stand_at(alloc, league, &schedule)
    }
}
