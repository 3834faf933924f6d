//! Walks on the hard constraints that cool slowly, for leagues that are hard to meet.
ghost use Rattle.std.specs.Prelude.{OnOk};
ghost use Rattle.walk.specs.Standing.{IsFurther, IsWalkerIn};

use crate::standing::{STRETCH, Stage};
use crate::walker::Walker;
use crate::weighed::WeighedParts;
use crate::weights::Weighing;
use league::League;
use robin_watch::Listener;
use std::alloc::{AllocError, Global};

/// A walk cools where it may try at least so many moves in all.
const ENOUGH: u64 = 10_000_000;

/// The searches before the one with this number don't cool.
const FIRST: u64 = 2;

/// The inverse temperature of a walk at its start, in tenths: a unit of a constraint's penalty weighs ten at first.
const INVERSE_AT_START: u64 = 6;

/// The inverse temperature of a walk at its end, in tenths.
const INVERSE_AT_END: u64 = 16;

/// The temperature of a walk's thresholds, in 256ths of 256ths, times its inverse in tenths.
const UNIT: u64 = 4_541_440;

/// A weight grows by at most this part of it at the end of a stretch.
const GROWTH: u64 = 80;

/// So many moves of a walk for each unit of that part, so that weights grow as much in a longer walk.
const SPREAD: u64 = 125_000;

impl Walker {
    /// In a long walk, walks on the hard constraints by weights that grow slowly and at a heat that falls slowly, until
    /// four fifths of the moves that are left are tried, the hard constraints are met, or the watch ends the walk: in a
    /// search with this number. The best games at the end of a stretch are kept.
    ///
    /// # Errors
    /// Only where memory runs out.
    pub(crate) fn cool<W: Listener>(
        &mut self,
        alloc: Global,
        league: &League,
        search: u64,
        watch: &W,
    ) -> Result<(), AllocError>
        requires walker { IsWalkerIn league.now self.old }
        ensures { OnOk result (IsFurther league.now self.old.best.score self.old.left self.new) }
    {
        if self.budget < ENOUGH || search < FIRST {
            return Ok(());
        }
        let moves = (self.left / 5).saturating_mul(4);
        let mut parts = WeighedParts::new(alloc, league, Weighing::Slow(growth(moves)))?;
        self.cool_parts(alloc, league, &mut parts, moves, watch)
    }

    /// Walks so on the parts of the hard constraints, by so many moves.
    ///
    /// # Errors
    /// Only where memory runs out.
    fn cool_parts<W: Listener>(
        &mut self,
        alloc: Global,
        league: &League,
        parts: &mut WeighedParts,
        moves: u64,
        watch: &W,
    ) -> Result<(), AllocError>
        requires walker { IsWalkerIn league.now self.old }
        ensures { OnOk result (IsFurther league.now self.old.best.score self.old.left self.new) }
    {
        let end = self.left.saturating_sub(moves);
        'stretches: for _stretch in 0..moves / STRETCH + 1000 {
            if self.left <= end || self.is_over(watch) {
                return Ok(());
            }
            let left = self.left - end;
            let stage = Stage::cooling(left.min(STRETCH), heat(moves, left));
            let sum = self.stretch(alloc, league, parts, stage, watch)?;
            if sum == 0 {
                return Ok(());
            }
        }
        Ok(())
    }
}

/// The temperature of thresholds where so many of a walk's moves are left.
fn heat(moves: u64, left: u64) -> u64 {
    let done = moves.saturating_sub(left);
    let inverse = INVERSE_AT_START
        .saturating_mul(left)
        .saturating_add(INVERSE_AT_END.saturating_mul(done));
    UNIT.saturating_mul(moves) / inverse.max(1)
}

/// By which part of it a weight grows at the end of a stretch of a walk of so many moves.
fn growth(moves: u64) -> u32 {
    u32::try_from((moves / SPREAD).max(GROWTH)).unwrap_or(u32::MAX)
}
