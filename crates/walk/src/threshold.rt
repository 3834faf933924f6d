//! How much worse a move may make a schedule.
ghost use Rattle.std.specs.Prelude.{◌≡◌};

use crate::lists::middle_of;
use descent::{Score, Sums};
use league::League;
use rand_core::utils::NextWord;
use rand_pcg::Pcg32;
use std::alloc::{AllocError, Global};

/// Eight times the negated logarithm, to the base 2, of a random number below 1.
fn eighths(random: &mut Pcg32) -> u64 {
    let word = random.next_word();
    let zeros = u64::from(word.leading_zeros());
    let rest = u64::from(word).wrapping_shl(word.leading_zeros()) % 2_147_483_648;
    (8 * zeros + 8).saturating_sub(rest / 268_435_456)
}

/// A drawn threshold: a heat, in 256ths, times the negated logarithm of a random number.
pub(crate) fn drawn_threshold(random: &mut Pcg32, heat: u64) -> u64 {
    heat.saturating_mul(eighths(random)) / 2048
}

/// Twice the middle one of the penalties of a league's soft constraints, and a fourth of that for games of few breaks.
///
/// # Errors
/// Only where memory runs out.
pub(crate) fn soft_heat(
    alloc: Global,
    league: &League,
    few_breaks: bool,
) -> Result<u64, AllocError> {
    let mut penalties = soft_penalties(alloc, league)?;
    let heat = middle_of(&mut penalties).unwrap_or(0).saturating_mul(2);
    Ok(if few_breaks { heat / 4 } else { heat })
}

/// The penalties of a league's soft constraints.
///
/// # Errors
/// Only where memory runs out.
fn soft_penalties(alloc: Global, league: &League) -> Result<Vec<u64>, AllocError> {
    let mut penalties = Vec::new(alloc);
    for constraint in league.constraints() {
        if !constraint.hard {
            penalties.push(u64::from(constraint.penalty))?;
        }
    }
    Ok(penalties)
}

/// A whole number of moves over which the heat of drawn thresholds falls to 0, and how many of them are left.
#[derive(Clone, Copy)]
pub(crate) struct Cooling {
    heat: u64,
    whole: u64,
    pub(crate) left: u64,
}

impl Cooling {
    /// From a heat on, over so many moves.
    pub(crate) fn new(heat: u64, whole: u64) -> Cooling {
        Cooling {
            heat,
            whole,
            left: whole,
        }
    }

    /// Where so many of the moves are left.
    pub(crate) fn at(self, left: u64) -> Cooling
        ensures { result.left ≡ left }
    {
        Cooling {
            heat: self.heat,
            whole: self.whole,
            left,
        }
    }

    /// The most that rules may cost after a move that is made from games of a score, where so many of the moves are
    /// left: the hard rules cost no more, and the soft ones pass a drawn threshold.
    pub(crate) fn most(self, random: &mut Pcg32, left: u64, before: Score) -> Sums {
        let heat = u128::from(self.heat).saturating_mul(u128::from(left));
        let drawn = heat.saturating_mul(u128::from(eighths(random)));
        let more = drawn / u128::from(self.whole.max(1)).saturating_mul(8).max(1);
        Sums {
            infeasibility: before.infeasibility,
            objective: before.objective.saturating_add(more),
        }
    }
}
