//! How walks on all constraints together go.
ghost use Rattle.std.specs.Prelude.{◌≤◌};

use crate::standing::{STRETCH, Stage};

/// The heat of thresholds at the start, in 256ths of a usual change of the objective.
const FIRST: u64 = 10;

/// The heat of thresholds at the end, likewise.
const LAST: u64 = 2;

/// The least weight of a unit of a hard constraint's penalty, likewise.
const WEIGHT: u64 = 100;

/// A walk on all constraints together: at most how many moves it tries, the heat of its thresholds at its start and at
/// its end, in 256ths, and the least weight of a unit of a hard constraint's penalty.
#[derive(Clone, Copy)]
pub(crate) struct Course {
    pub(crate) moves: u64,
    pub(crate) weight: u32,
    first: u64,
    last: u64,
}

impl Course {
    /// A walk of so many moves, scaled by how much a usual move changes the objective.
    pub(crate) fn scaled(moves: u64, usual: u64) -> Course {
        let weight = usual.saturating_mul(WEIGHT) / 256;
        Course {
            moves,
            weight: u32::try_from(weight.max(1)).unwrap_or(u32::MAX),
            first: usual.saturating_mul(FIRST),
            last: usual.saturating_mul(LAST),
        }
    }

    /// Half as many moves.
    pub(crate) fn half(self) -> Course {
        Course {
            moves: self.moves / 2,
            ..self
        }
    }

    /// The next stretch, where so many moves are left.
    pub(crate) fn stage(self, left: u64) -> Stage
        ensures { result.limit ≤ left }
    {
        let fall = self.first.saturating_sub(self.last);
        let rest = fall.saturating_mul(left) / self.moves.max(1);
        Stage::together(left.min(STRETCH), self.last.saturating_add(rest))
    }
}
