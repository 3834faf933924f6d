//! What one try may do.
ghost use Rattle.std.specs.Prelude.{◌≡◌, ◌^◌, ◌-◌, ◌<◌};

use robin_watch::Budgets;

/// So many tries are as many as the time allows.
const ENDLESS: u64 = u64::MAX;

/// The budgets of one try, and how many times as many moves as a usual walk its walk may try.
#[derive(Clone, Copy)]
pub(crate) struct Share {
    pub(crate) budgets: Budgets,
    pub(crate) times: u64,
}

/// How many times as many moves as a usual walk that of the kth try behind the first may try. Where the tries are as
/// many as the time allows, longer walks come after short ones: it is the greatest power of two that divides k.
pub(crate) fn walk_times(tries: u64, k: u64) -> u64
    // Of tries that are counted each walk is a usual one.
    ensures usual { tries < 2 ^ 64 - 1 → result ≡ 1 }
{
    if tries == ENDLESS {
        return k & k.wrapping_neg();
    }
    1
}
