//! The limit that a watched run keeps to.
ghost use Rattle.std.specs.Prelude.{◌≡◌, ◌<◌, ◌≤◌, true, false, Some, IfSome};
ghost use Rattle.robin_watch.specs.Limits.{IsKeptTo};

use crate::Watch;

/// The limit of a run that has made so many turns, and does much in each: the one that was set, or this number, where
/// the watch ends the run.
pub fn kept_limit<W: Watch>(limit: Option<u64>, turns: u64, watch: &W) -> Option<u64>
    requires { IfSome limit (λ most. turns ≤ most) }
    ensures kept { IsKeptTo limit (W.may_stop watch.now) result }
    ensures within { IfSome result (λ most. turns ≤ most) }
    ensures room { IfSome result (λ most. turns < most) → IfSome limit (λ most. turns < most) }
    ensures known { W.stops_at watch.now turns ≡ Some true → result ≡ Some turns }
    ensures unknown { W.stops_at watch.now turns ≡ Some false → result ≡ limit }
{
    if watch.is_over_now(turns) {
        return Some(turns);
    }
    limit
}
