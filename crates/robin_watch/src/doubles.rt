//! Watches that need no clock.
ghost use Rattle.std.specs.Prelude.{◌≡◌, nat_lt, if◌then◌else◌, true, false, Some};

use crate::{News, Watch};

/// Ends no run, and hears nothing.
#[derive(Clone, Copy)]
pub struct Unwatched;

impl Watch for Unwatched {
    ghost may_stop = { λ s. ⊥ };

    ghost stops_at = { λ s turns. Some false };

    fn is_over(&self, _turns: u64) -> bool {
        false
    }

    fn is_over_now(&self, turns: u64) -> bool {
        self.is_over(turns)
    }

    fn tell(&self, _news: News) {}
}

/// Ends a run at this turn.
#[derive(Clone, Copy)]
pub struct StopsAt {
    pub turns: u64,
}

impl Watch for StopsAt {
    ghost may_stop = { λ s. Unit {0} };

    ghost stops_at = { λ s turns. Some (if nat_lt turns s.turns then false else true) };

    fn is_over(&self, turns: u64) -> bool {
        turns >= self.turns
    }

    fn is_over_now(&self, turns: u64) -> bool {
        self.is_over(turns)
    }

    fn tell(&self, _news: News) {}
}
