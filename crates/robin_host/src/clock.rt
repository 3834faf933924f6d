//! How long a run has gone on by the machine's clock.

use std::time::{Clock, Instant};

/// How many milliseconds have passed since this time; the greatest number if the clock can't be read, or couldn't be
/// read then.
pub(crate) fn passed_since<R: Clock>(rt: &R, start: Option<Instant>) -> u128 {
    let Some(start) = start else {
        return u128::MAX;
    };
    match start.elapsed(rt) {
        Ok(passed) => passed.as_millis(),
        Err(_) => u128::MAX,
    }
}
