//! How fast a run goes.

use std::fmt;

/// Turns a second, in tenths.
#[derive(Clone, Copy)]
pub(crate) struct Rate {
    tenths: u128,
}

impl Rate {
    /// The rate of so many turns in so many milliseconds: none before a second has passed.
    pub(crate) fn of(turns: u64, millis: u128) -> Option<Rate> {
        if millis < 1000 {
            return None;
        }
        let tenths = u128::from(turns) * 10_000 / millis;
        Some(Rate { tenths })
    }
}

/// A rate below ten has a tenth behind its point. What is less is left out.
impl fmt::Display for Rate {
    fn fmt<W: fmt::Write>(&self, f: &mut fmt::Formatter<W>) -> fmt::Result {
        let whole = self.tenths / 10;
        let tenth = self.tenths % 10;
        if whole < 10 {
            return write!(f, "{whole}.{tenth}/s");
        }
        write!(f, "{whole}/s")
    }
}
