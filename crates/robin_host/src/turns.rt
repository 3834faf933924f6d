//! The turns of a phase: clauses learnt, moves tried, or moves made.

use crate::bar::Bar;
use crate::rate::Rate;
use std::fmt;

/// How many turns a phase has made, how many it may make, where there is a limit, and since when they are counted.
#[derive(Clone, Copy)]
pub(crate) struct Turns {
    made: u64,
    limit: Option<u64>,
    /// How many were made when the count began.
    first: u64,
    /// When the count began, in milliseconds.
    since: u128,
}

impl Turns {
    /// Turns whose count begins at this time, with so many made.
    pub(crate) fn begun(made: u64, limit: Option<u64>, at: u128) -> Turns {
        Turns {
            made,
            limit,
            first: made,
            since: at,
        }
    }

    /// So many turns by now. Where none is made, or fewer than before, another count begins.
    pub(crate) fn gone_on(self, made: u64, limit: Option<u64>, at: u128) -> Turns {
        if made == 0 || made < self.made {
            return Turns::begun(made, limit, at);
        }
        Turns {
            made,
            limit,
            ..self
        }
    }

    /// How many turns may be made, where there is a limit.
    pub(crate) fn limit(self) -> Option<u64> {
        self.limit
    }

    /// The rate since the count began, once a second has passed.
    pub(crate) fn rate(self, at: u128) -> Option<Rate> {
        Rate::of(
            self.made.saturating_sub(self.first),
            at.saturating_sub(self.since),
        )
    }

    /// The bar of the limit, where there is one.
    pub(crate) fn bar(self) -> Option<Bar> {
        let limit = self.limit?;
        Bar::of(u128::from(self.made), u128::from(limit))
    }
}

impl fmt::Display for Turns {
    fn fmt<W: fmt::Write>(&self, f: &mut fmt::Formatter<W>) -> fmt::Result {
        let made = self.made;
        match self.limit {
            Some(limit) => write!(f, "{made} of {limit}"),
            None => write!(f, "{made}"),
        }
    }
}
