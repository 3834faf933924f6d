//! What a run is after, as far as a watch has heard.

use std::fmt;

/// What is to be found or shown.
#[derive(Clone, Copy)]
pub(crate) enum Aim {
    /// A season, and no try of `solve` was heard of.
    Season,
    /// A season, or a better one, by the try with this number, from 1.
    Try { number: u64 },
    /// A proof that no season costs less than this.
    Bound { objective: u64 },
    /// An answer whether a member of a conflict is needed; so many members are still to be tried.
    Member { left: u64 },
}

impl Aim {
    /// The aim where `solve` begins to count: its first try, where no try was heard of.
    pub(crate) fn in_counts(self) -> Aim {
        match self {
            Aim::Season => Aim::Try { number: 1 },
            Aim::Try { .. } | Aim::Bound { .. } | Aim::Member { .. } => self,
        }
    }

    /// The aim where a descent goes on: a proof is over then, since its search found a season that costs less.
    pub(crate) fn in_descent(self) -> Aim {
        match self {
            Aim::Bound { .. } => Aim::Season,
            Aim::Season | Aim::Try { .. } | Aim::Member { .. } => self,
        }
    }

    /// Whether the seasons that come are those of the league itself, and not of a part of it.
    pub(crate) fn is_of_league(self) -> bool {
        !matches!(self, Aim::Member { .. })
    }
}

/// The front of a line, with the comma before what the run does.
impl fmt::Display for Aim {
    fn fmt<W: fmt::Write>(&self, f: &mut fmt::Formatter<W>) -> fmt::Result {
        let (before, number, behind) = match *self {
            Aim::Season => return Ok(()),
            Aim::Try { number } => ("try ", number, ""),
            Aim::Bound { objective } => ("proving at least ", objective, ""),
            Aim::Member { left } => ("", left, " members still to be tried"),
        };
        write!(f, "{before}{number}{behind}, ")
    }
}
