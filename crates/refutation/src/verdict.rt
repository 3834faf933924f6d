//! What is said of a log over rows.

/// Why a log is rejected.
#[derive(Clone, Copy, Debug, PartialEq, Eq)]
pub enum Cause {
    /// A hint that is reached before any conflict, or a part, names no row.
    UnknownRow,
    /// A literal's variable is above the number of variables.
    UnknownVariable,
    /// The hints come to no row in conflict.
    NoConflict,
    /// Each step follows, but the last isn't the empty clause, or there is no step.
    NoEmptyClause,
    /// The coefficients of a sum, each times its factor, or its degrees, are above 2^127 - 1 in all.
    TooWide,
}

/// Whether a log refutes rows.
#[derive(Clone, Copy, Debug, PartialEq, Eq)]
pub enum Verdict {
    /// Each step follows, and the last is the empty clause: no values meet all rows.
    Accepted,
    /// The first step that doesn't follow, by its number from 1, or where all follow their number; and why.
    Rejected { step: u64, cause: Cause },
}
