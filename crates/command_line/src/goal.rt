//! What rows ask of a solver.

/// Which schedule of a league the rows that are written ask for.
#[derive(Clone, Copy)]
pub enum Goal {
    /// One that the league accepts.
    Accepted,
    /// One that it accepts with an objective of at most a bound.
    AtMost { bound: u64 },
    /// One that it accepts with the least objective.
    Least,
}
