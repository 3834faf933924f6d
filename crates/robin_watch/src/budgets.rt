//! How far a solver may go.

/// How far a solver may go, and from which seed it draws.
#[derive(Clone, Copy)]
pub struct Budgets {
    /// How many clauses the search of one try may learn: any number of them, where there is none.
    pub conflicts: Option<u64>,
    /// How many moves the descent of one try may make. Its walk may try at most a hundred times as many, and more where
    /// tries have no number; with 0 there is none.
    pub moves: u64,
    /// How many tries are made: the first in any case.
    pub tries: u64,
    /// How many clauses the search for patterns may learn, in the first try.
    pub patterns: u64,
    /// The seed by which the walk of the first try draws. That of the kth try behind it is greater by k, and draws its
    /// walk and the random order in which it searches.
    pub seed: u64,
}
