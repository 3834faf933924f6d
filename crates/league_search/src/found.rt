//! What is found of patterns.
use patterns::PatternSet;
use refutation::Log;

/// What is found of a league's patterns. `specs/Answers.antt` says what each answer promises.
#[derive(Drop)]
pub enum PatternFound {
    /// A pattern for each team, which satisfy the pattern rows.
    Patterns(PatternSet),
    /// A log that is accepted over the league's rows, with hints to pattern rows and earlier steps alone.
    Refuted(Log),
    /// A log of as many steps as the limit allows, each of which says more than propagation over the pattern rows
    /// finds.
    Spent(Log),
}
