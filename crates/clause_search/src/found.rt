//! What a search finds.
use refutation::Log;
use rows::Assignment;

/// What a search over rows finds. `specs/Answers.antt` says what each answer promises.
#[derive(Drop)]
pub enum Found {
    /// Values that satisfy every row.
    Sat(Assignment),
    /// A log that is accepted over the rows, so that no values satisfy them all.
    Refuted(Log),
    /// A log of as many steps as the limit allows, each of which says more than propagation finds.
    Spent(Log),
}
