//! One turn of a search.
use rows::Assignment;

/// What a turn comes to.
#[derive(Drop)]
pub(crate) enum Turn {
    /// A literal was decided or a clause learnt: the search goes on.
    Again,
    /// Every variable has a value, and these satisfy every row.
    Satisfied(Assignment),
    /// The log ends with the empty clause.
    Refuted,
    /// There is a conflict above level 0, and the log has as many steps as the limit allows.
    Spent,
}
