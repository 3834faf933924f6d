//! What moves are tried on.
use crate::old_plan::OldPlan;
use moves::Board;
use rule_core::Cells;

/// An old plan with the counts of its games, and a season on a board.
#[derive(Drop)]
pub(crate) struct Ground<'a> {
    pub(crate) plan: OldPlan<'a>,
    pub(crate) old: Cells,
    pub(crate) board: Board,
}
