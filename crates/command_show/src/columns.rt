//! The columns of a grid.

/// The digits of a team's number, and the width in front of the first cell.
#[derive(Clone, Copy)]
pub(crate) struct Columns {
    pub digits: usize,
    pub front: usize,
}
