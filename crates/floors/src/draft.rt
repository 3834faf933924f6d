//! A log of a floor that grows.
use crate::summands::Summands;
use break_counts::Writer;

/// The steps so far, and the rows that its last sum adds up.
#[derive(Drop)]
pub(crate) struct Draft {
    pub(crate) writer: Writer,
    pub(crate) summands: Summands,
}
