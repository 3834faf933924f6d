//! A season with the names of its league.
use robinx::Names;
use rule_core::Cells;

/// The games of a season, counted, and the names of its league, which is phased or not.
#[derive(Drop)]
pub struct Season<'a> {
    pub cells: &'a Cells,
    pub names: &'a Names,
    pub phased: bool,
}
