//! An old plan of a season.
use league::{Game, League};

/// The games of an old plan of a league's season, of which the first k slots are played. Those from slot k on are still
/// to come.
#[derive(Clone, Copy)]
pub struct OldPlan<'a> {
    pub league: &'a League,
    pub games: &'a [Game],
    pub k: u16,
}
