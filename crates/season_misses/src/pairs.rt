//! The pair of a key.
ghost use Rattle.std.specs.Prelude.{◌≡◌, slice_index_or};
ghost use Rattle.league.specs.Meetings.{pairs_of};

use league::{TeamId, TeamSet};

/// The two teams of a key: each two of some teams have one, in the order of the first and then of the second. Of a key
/// that no two teams have it gives team 0 twice. It takes no memory.
pub fn pair_at(teams: &TeamSet, key: usize) -> (TeamId, TeamId)
    ensures { (result.0.0, result.1.0) ≡ slice_index_or (pairs_of teams.now) key (0, 0) }
{
    pair_from(teams.numbers(), key)
}

/// The two teams of a key, of teams in a list.
fn pair_from(teams: &[u16], key: usize) -> (TeamId, TeamId)
    ensures { (result.0.0, result.1.0) ≡ slice_index_or (pairs_of teams.now) key (0, 0) }
{
    match teams {
        [] => (TeamId(0), TeamId(0)),
        [first, later @ ..] => {
            if key < later.len() {
                (TeamId(*first), TeamId(later[key]))
            } else {
                pair_from(later, key - later.len())
            }
        }
    }
}
