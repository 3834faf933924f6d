//! What is counted of a team over a season.
ghost use Rattle.std.specs.Prelude.{◌≡◌, ◌<◌, ◌≤◌, ◌+◌};
ghost use Rattle.std.specs.List.{range_with_len};
ghost use Rattle.league.specs.Counts.{slot_count, slots_of};
ghost use Rattle.league.specs.Structure.{first_half};
ghost use Rattle.league.specs.Venues.{away_games, home_games};
ghost use Rattle.rule_core.specs.Table.{table_counts};
ghost use Rattle.command_show.specs.Tallies as tallies;

use crate::cell::breaks_at;
use league::{SlotId, TeamId};
use rule_core::Cells;

/// The home games of a team in so many slots from one on.
fn home_among(cells: &Cells, team: TeamId, first: u16, slots: u16) -> u32
    requires team { team.0 < cells.now.n }
    requires slots { first + slots ≤ slot_count cells.now.n }
    requires short { first + slots ≤ 78 }
    ensures { result ≡ tallies.home_among cells.now.n (table_counts cells.now) team.0 (range_with_len first slots) }
{
    let mut games = 0;
    for place in 0..slots {
        games += cells.home(team, SlotId(first + place));
    }
    games
}

/// The home games of a team in the first half.
pub(crate) fn home_first(cells: &Cells, team: TeamId) -> u32
    requires { team.0 < cells.now.n }
    ensures { result ≡ tallies.home_among cells.now.n (table_counts cells.now) team.0 (first_half cells.now.n) }
{
    home_among(cells, team, 0, cells.n() - 1)
}

/// The home games of a team in the second half.
pub(crate) fn home_second(cells: &Cells, team: TeamId) -> u32
    requires { team.0 < cells.now.n }
    ensures { result ≡ tallies.home_among cells.now.n (table_counts cells.now) team.0 (tallies.second_half cells.now.n) }
{
    home_among(cells, team, cells.n() - 1, cells.n() - 1)
}

/// The breaks of a team, at home and away.
pub(crate) fn breaks_in_all(cells: &Cells, team: TeamId) -> u32
    requires { team.0 < cells.now.n }
    ensures { result ≡ tallies.breaks_in_all cells.now.n (table_counts cells.now) team.0 }
{
    let mut breaks = 0;
    for number in 0..cells.slots() {
        breaks += breaks_at(cells, team, SlotId(number));
    }
    breaks
}

/// The most slots in a row with a home game of a team.
pub(crate) fn home_run(cells: &Cells, team: TeamId) -> u32
    requires { team.0 < cells.now.n }
    ensures { result ≡ tallies.home_run cells.now.n (table_counts cells.now) team.0 }
{
    let mut longest = 0;
    let mut run = 0;
    for number in 0..cells.slots() {
        run = if cells.home(team, SlotId(number)) > 0 {
            run + 1
        } else {
            0
        };
        longest = run.max(longest);
    }
    longest
}

/// The most slots in a row with an away game of a team.
pub(crate) fn away_run(cells: &Cells, team: TeamId) -> u32
    requires { team.0 < cells.now.n }
    ensures { result ≡ tallies.away_run cells.now.n (table_counts cells.now) team.0 }
{
    let mut longest = 0;
    let mut run = 0;
    for number in 0..cells.slots() {
        run = if cells.away(team, SlotId(number)) > 0 {
            run + 1
        } else {
            0
        };
        longest = run.max(longest);
    }
    longest
}
