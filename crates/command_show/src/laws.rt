//! Laws of the grid: functions that do nothing and whose contracts are proved.
ghost use Rattle.command_show.specs.Laws as laws;

/// Each cell names the game of its team in its slot, in a league of at most 40 teams.
pub fn cells_name_games()
    ensures { laws.CellsNameGames }
{}

/// Each slot of a season stands in one block of its grid, and the slots stand in order.
pub fn blocks_hold_slots()
    ensures { laws.BlocksHoldSlots }
{}

/// The breaks that are counted below the grid are together all breaks of the season.
pub fn tallies_add_up()
    ensures { laws.TalliesAddUp }
{}
