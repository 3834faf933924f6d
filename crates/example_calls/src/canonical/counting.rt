//! Seasons of boards and after edits, counted afresh.
ghost use Rattle.std.specs.Prelude.{IfOk};
ghost use Rattle.std.specs.List.{All};
ghost use Rattle.league.specs.Instance.{IsGame, IsTeamCount};

use crate::canonical::swaps::is_game;
use league::{League, Schedule, SlotId, TeamId, slot_count, structure};
use moves::{Board, Edit};
use std::alloc::{AllocError, Global};

/// The games of a board, team by team in the slots where it is at home.
pub fn season_of(alloc: Global, board: &Board) -> Result<Schedule, AllocError> {
    let mut season = Schedule::new(alloc);
    for team in 0..board.n() {
        for slot in 0..slot_count(board.n()) {
            let game = board.game(TeamId(team), SlotId(slot));
            if game.home.0 == team {
                season.push(game)?;
            }
        }
    }
    Ok(season)
}

/// The games of a season but those that an edit takes out, and those that it puts in.
pub fn changed(
    alloc: Global,
    n: u16,
    season: &Schedule,
    edit: &Edit,
) -> Result<Schedule, AllocError>
    requires { IsTeamCount n }
    ensures { IfOk result (λ games. All (IsGame n) games) }
{
    let mut games = Schedule::new(alloc);
    for game in season.games() {
        if is_game(n, *game) && !edit.out().contains(game) {
            games.push(*game)?;
        }
    }
    for put in edit.into_games() {
        if is_game(n, *put) {
            games.push(*put)?;
        }
    }
    Ok(games)
}

/// Whether a season after an edit is a double round robin of a league, by a count of the whole season.
pub fn is_round_robin(
    alloc: Global,
    league: &League,
    season: &Schedule,
    edit: &Edit,
) -> Result<bool, AllocError> {
    let after = changed(alloc, league.n(), season, edit)?;
    if after.len() > 10_000 {
        return Ok(false);
    }
    let wrongs = structure(league, &after);
    Ok(wrongs.pairs_wrong == 0 && wrongs.cells_wrong == 0 && wrongs.phases_wrong == 0)
}
