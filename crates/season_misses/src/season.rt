//! A season by its games.
ghost use Rattle.std.specs.Prelude.{◌≡◌, ◌<◌, [], slice_index_or, IfOk};
ghost use Rattle.season_misses.specs.Own as own;
ghost use Rattle.season_misses.specs.Own.{IsSeason};

use crate::counted_games::games_that_pass;
use crate::game_test::GameTest;
use crate::reason::GameList;
use league::Game;
use rule_core::Cells;
use std::alloc::{AllocError, Global};
use std::marker::Model;

/// The games of each team of a league, each list in the order of the schedule.
///
/// A contract sees it as these lists, by the number of the team.
#[derive(Drop)]
pub struct TeamGames {
    lists: Vec<GameList>,
}

impl Model for TeamGames {
    ghost use Rattle.std.specs.Prelude.{List};
    ghost use Rattle.league.specs.declared.game.Game.{Game};

    ghost Value = { List (List Game) };

    ghost view = { λ own. own.lists.items };
}

impl TeamGames {
    /// The games of each of n teams.
    ///
    /// # Errors
    /// Only where memory runs out.
    pub fn of(alloc: Global, n: u16, games: &[Game]) -> Result<TeamGames, AllocError>
        ensures { IfOk result (λ by_team. by_team ≡ own.games_by_team n games.now) }
    {
        let mut lists = Vec::new(alloc);
        for team in 0..n {
            let test = GameTest::Own { team };
            lists.push(games_that_pass(alloc, games, &test)?)?;
        }
        Ok(TeamGames { lists })
    }

    /// The games of a team; none where there is no such team.
    fn of_team(&self, team: u16) -> &[Game]
        ensures { result.now ≡ slice_index_or self.now team [] }
    {
        match self.lists.get(usize::from(team)) {
            Some(list) => list.games(),
            None => &[],
        }
    }
}

/// A season: the counts of its games, the games in order, and those of each team.
#[derive(Clone, Copy)]
pub struct Season<'a> {
    pub cells: &'a Cells,
    pub games: &'a [Game],
    pub own: &'a TeamGames,
}

impl Season<'_> {
    /// The games of a team.
    pub(crate) fn of_team(&self, team: u16) -> &[Game]
        requires season { IsSeason self.now }
        requires team { team < self.now.cells.now.n }
        ensures { result.now ≡ own.own_games self.now.games.now team }
    {
        self.own.of_team(team)
    }
}
