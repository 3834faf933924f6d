//! The games of a schedule that count, listed.
ghost use Rattle.std.specs.Prelude.{◌≡◌, ◌<◌, IfOk};
ghost use Rattle.std.specs.List.{filter};
ghost use Rattle.rule_core.specs.Touched.{plays_against};
ghost use Rattle.season_misses.specs.Counting as counting;
ghost use Rattle.season_misses.specs.Own.{IsSeason};
ghost use Rattle.season_misses.specs.Tested.{passes};

use crate::game_test::GameTest;
use crate::reason::GameList;
use crate::season::Season;
use crate::tests_of_games::Player;
use league::{Game, TeamId, TeamSet};
use std::alloc::{AllocError, Global};

/// The games, among some, that pass a test.
pub(crate) fn games_that_pass(
    alloc: Global,
    games: &[Game],
    test: &GameTest<'_>,
) -> Result<GameList, AllocError>
    ensures { IfOk result (λ list. list ≡ filter (passes test.now) games.now) }
{
    let counted = games.iter().copied();
    let counted = counted.filter(|game| test.passes(*game));
    Ok(GameList {
        games: counted.collect(alloc)?,
    })
}

/// The games of a team on a side against others.
pub(crate) fn games_against(
    alloc: Global,
    season: &Season<'_>,
    player: Player,
    others: &TeamSet,
) -> Result<GameList, AllocError>
    requires season { IsSeason season.now }
    requires team { player.team < season.now.cells.now.n }
    ensures { IfOk result (λ list. list
        ≡ filter (λ g. plays_against player.side others.now g player.team) season.now.games.now) }
{
    let test = GameTest::Against { player, others };
    games_that_pass(alloc, season.of_team(player.team), &test)
}

/// The home games of a team up to a slot.
pub(crate) fn home_games_to(
    alloc: Global,
    season: &Season<'_>,
    team: TeamId,
    slot: u16,
) -> Result<GameList, AllocError>
    requires season { IsSeason season.now }
    requires team { team.0 < season.now.cells.now.n }
    ensures { IfOk result (λ list. list ≡ filter (counting.counts_in_fa2 team.0 slot) season.now.games.now) }
{
    let test = GameTest::Fa2 { team, slot };
    games_that_pass(alloc, season.of_team(team.0), &test)
}

/// The mutual games of two teams.
pub(crate) fn mutual_games(
    alloc: Global,
    season: &Season<'_>,
    first: TeamId,
    second: TeamId,
) -> Result<GameList, AllocError>
    requires season { IsSeason season.now }
    requires team { first.0 < season.now.cells.now.n }
    ensures { IfOk result (λ list. list
        ≡ filter (counting.counts_in_se1 (first.0, second.0)) season.now.games.now) }
{
    let test = GameTest::Se1 { first, second };
    games_that_pass(alloc, season.of_team(first.0), &test)
}
