//! The tables of a board, in which games are placed.
ghost use Rattle.std.specs.Prelude.{◌≡◌, ◌+◌, ◌*◌, ◌++◌, length, slice_set};
ghost use Rattle.std.specs.List.{All};
ghost use Rattle.league.specs.Instance.{IsGame};
ghost use Rattle.moves.specs.Places.{ArePlaced};

use league::Game;

/// The places of a team in the table of games: as many as the longest season has slots.
pub(crate) const SLOTS: usize = 78;

/// The places of a home team in the table of slots: as many as the largest league has teams.
pub(crate) const TEAMS: usize = 40;

/// Writes each game at the places of its two teams, and its slot at the place of its meeting.
pub(crate) fn place_all(games: &mut [Game], slots: &mut [u16], placed: &[Game])
    requires games { length games.old ≡ 3120 }
    requires slots { length slots.old ≡ 1600 }
    requires fit { All (IsGame 40) placed.now }
    ensures { ArePlaced placed.now games.old games.new slots.old slots.new }
{
    for game in placed {
        place(games, slots, *game);
    }
}

/// Writes a game at the places of its two teams, and its slot at the place of its meeting.
fn place(games: &mut [Game], slots: &mut [u16], game: Game)
    requires games { length games.old ≡ 3120 }
    requires slots { length slots.old ≡ 1600 }
    requires fits { IsGame 40 game }
    ensures games { games.new ≡ slice_set (slice_set games.old (game.home.0 * 78 + game.slot.0) game)
        (game.away.0 * 78 + game.slot.0) game }
    ensures slots { slots.new ≡ slice_set slots.old (game.home.0 * 40 + game.away.0) game.slot.0 }
{
    let home = game.home.0 as usize;
    let away = game.away.0 as usize;
    let slot = game.slot.0 as usize;
    games[home * SLOTS + slot] = game;
    games[away * SLOTS + slot] = game;
    slots[home * TEAMS + away] = game.slot.0;
}
