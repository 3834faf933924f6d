//! The games of an old plan that a new one hasn't.
ghost use Rattle.std.specs.Prelude.{◌≡◌};
ghost use Rattle.std.specs.List.{list_any};
ghost use Rattle.league.specs.Counts.{counts_of, is_game};
ghost use Rattle.resume.specs.Kept as kept;
ghost use Rattle.resume.specs.Near as near;
ghost use Rattle.resume.specs.Near.{changed};

use league::Game;

/// How many games of an old plan take place from slot k on, and not in the new one.
pub fn changed_games(old: &[Game], k: u16, games: &[Game]) -> usize
    ensures { result ≡ changed k old.now games.now }
{
    old.iter()
        .filter(|game| is_changed(k, games, **game))
        .count()
}

/// How many games of a plan take place from slot k on.
pub fn open_games(old: &[Game], k: u16) -> usize
    ensures { result ≡ near.open_games k old.now }
{
    old.iter().filter(|game| is_open(k, **game)).count()
}

/// Whether a game takes place from slot k on.
fn is_open(k: u16, game: Game) -> bool
    ensures { result ≡ near.is_open k game }
{
    game.slot.0 >= k
}

/// Whether a game takes place from slot k on, and isn't among these.
fn is_changed(k: u16, games: &[Game], game: Game) -> bool
    ensures { result ≡ near.is_changed k (counts_of games.now) game }
{
    is_open(k, game) && !has(games, game)
}

/// Whether a game is among others.
fn has(games: &[Game], game: Game) -> bool
    ensures { result ≡ kept.is_played (counts_of games.now) game.home.0 game.away.0 game.slot.0 }
{
    is_among(games, game.home.0, game.away.0, game.slot.0)
}

/// Whether the game of a home team and an away team in a slot is among others.
fn is_among(games: &[Game], home: u16, away: u16, slot: u16) -> bool
    ensures { result ≡ list_any (is_game home away slot) games.now }
{
    games.iter().any(|game| game.home.0 == home && game.away.0 == away && game.slot.0 == slot)
}
