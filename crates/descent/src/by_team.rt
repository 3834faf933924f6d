//! The games of an edit, listed by team.
ghost use Rattle.std.specs.Prelude.{◌≡◌, ℕ, ◌<◌, ◌≤◌, ◌+◌, ◌*◌, ◌++◌, [], ◌∷◌, List, length, slice_index_or, take, IfOk};
ghost use Rattle.std.specs.List.{All};
ghost use Rattle.league.specs.Instance.{IsGame};
ghost use Rattle.league.specs.declared.game.Game.{Game};
ghost use Rattle.descent.specs.ByTeam.{AreByTeam, games_at, no_games, with_game};

use league::{Game, TeamId};
use std::alloc::{AllocError, Global};
use std::marker::Model;

/// Some games with a fixed room, so that adding a game takes no memory.
#[derive(Drop)]
pub(crate) struct GameList {
    games: Vec<Game>,
    room: usize,
}

impl Model for GameList {
    ghost use Rattle.std.specs.Prelude.{◌≤◌, vec_len, vec_capacity};
    ghost use Rattle.descent.specs.ByTeam.{GameRoom};

    ghost Value = { GameRoom };

    ghost view = { λ l. record { list = l.games.items; room = l.room } };

    ghost invariant = { λ l. (vec_len l.games ≤ l.room) × (l.room ≤ vec_capacity l.games) };
}

impl GameList {
    /// No games, with room for so many.
    fn new(alloc: Global, room: usize) -> Result<GameList, AllocError>
        ensures { IfOk result (λ games. games ≡ record { list = []; room = room }) }
    {
        Ok(GameList {
            games: Vec::with_capacity(alloc, room)?,
            room,
        })
    }

    /// Takes out all games.
    fn clear(&mut self)
        ensures { self.new ≡ record { list = []; room = self.old.room } }
    {
        self.games.clear();
    }

    /// Adds a game at the end, where there is room.
    fn push(&mut self, game: Game)
        requires { length self.old.list < self.old.room }
        ensures { self.new ≡ record { list = self.old.list ++ game ∷ []; room = self.old.room } }
    {
        self.games.push_reserved(game);
    }

    /// The games.
    pub(crate) fn games(&self) -> &[Game]
        ensures { result.now ≡ self.now.list }
    {
        &self.games
    }
}

/// A list of games for each of n teams, with room for 8n games, as many as an edit of the moves may have.
pub(crate) fn team_lists(alloc: Global, n: u16) -> Result<Vec<GameList>, AllocError>
    ensures teams { IfOk result (λ lists. length lists.items ≡ n) }
    ensures room { IfOk result (λ lists. All (λ l. 8 * n ≤ l.room) lists.items) }
{
    let room = 8 * usize::from(n);
    let mut lists = Vec::new(alloc);
    for _team in 0..n {
        let games = GameList::new(alloc, room)?;
        lists.push(games)?;
    }
    Ok(lists)
}

/// Lists the games of an edit by team, in the place of those listed before, and says how many of the lists stand for
/// them: all, or none where the edit has more than 8n games. It takes no memory.
pub(crate) fn list_edit(lists: &mut [GameList], n: u16, out: &[Game], into: &[Game]) -> usize
    requires teams { length lists.old ≡ n }
    requires room { All (λ l. 8 * n ≤ l.room) lists.old }
    requires out_fit { All (IsGame n) out.now }
    requires into_fit { All (IsGame n) into.now }
    ensures room { All (λ l. 8 * n ≤ l.room) lists.new }
    ensures within { result ≤ length lists.old }
    ensures listed { 0 < result → AreByTeam n (out.now ++ into.now) (take result lists.new) }
{
    if out.len() + into.len() > 8 * usize::from(n) {
        return 0;
    }
    clear_lists(lists);
    list_games(lists, out);
    list_games(lists, into);
    lists.len()
}

/// Takes all games out of each list.
fn clear_lists(lists: &mut [GameList])
    ensures empty { All (λ l. l.list ≡ []) lists.new }
    ensures room { (room : ℕ) → All (λ l. room ≤ l.room) lists.old → All (λ l. room ≤ l.room) lists.new }
{
    for list in lists.iter_mut() {
        list.clear();
    }
}

/// Lists each game at its home team and at its away team, after those listed before.
fn list_games(lists: &mut [GameList], games: &[Game])
    requires fit { All (IsGame (length lists.old)) games.now }
    requires spare { All (λ l. length l.list + length games.now ≤ l.room) lists.old }
    ensures listed { (before : List Game) → AreByTeam (length lists.old) before lists.old
        → AreByTeam (length lists.old) (before ++ games.now) lists.new }
    ensures room { (room : ℕ) → All (λ l. room ≤ l.room) lists.old → All (λ l. room ≤ l.room) lists.new }
    ensures spare { (rest : ℕ) → All (λ l. length l.list + (length games.now + rest) ≤ l.room) lists.old
        → All (λ l. length l.list + rest ≤ l.room) lists.new }
{
    for game in games {
        list_at(lists, game.home, *game);
        list_at(lists, game.away, *game);
    }
}

/// Lists a game at a team.
fn list_at(lists: &mut [GameList], team: TeamId, game: Game)
    requires team { team.0 < length lists.old }
    requires spare { length (games_at lists.old team.0) < (slice_index_or lists.old team.0 no_games).room }
    ensures { lists.new ≡ with_game lists.old team.0 game }
{
    lists[usize::from(team.0)].push(game);
}
