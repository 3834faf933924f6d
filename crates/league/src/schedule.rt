//! A schedule: a list of games in any order, which may hold a game more than once.
ghost use Rattle.std.specs.Prelude.{◌≡◌, ◌<◌, ◌++◌, ◌==◌, [], ◌∷◌, length, slice_get, Some, OnOk, OnErr};
ghost use Rattle.std.specs.List.Sorted.{IsPermutation};
ghost use Rattle.league.specs.Order.{IsInOrder};

use crate::game::Game;
use std::alloc::{AllocError, Global};
use std::marker::Model;

/// A list of games, as a solution file has them.
#[derive(Drop)]
pub struct Schedule {
    games: Vec<Game>,
}

impl Model for Schedule {
    ghost use Rattle.std.specs.Prelude.{List};
    ghost use Rattle.league.specs.declared.game.Game.{Game};

    ghost Value = { List Game };

    ghost view = { λ s. s.games.items };
}

impl Schedule {
    /// A schedule with no game. It takes no memory.
    pub fn new(alloc: Global) -> Schedule
        ensures { result ≡ [] }
    {
        Schedule {
            games: Vec::new(alloc),
        }
    }

    /// Adds a game at the end.
    ///
    /// # Errors
    /// Only where memory runs out.
    pub fn push(&mut self, game: Game) -> Result<(), AllocError>
        ensures ok { OnOk result (self.new ≡ self.old ++ game ∷ []) }
        ensures err { OnErr result (self.new ≡ self.old) }
    {
        self.games.push(game)?;
        Ok(())
    }

    /// Sorts the games by slot, then by home team, then by away team. A game that is there twice stays there twice. It
    /// takes no memory.
    pub fn put_in_order(&mut self)
        ensures permutation { IsPermutation self.old self.new }
        ensures in_order { IsInOrder self.new }
    {
        self.games
            .sort_unstable_by_key(|game| (game.slot.0, game.home.0, game.away.0));
    }

    /// The number of games.
    pub fn len(&self) -> usize
        ensures { result ≡ length self.now }
    {
        self.games.len()
    }

    /// Whether there is no game.
    pub fn is_empty(&self) -> bool
        ensures { result ≡ (length self.now == 0) }
    {
        self.games.is_empty()
    }

    /// The game at place k, from 0.
    pub fn get(&self, k: usize) -> Game
        requires { k < length self.now }
        ensures { slice_get self.now k ≡ Some result }
    {
        self.games[k]
    }

    /// The games in order.
    pub fn games(&self) -> &[Game]
        ensures { result.now ≡ self.now }
    {
        &self.games
    }
}
