//! The games that a move takes out and puts in.
ghost use Rattle.std.specs.Prelude.{◌≡◌, ◌<◌, ◌*◌, ◌++◌, [], ◌∷◌, length, IfOk};

use league::Game;
use std::alloc::{AllocError, Global};
use std::marker::Model;

/// The games that a move takes out of a board of n teams, and those that it puts in, with room for 4n of each. There
/// are as many of both. It is `edit_of` that fills it, with no game in both lists.
#[derive(Drop)]
pub struct Edit {
    n: u16,
    out: Vec<Game>,
    into: Vec<Game>,
}

impl Model for Edit {
    ghost use Rattle.std.specs.Prelude.{vec_capacity};
    ghost use Rattle.moves.specs.Room.{HasRoom};
    ghost use Rattle.moves.specs.Round.{Edits};

    ghost Value = { Edits };

    ghost view = { λ e. record { n = e.n; out = e.out.items; into = e.into.items } };

    ghost invariant = { λ e. HasRoom e.n (vec_capacity e.out) (vec_capacity e.into) e.out.items e.into.items };
}

impl Edit {
    /// An empty edit for a board of n teams, with room for 4n games in each list.
    ///
    /// # Errors
    /// Only where memory runs out.
    pub fn new(alloc: Global, n: u16) -> Result<Edit, AllocError>
        ensures { IfOk result (λ edit. edit ≡ record { n = n; out = []; into = [] }) }
    {
        let room = 4 * n as usize;
        Ok(Edit {
            n,
            out: Vec::with_capacity(alloc, room)?,
            into: Vec::with_capacity(alloc, room)?,
        })
    }

    /// The games that are taken out.
    pub fn out(&self) -> &[Game]
        ensures games { result.now ≡ self.now.out }

        // As many games are put in, so that an edit leaves their number.
        ensures as_many { length self.now.into ≡ length self.now.out }
    {
        &self.out
    }

    /// The games that are put in.
    pub fn into_games(&self) -> &[Game]
        ensures { result.now ≡ self.now.into }
    {
        &self.into
    }

    /// Takes all games out of both lists.
    pub(crate) fn clear(&mut self)
        ensures { self.new ≡ record { n = self.old.n; out = []; into = [] } }
    {
        self.out.clear();
        self.into.clear();
    }

    /// Takes out a game and puts in another. It takes no memory.
    pub(crate) fn replace(&mut self, before: Game, after: Game)
        requires out { length self.old.out < 4 * self.old.n }
        requires into { length self.old.into < 4 * self.old.n }
        ensures { self.new ≡ record {
          n = self.old.n;
          out = self.old.out ++ before ∷ [];
          into = self.old.into ++ after ∷ [];
        } }
    {
        self.out.push_reserved(before);
        self.into.push_reserved(after);
    }
}
