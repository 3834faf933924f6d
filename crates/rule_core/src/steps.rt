//! The number of steps that an evaluation took. It stands in proofs alone, and costs nothing at run time.
//!
//! A body that is lent a `Steps<L>` can't cheat. The fields are private, and `tick` alone changes the number, by
//! one more (`tick_all` calls it so many times). Nor can a second counter take its place: `start` makes one at the
//! ledger `Plain` alone, and code that knows `L` only as a type parameter can make none of an `L`. So a bound on the
//! steps of a function that is generic in `L` holds of every evaluation that its body makes. (A bound that is stated at
//! `Plain` itself says nothing, since a body there may start again.)
//!
//! The number is a ghost number, which only a proof by hand can set: the two that do, of `Taken`, stand in this
//! crate, and no other crate of the workspace has a proof by hand.
ghost use Rattle.std.specs.Prelude.{◌≡◌, ◌+◌};

use crate::taken::Taken;
use std::marker::{Model, PhantomData};

/// The one ledger for which a counter can be made.
pub struct Plain;

/// The number of steps taken so far. It has no bytes at run time, and `tick` alone changes it.
#[derive(Drop)]
pub struct Steps<L> {
    of: PhantomData<L>,
    taken: Taken,
}

impl<L> Model for Steps<L> {
    ghost use Rattle.std.specs.Prelude.{ℕ};

    ghost Value = { ℕ };

    ghost view = { λ s. s.taken.number };
}

impl Steps<Plain> {
    /// A counter at 0.
    pub fn start() -> Steps<Plain>
        ensures { result ≡ 0 }
    {
        Steps {
            of: PhantomData,
            taken: Taken::none(),
        }
    }
}

impl<L> Steps<L> {
    /// Counts one step more.
    pub fn tick(&mut self)
        ensures { self.new ≡ self.old + 1 }
    {
        self.taken = self.taken.next();
    }

    /// Counts so many steps more.
    pub fn tick_all(&mut self, count: usize)
        ensures { self.new ≡ self.old + count }
    {
        for _counted in 0..count {
            self.tick();
        }
    }
}
