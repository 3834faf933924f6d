//! A number that only proofs read.
ghost use Rattle.std.specs.Prelude.{◌≡◌, ℕ, ◌+◌};
ghost use Rattle.std.specs.Borrow.{ftrue};

use std::marker::{Model, PhantomData};

/// A number of steps. It has no bytes, and its methods do nothing at run time.
#[derive(Drop)]
pub(crate) struct Taken {
    of: PhantomData<()>,
    pub(crate) ghost number: { ℕ },
}

impl Model for Taken {
    ghost also_owns = { λ _. ftrue };
}

impl Taken {
    /// No step.
    pub(crate) fn none() -> Taken
        ensures { result.number ≡ 0 }
    {
        Taken { of: PhantomData }
    }

    /// One step more.
    pub(crate) fn next(&self) -> Taken
        ensures { result.number ≡ self.now.number + 1 }
    {
        Taken { of: PhantomData }
    }
}
