//! Where a literal stands in rows.
ghost use Rattle.std.specs.Prelude.{◌≡◌};
ghost use Rattle.rows.specs.Codes.{code_of};

use rows::Lit;

/// A row in which a literal stands.
#[derive(Clone, Copy)]
pub(crate) struct Link {
    /// The row's place, from 0.
    pub(crate) row: u32,
    /// The literal's coefficient in it.
    pub(crate) coef: u32,
}

/// The place of a literal in a list by literals: twice its variable, and one more for a negation.
pub(crate) fn slot(lit: Lit) -> usize
    ensures { result ≡ code_of lit }
{
    if lit.positive() {
        lit.var() as usize * 2
    } else {
        lit.var() as usize * 2 + 1
    }
}
