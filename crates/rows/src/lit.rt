//! Literals and terms.
ghost use Rattle.std.specs.Prelude.{◌≡◌, ◌≤◌};
ghost use Rattle.rows.specs.Literals as literals;

use std::marker::Model;

/// A variable, numbered from 1, or its negation: seen as the variable and its sign. It takes 4 bytes.
#[derive(Clone, Copy, Debug, PartialEq, Eq)]
pub struct Lit {
    code: u32,
}

impl Model for Lit {
    ghost use Rattle.std.specs.Prelude.{◌≤◌};
    ghost use Rattle.rows.specs.Codes.{code_of, literal_of};
    ghost use Rattle.rows.specs.Literals.{Literal};

    ghost Value = { Literal };

    ghost use Rattle.rows.specs.LitLaws.{code_is, with_code};

    ghost view = { λ l. literal_of l.code };

    ghost invariant = { λ l. 2 ≤ l.code };

    ghost inverse = { λ l. with_code (code_of l) };

    ghost inverse_ok = { λ l h. code_is l };
}

impl Lit {
    /// The literal of a variable from 1 to 2,147,483,647: the variable itself where `positive`, else its negation.
    pub fn new(var: u32, positive: bool) -> Lit
        requires at_least { 1 ≤ var }
        requires at_most { var ≤ 2147483647 }
        ensures { result ≡ record { var = var; positive = positive } }
    {
        let negative = u32::from(!positive);
        Lit {
            code: 2 * var + negative,
        }
    }

    /// The variable: from 1 to 2,147,483,647.
    pub fn var(self) -> u32
        ensures var { result ≡ self.var }
        ensures at_least { 1 ≤ result }
        ensures at_most { result ≤ 2147483647 }
    {
        self.code / 2
    }

    /// Whether the literal is the variable itself, and not its negation.
    pub fn positive(self) -> bool
        ensures { result ≡ self.positive }
    {
        self.code % 2 == 0
    }

    /// The literal that is true exactly where this one is false.
    pub fn negate(self) -> Lit
        ensures { result ≡ literals.negate self }
    {
        Lit::new(self.var(), !self.positive())
    }
}

/// A literal with a coefficient, which is from 1 in a row. It takes 8 bytes.
#[derive(Clone, Copy, Debug, PartialEq, Eq)]
pub struct Term {
    pub coef: u32,
    pub lit: Lit,
}
