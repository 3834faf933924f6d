//! The clauses that are added to the rows.
ghost use Rattle.std.specs.Prelude.{◌≡◌, ◌^◌, ◌<◌, ◌++◌, [], ◌∷◌, length, IfOk, IfSome, OnOk, OnErr, slice_get};
ghost use Rattle.rows.specs.Cardinality.{at_least};

use rows::{Lit, Term};
use std::alloc::{AllocError, Global};
use std::marker::Model;

/// A clause: seen as the row "at least one of its literals is true".
#[derive(Drop)]
pub(crate) struct Clause {
    terms: Vec<Term>,
}

impl Model for Clause {
    ghost use Rattle.rows.specs.Rows.{Row};

    ghost Value = { Row };

    ghost view = { λ c. record { terms = c.terms.items; degree = 1 } };
}

impl Clause {
    /// The clause of these literals.
    ///
    /// # Errors
    /// Only where memory runs out.
    fn new(alloc: Global, literals: &[Lit]) -> Result<Clause, AllocError>
        ensures { IfOk result (λ clause. clause ≡ at_least 1 literals.now) }
    {
        let mut terms = Vec::with_capacity(alloc, literals.len())?;
        for literal in literals {
            terms.push(Term {
                coef: 1,
                lit: *literal,
            })?;
        }
        Ok(Clause { terms })
    }

    /// The literals of the clause, each with coefficient 1.
    fn terms(&self) -> &[Term]
        ensures { result.now ≡ self.now.terms }
    {
        &self.terms
    }
}

/// Clauses: seen as their rows.
#[derive(Drop)]
pub(crate) struct Clauses {
    clauses: Vec<Clause>,
}

impl Model for Clauses {
    ghost use Rattle.std.specs.Prelude.{List};
    ghost use Rattle.rows.specs.Rows.{Row};

    ghost Value = { List Row };

    ghost view = { λ c. c.clauses.items };
}

impl Clauses {
    /// No clause.
    pub(crate) fn new(alloc: Global) -> Clauses
        ensures { result ≡ [] }
    {
        Clauses {
            clauses: Vec::new(alloc),
        }
    }

    /// The number of clauses.
    pub(crate) fn len(&self) -> usize
        ensures len { result ≡ length self.now }
        ensures few { result < 2 ^ 63 }
    {
        self.clauses.len()
    }

    /// The terms of the clause at place k, from 0.
    pub(crate) fn terms(&self, k: usize) -> &[Term]
        requires { k < length self.now }
        ensures { IfSome (slice_get self.now k) (λ row. result.now ≡ row.terms) }
    {
        self.clauses[k].terms()
    }

    /// Adds the clause of these literals behind the others.
    ///
    /// # Errors
    /// Only where memory runs out: then nothing changes.
    pub(crate) fn add(&mut self, literals: &[Lit]) -> Result<(), AllocError>
        ensures ok { OnOk result (self.new ≡ self.old ++ at_least 1 literals.now ∷ []) }
        ensures err { OnErr result (self.new ≡ self.old) }
    {
        let clause = Clause::new(*self.clauses.allocator(), literals)?;
        self.clauses.push(clause)?;
        Ok(())
    }
}
