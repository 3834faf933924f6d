//! The reason of a literal, divided so that it counts the literal once.
ghost use Rattle.std.specs.Prelude.{◌≡◌, map, pos};
ghost use Rattle.planes.specs.Numbers.{divided_up};
ghost use Rattle.planes.specs.Dividing.{divided_term, taken_off};

use crate::axioms::Axioms;
use crate::draft::Draft;
use crate::numbers::{as_divisor, divided, rest};
use crate::parts::Parts;
use crate::stock::Held;
use crate::trail::{Moment, Trail};
use rows::Lit;
use std::alloc::{AllocError, Global};

/// A literal with a coefficient.
#[derive(Clone, Copy)]
pub(crate) struct Scaled {
    pub(crate) lit: Lit,
    pub(crate) coef: i64,
}

/// A row that forces a literal, and its number. Like a plane, it only guides what is planned.
#[derive(Drop)]
pub(crate) struct Reason {
    pub(crate) terms: Vec<Scaled>,
    pub(crate) degree: i64,
    pub(crate) number: u64,
    parts: Parts,
}

/// The literal that a reason forces, and its place on the trail.
#[derive(Clone, Copy)]
pub(crate) struct Point {
    pub(crate) lit: Lit,
    pub(crate) place: usize,
}

impl Reason {
    /// The row without terms.
    pub(crate) fn new(alloc: Global) -> Reason {
        Reason {
            terms: Vec::new(alloc),
            degree: 0,
            number: 0,
            parts: Parts::new(alloc),
        }
    }

    /// Makes it this row.
    ///
    /// # Errors
    /// Only where memory runs out.
    pub(crate) fn load(&mut self, held: &Held) -> Result<(), AllocError> {
        self.terms.clear();
        for term in &held.terms {
            self.terms.push(Scaled {
                lit: term.lit,
                coef: i64::from(term.coef),
            })?;
        }
        self.degree = held.degree;
        self.number = held.number;
        Ok(())
    }

    /// What a literal counts.
    fn coef(&self, lit: Lit) -> i64 {
        for term in &self.terms {
            if term.lit == lit {
                return term.coef;
            }
        }
        0
    }

    /// Divides the row by what it counts of the literal that it forces. Before that all that wasn't false is weakened to
    /// multiples, and as much of what was false as leaves the degree.
    ///
    /// # Errors
    /// Only where memory runs out.
    pub(crate) fn divide(
        &mut self,
        trail: &Trail,
        draft: &mut Draft,
        axioms: &mut Axioms,
        point: &Point,
    ) -> Result<(), AllocError> {
        let divisor = self.coef(point.lit);
        if divisor <= 1 {
            return Ok(());
        }
        self.parts.begin(self.number)?;
        self.weaken_open(trail, draft, axioms, point, divisor)?;
        self.weaken_false(draft, axioms, point.lit, divisor)?;
        self.number = draft.plan_sum(&self.parts, as_divisor(divisor))?;
        self.divide_all(divisor);
        Ok(())
    }

    /// Weakens all that wasn't false before the place to multiples of the divisor.
    fn weaken_open(
        &mut self,
        trail: &Trail,
        draft: &mut Draft,
        axioms: &mut Axioms,
        point: &Point,
        divisor: i64,
    ) -> Result<(), AllocError> {
        let moment = Moment::Before { place: point.place };
        for at in 0..self.terms.len() {
            if let Some(Scaled { lit, coef }) = self.terms.get(at).copied() {
                let less = open_rest(trail, moment, lit, coef, divisor);
                self.weaken(draft, axioms, at, less)?;
            }
        }
        Ok(())
    }

    /// Divides what each literal counts and the degree, rounding up.
    fn divide_all(&mut self, divisor: i64)
        ensures terms { self.new.terms.items ≡ map (divided_term divisor) self.old.terms.items }
        ensures degree { self.new.degree ≡ pos (divided_up self.old.degree divisor) }
    {
        divide_terms(&mut self.terms, divisor);
        self.degree = divided(self.degree, divisor);
    }

    /// Weakens false literals to multiples of the divisor while the divided degree stays: first those that vanish.
    fn weaken_false(
        &mut self,
        draft: &mut Draft,
        axioms: &mut Axioms,
        forced: Lit,
        divisor: i64,
    ) -> Result<(), AllocError> {
        self.weaken_up_to(draft, axioms, forced, divisor, divisor.saturating_sub(1))?;
        self.weaken_up_to(draft, axioms, forced, divisor, i64::MAX)
    }

    /// Weakens literals that count at most so much to multiples of the divisor while the divided degree stays.
    fn weaken_up_to(
        &mut self,
        draft: &mut Draft,
        axioms: &mut Axioms,
        forced: Lit,
        divisor: i64,
        most: i64,
    ) -> Result<(), AllocError> {
        for at in 0..self.terms.len() {
            let less = self.spare_rest(at, forced, divisor, most);
            self.weaken(draft, axioms, at, less)?;
        }
        Ok(())
    }

    /// What a term counts more than a multiple of the divisor; but 0 for the forced literal, for a term that counts more
    /// than `most`, and where the divided degree would be less without it.
    fn spare_rest(&self, at: usize, forced: Lit, divisor: i64, most: i64) -> i64 {
        let Some(Scaled { lit, coef }) = self.terms.get(at).copied() else {
            return 0;
        };
        let less = rest(coef, divisor);
        let spare = rest(self.degree.saturating_sub(1), divisor);
        if lit == forced || coef > most || less > spare {
            0
        } else {
            less
        }
    }

    /// Takes so much off the term at a place, if any.
    fn weaken(
        &mut self,
        draft: &mut Draft,
        axioms: &mut Axioms,
        at: usize,
        less: i64,
    ) -> Result<(), AllocError> {
        if at >= self.terms.len() || less <= 0 {
            return Ok(());
        }
        let Scaled { lit, coef } = self.terms[at];
        self.terms[at] = Scaled {
            lit,
            coef: coef.saturating_sub(less),
        };
        self.degree = self.degree.saturating_sub(less);
        let axiom = axioms.number(draft, lit.negate())?;
        self.parts.add(less, axiom)
    }
}

/// How much is to be taken off a literal that counts so much before a row is divided: what it counts more than a multiple of
/// the divisor, but nothing where it was false at a moment.
pub(crate) fn open_rest(trail: &Trail, moment: Moment, lit: Lit, coef: i64, divisor: i64) -> i64
    ensures { result ≡ pos (taken_off trail.now moment lit coef divisor) }
{
    if trail.was_false(lit, moment) {
        0
    } else {
        rest(coef, divisor)
    }
}

/// Divides what each literal counts, rounding up.
fn divide_terms(terms: &mut [Scaled], divisor: i64)
    ensures { terms.new ≡ map (divided_term divisor) terms.old }
{
    for term in terms.iter_mut() {
        let less = divide_term(term, divisor);
        *term = less;
    }
}

/// A term divided, rounding up.
fn divide_term(term: &Scaled, divisor: i64) -> Scaled
    ensures { result ≡ divided_term divisor term.now }
{
    Scaled {
        lit: term.lit,
        coef: divided(term.coef, divisor),
    }
}
