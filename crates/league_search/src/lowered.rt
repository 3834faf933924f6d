//! Pattern rows, with variables numbered from 1.
ghost use Rattle.std.specs.Prelude.{◌≡◌, ◌≤◌, nat_lt, map, true, IfOk};
ghost use Rattle.std.specs.List.{All, list_all};
ghost use Rattle.league_search.specs.Raised.{raised_term};

use rows::{Lit, Term};
use std::alloc::{AllocError, Global};

/// Whether terms speak of no game, where games have so many variables.
pub(crate) fn are_of_patterns(terms: &[Term], games: u32) -> bool
    ensures { result ≡ list_all (λ t. nat_lt games t.lit.var) terms.now }
{
    terms.iter().all(|term| games < term.lit.var())
}

/// The terms with variables that are lower by the number of variables of games.
///
/// # Errors
/// Only where memory runs out.
pub(crate) fn lowered(alloc: Global, terms: &[Term], games: u32) -> Result<Vec<Term>, AllocError>
    requires { list_all (λ t. nat_lt games t.lit.var) terms.now ≡ true }
    ensures raised { IfOk result (λ low. map (raised_term games) low.items ≡ terms.now) }
    ensures from_one { IfOk result (λ low. All (λ t. 1 ≤ t.lit.var) low.items) }
{
    let mut low = Vec::with_capacity(alloc, terms.len())?;
    for term in terms {
        low.push(lowered_term(*term, games))?;
    }
    Ok(low)
}

/// This term, with a variable that is so many lower.
fn lowered_term(term: Term, games: u32) -> Term
    requires { nat_lt games term.lit.var ≡ true }
    ensures raised { raised_term games result ≡ term }
    ensures from_one { 1 ≤ result.lit.var }
{
    Term {
        coef: term.coef,
        lit: Lit::new(term.lit.var() - games, term.lit.positive()),
    }
}
