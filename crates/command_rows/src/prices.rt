//! What the units cost, as a sum that is to be least: the prices are read off the objective row.
ghost use Rattle.std.specs.Prelude.{◌≡◌, ◌≤◌, IfOk};
ghost use Rattle.std.specs.List.{All};
ghost use Rattle.bound_rows.specs.BoundRows.{first_unit, league_groups};
ghost use Rattle.bound_rows.specs.Softening as softening;
ghost use Rattle.command_rows.specs.Rowed as rowed;
ghost use Rattle.command_rows.specs.SeenRows as seen;

use bound_rows::BoundSystem;
use rows::Term;
use std::alloc::{AllocError, Global};

/// Whether the first of some terms has a positive literal.
fn begins_positive(terms: &[Term]) -> bool
    ensures { result ≡ seen.begins_positive terms.now }
{
    match terms {
        [] => false,
        [term, ..] => term.lit.positive(),
    }
}

/// The terms of the objective row. Behind it stand only rows that order units, and these begin with a positive literal;
/// the objective row doesn't.
fn costs(system: &BoundSystem) -> &[Term]
    ensures terms { result.now
        ≡ softening.costs (first_unit system.now.league) (league_groups system.now.league) }
    ensures coefs { All (λ t. 1 ≤ t.coef) result.now }
{
    let rows = system.rows();
    let mut place = rows.len() - 1;
    'back: while begins_positive(rows.terms(place)) {
        place -= 1;
    }
    rows.terms(place)
}

/// The unit variables with what each costs.
pub(crate) fn prices(alloc: Global, system: &BoundSystem) -> Result<Vec<Term>, AllocError>
    ensures prices { IfOk result (λ terms. terms.items ≡ rowed.prices system.now.league) }
    ensures coefs { IfOk result (λ terms. All (λ t. 1 ≤ t.coef) terms.items) }
{
    let terms = costs(system);
    let mut prices = Vec::new(alloc);
    for term in terms {
        prices.push(Term {
            coef: term.coef,
            lit: term.lit.negate(),
        })?;
    }
    Ok(prices)
}
