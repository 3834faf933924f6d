//! How many terms the bound rows of a league have. They are counted by formulas, and no row is written.
ghost use Rattle.std.specs.Prelude.{◌≡◌, ◌+◌, ◌*◌, ◌^◌, ◌<◌, ◌≤◌, [], ◌∷◌, length, IsTrue};
ghost use Rattle.std.specs.List.{All};
ghost use Rattle.league.specs.Instance.{IsTeamCount, class_fits};
ghost use Rattle.rows.specs.Rows.{size_of};
ghost use Rattle.encoding.specs.Encoding as encoding;
ghost use Rattle.bound_rows.specs.BoundRows as bounds;
ghost use Rattle.bound_rows.specs.Bounded.{IsCounted};
ghost use Rattle.bound_rows.specs.Sizes as sizes;
ghost use Rattle.encoding.specs.Limit.{most_terms};

use crate::base::{is_paid, needs_breaks};
use crate::sizes::class_terms;
use encoding::{encoding_size, has_breaks};
use league::{Constraint, League};

/// How many terms the bound rows of a league have. Their number is the same for every bound, and below 2^64 for every
/// league. The count takes no memory.
///
/// This is the test of what `bound_system` requires: if the answer is at most `MOST_TERMS`, the league is counted.
pub fn bound_terms(league: &League) -> u64
    ensures terms { result ≡ bounds.bound_size league.now }
    ensures counted { result ≤ most_terms → IsCounted league.now result }
{
    let base = encoding_size(league) + more_terms(league);
    let paid = paid_terms(league.n(), league.constraints());
    base + paid
}

/// How many terms the rows of breaks have that a league's own encoding lacks: those of a league in which soft
/// constraints bound breaks and no hard one does.
fn more_terms(league: &League) -> u64
    ensures terms { encoding.encoding_size league.now + result ≡ size_of (bounds.base_rows league.now) }
    ensures most { result ≤ 50000 }
{
    let constraints = league.constraints();
    let n = u64::from(league.n());
    if needs_breaks(constraints) && !has_breaks(constraints) {
        n * ((2 * (n - 1) - 1) * 14)
    } else {
        0
    }
}

/// How many terms the groups of the constraints have that are paid for.
fn paid_terms(n: u16, constraints: &[Constraint]) -> u64
    requires n { IsTeamCount n }
    requires fit { All (λ c. IsTrue (class_fits n c.class)) constraints.now }
    requires few { length constraints.now ≤ 20000 }
    ensures terms { result ≡ sizes.paid_size n constraints.now }
    ensures most { result ≤ 600000000000000 * length constraints.now }
    ensures small { All (λ c. c.penalty < 2 ^ 32) constraints.now }
{
    let mut total = 0;
    for constraint in constraints {
        total += terms_if_paid(n, constraint);
    }
    total
}

/// How many terms the groups of one constraint have: none if it isn't paid for.
fn terms_if_paid(n: u16, constraint: &Constraint) -> u64
    requires n { IsTeamCount n }
    requires fits { IsTrue (class_fits n constraint.now.class) }
    ensures terms { result ≡ sizes.paid_size n (constraint.now ∷ []) }
    ensures most { result ≤ 600000000000000 }
    ensures small { constraint.now.penalty < 2 ^ 32 }
{
    if is_paid(constraint) {
        class_terms(n, &constraint.class)
    } else {
        0
    }
}
