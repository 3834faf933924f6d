//! How many terms the rows of a league have. They are counted and not written, which takes no memory.
ghost use Rattle.std.specs.Prelude.{◌≡◌, ◌*◌, ◌≤◌, length, IsTrue};
ghost use Rattle.std.specs.List.{All};
ghost use Rattle.league.specs.Instance.{IsTeamCount, class_fits};
ghost use Rattle.rows.specs.Rows.{size_of};
ghost use Rattle.encoding.specs.Encoding as encoding;
ghost use Rattle.encoding.specs.Season as season_rows;

use crate::sizes::class_terms;
use crate::variables::has_breaks;
use league::{Constraint, League};

/// How many terms the rows of a league have. It takes no memory.
pub fn encoding_size(league: &League) -> u64
    ensures terms { result ≡ encoding.encoding_size league.now }
    ensures most { result ≤ 1000000000000 }
{
    let n = league.n();
    let constraints = league.constraints();
    let teams = u64::from(n);
    let season = season_terms(teams, league.phased());
    let breaks = break_terms(teams, has_breaks(constraints));
    let hard = hard_terms(n, constraints);
    season + breaks + hard
}

/// How many terms the rows of groups 1 to 6 have.
fn season_terms(n: u64, phased: bool) -> u64
    requires { IsTeamCount n }
    ensures terms { result ≡ size_of (encoding.season_rows n phased) }
    ensures at_most { result ≤ 2000000 }
{
    let slots = 2 * (n - 1);
    let meetings = n * (n - 1) * (2 * slots);
    let cells = n * (slots * (4 * (n - 1)));
    let venues = n * (slots * (2 * n));
    let balance = slots * (2 * n) + n * (2 * slots);
    meetings + cells + half_terms(n, phased) + venues + balance
}

/// How many terms the rows of group 3 have.
fn half_terms(n: u64, phased: bool) -> u64
    requires { IsTeamCount n }
    ensures terms { result ≡ size_of (season_rows.half_rows n phased) }
    ensures at_most { result ≤ 121680 }
{
    if phased {
        n * (n - 1) / 2 * (4 * (n - 1))
    } else {
        0
    }
}

/// How many terms the rows of group 7 have.
fn break_terms(n: u64, breaks: bool) -> u64
    requires { IsTeamCount n }
    ensures terms { result ≡ size_of (season_rows.break_rows n breaks) }
    ensures at_most { result ≤ 50000 }
{
    if breaks {
        let slots = 2 * (n - 1);
        n * ((slots - 1) * 14)
    } else {
        0
    }
}

/// How many terms the rows of the hard constraints have.
fn hard_terms(n: u16, constraints: &[Constraint]) -> u64
    requires n { IsTeamCount n }
    requires fit { All (λ c. IsTrue (class_fits n c.class)) constraints.now }
    requires few { length constraints.now ≤ 20000 }
    ensures terms { result ≡ size_of (encoding.constraint_rows n constraints.now) }
    ensures at_most { result ≤ 40000000 * length constraints.now }
{
    let mut terms = 0;
    for constraint in constraints {
        if constraint.hard {
            terms += class_terms(n, &constraint.class);
        }
    }
    terms
}
