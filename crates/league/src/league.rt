//! A league: what an instance file says.
ghost use Rattle.std.specs.Prelude.{◌≡◌, ◌≤◌, ◌↔◌, length, IfOk, IsTrue};
ghost use Rattle.std.specs.List.{All};
ghost use Rattle.league.specs.Counts as counts;
ghost use Rattle.league.specs.Instance.{IsInstance, IsTeamCount, class_fits};
ghost use Rattle.league.specs.Instance as instance;

use crate::class::Constraint;
use std::alloc::AllocError;
use std::marker::Model;

/// Whether a league may have n teams: an even number from 2 to 40 (own limits). It is the test of what `League::new`
/// requires.
pub fn is_team_count(n: u64) -> bool
    ensures test { result ≡ instance.is_team_count n }
    ensures teams { IsTrue result ↔ IsTeamCount n }
{
    n % 2 == 0 && 2 <= n && n <= 40
}

/// The number of slots of a double round robin of n teams, n at most 40: 2(n - 1), and 0 of no team.
pub fn slot_count(n: u16) -> u16
    requires { n ≤ 40 }
    ensures { result ≡ counts.slot_count n }
{
    2 * n.saturating_sub(1)
}

/// A compact double round robin of n teams, perhaps phased, with constraints in file order.
#[derive(Drop)]
pub struct League {
    n: u16,
    phased: bool,
    constraints: Vec<Constraint>,
}

impl Model for League {
    ghost use Rattle.league.specs.Instance.{Instance, IsInstance};

    ghost Value = { Instance };

    ghost view = { λ l. record { n = l.n; phased = l.phased; constraints = l.constraints.items } };

    ghost invariant = { λ l. IsInstance (record { n = l.n; phased = l.phased; constraints = l.constraints.items }) };
}

impl League {
    /// The league of n teams, n even and from 2 to 40, with these constraints, at most 20,000, each of which fits n. It
    /// takes no memory.
    pub fn new(n: u16, phased: bool, constraints: Vec<Constraint>) -> League
        requires teams { IsTeamCount n }
        requires few { length constraints.items ≤ 20000 }
        requires fit { All (λ c. IsTrue (class_fits n c.class)) constraints.items }
        ensures { result ≡ record { n = n; phased = phased; constraints = constraints.items } }
    {
        League {
            n,
            phased,
            constraints,
        }
    }

    /// The number of teams: even, from 2 to 40.
    pub fn n(&self) -> u16
        ensures n { result ≡ self.now.n }
        ensures instance { IsInstance self.now }
    {
        self.n
    }

    /// The number of slots of the season: 2(n - 1).
    pub fn slots(&self) -> u16
        ensures { result ≡ counts.slot_count self.now.n }
    {
        slot_count(self.n)
    }

    /// Whether each two teams meet once in each half of the season.
    pub fn phased(&self) -> bool
        ensures { result ≡ self.now.phased }
    {
        self.phased
    }

    /// The constraints in file order.
    pub fn constraints(&self) -> &[Constraint]
        ensures { result.now ≡ self.now.constraints }
    {
        &self.constraints
    }

    /// An equal league, with constraints of its own. Their memory is from where this one's is.
    ///
    /// # Errors
    /// Only where memory runs out.
    pub fn copy(&self) -> Result<League, AllocError>
        ensures { IfOk result (λ copy. copy ≡ self.now) }
    {
        let mut constraints = Vec::with_capacity(
            *self.constraints.allocator(),
            self.constraints.len(),
        )?;
        for constraint in &self.constraints {
            constraints.push(constraint.copy()?)?;
        }
        Ok(League {
            n: self.n,
            phased: self.phased,
            constraints,
        })
    }
}
