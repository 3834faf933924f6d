//! The bound rows of a league and a bound.
ghost use Rattle.std.specs.Prelude.{◌≡◌, ◌≤◌, IfOk};
ghost use Rattle.league.specs.Instance.{IsInstance};
ghost use Rattle.encoding.specs.Known.{AreKnown};
ghost use Rattle.bound_rows.specs.BoundRows.{bound_rows, bound_vars};
ghost use Rattle.bound_rows.specs.Bounded.{IsCounted};

use crate::written::{Written, write_bound};
use league::League;
use rows::RowStore;
use std::alloc::{AllocError, Global};
use std::marker::Model;

/// The bound rows of a league and a bound on the objective: seen as these two. It keeps a copy of the league.
pub struct BoundSystem {
    league: League,
    bound: u64,
    rows: RowStore,
    vars: u32,
}

impl Drop for BoundSystem {
    fn drop(self) {
        let BoundSystem {
            league: _,
            bound: _,
            rows: _,
            vars: _,
        } = self;
    }
}

impl Model for BoundSystem {
    ghost use Rattle.bound_rows.specs.Bounded.{Bounded, IsSystem};

    ghost Value = { Bounded };

    ghost view = { λ s. record { league = s.league; bound = s.bound } };

    ghost invariant = { λ s. IsSystem s.league s.bound s.rows s.vars };
}

impl BoundSystem {
    /// The bound rows: those of the league, the softened rows of each group, the objective row, and those that order
    /// the units of each group.
    pub fn rows(&self) -> &RowStore
        ensures { result.now ≡ bound_rows self.now.league self.now.bound }
    {
        &self.rows
    }

    /// The number of variables: those of the league, and then the units.
    pub fn vars(&self) -> u32
        ensures vars { result ≡ bound_vars self.now.league }
        ensures at_most { result ≤ 40130960 }
        ensures instance { IsInstance self.now.league }

        // The rows speak of no other variables.
        ensures known { AreKnown (bound_vars self.now.league) (bound_rows self.now.league self.now.bound) }
    {
        self.vars
    }
}

/// The bound rows of a league and a bound. `terms` is how many terms they have, as `bound_terms` counted them before.
/// Room is made for that number, which is the same for every bound.
///
/// # Errors
/// Only where memory runs out.
pub fn bound_system(
    alloc: Global,
    league: &League,
    bound: u64,
    terms: u64,
) -> Result<BoundSystem, AllocError>
    requires { IsCounted league.now terms }
    ensures { IfOk result (λ system. system ≡ record { league = league.now; bound = bound }) }
{
    let Written { rows, vars } = write_bound(alloc, league, bound, terms)?;
    let league = league.copy()?;
    Ok(BoundSystem {
        league,
        bound,
        rows,
        vars,
    })
}
