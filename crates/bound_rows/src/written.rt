//! All bound rows of a league.
ghost use Rattle.std.specs.Prelude.{◌≡◌, ◌+◌, ◌^◌, ◌<◌, ◌≤◌, ◌++◌, [], ◌∷◌, map, length, IfOk};
ghost use Rattle.std.specs.List.{All};
ghost use Rattle.bound_rows.specs.BoundRows as bounds;
ghost use Rattle.bound_rows.specs.Softening.{objective_row, order_rows, softened_rows};
ghost use Rattle.bound_rows.specs.Bare.{bare_groups, unit_total};
ghost use Rattle.bound_rows.specs.Drafts.{rows_in, stripped, units_in};
ghost use Rattle.encoding.specs.Limit.{most_terms};

use crate::base::{base_vars, needs_breaks};
use crate::draft::{Draft, add_paid};
use crate::{push_objective, push_orders};
use encoding::{Season, write_rows_with};
use league::League;
use rows::RowStore;
use std::alloc::{AllocError, Global};

/// Rows, and how many variables they have.
#[derive(Drop)]
pub(crate) struct Written {
    pub(crate) rows: RowStore,
    pub(crate) vars: u32,
}

/// The bound rows of a league. Room is made for all `terms` terms before any row is written.
pub(crate) fn write_bound(
    alloc: Global,
    league: &League,
    bound: u64,
    terms: u64,
) -> Result<Written, AllocError>
    requires { bounds.bound_size league.now ≤ most_terms }
    ensures rows { IfOk result (λ written. written.rows ≡ bounds.bound_rows league.now bound) }
    ensures vars { IfOk result (λ written. written.vars ≡ bounds.bound_vars league.now) }
    ensures few { IfOk result (λ written. written.vars ≤ 40130960) }
{
    let first = base_vars(league) + 1;
    let draft = softened(alloc, league, first, terms)?;
    let written = finished(alloc, draft, first, bound)?;
    Ok(written)
}

/// The rows of the league and of the groups.
fn softened(alloc: Global, league: &League, first: u32, terms: u64) -> Result<Draft, AllocError>
    requires size { bounds.bound_size league.now ≤ most_terms }
    requires first { first ≡ bounds.first_unit league.now }
    requires few { first ≤ 130961 }
    ensures rows { IfOk result (λ draft. draft.rows
        ≡ bounds.base_rows league.now ++ softened_rows first (bounds.league_groups league.now)) }
    ensures kept { IfOk result (λ draft.
        bare_groups draft.groups.items ≡ map stripped (bounds.league_groups league.now)) }
    ensures next { IfOk result (λ draft. draft.next ≡ first + units_in (bounds.league_groups league.now)) }
    ensures count { IfOk result (λ draft.
        length draft.rows ≤ 2433640000 + rows_in (bounds.league_groups league.now)) }
{
    let mut draft = base(alloc, league, first, terms)?;
    let season = Season::new(alloc, league.n())?;
    add_paid(&mut draft, alloc, &season, league.constraints())?;
    Ok(draft)
}

/// The rows of the league, with no group yet.
fn base(alloc: Global, league: &League, first: u32, terms: u64) -> Result<Draft, AllocError>
    ensures rows { IfOk result (λ draft. draft.rows ≡ bounds.base_rows league.now) }
    ensures none { IfOk result (λ draft. draft.groups.items ≡ []) }
    ensures next { IfOk result (λ draft. draft.next ≡ first) }
    ensures count { IfOk result (λ draft. length draft.rows ≤ 2433640000) }
{
    let breaks = needs_breaks(league.constraints());
    let rows = write_rows_with(alloc, league, breaks, terms)?;
    Ok(Draft {
        rows,
        groups: Vec::new(alloc),
        next: first,
    })
}

/// Some rows, and behind them the objective row and the rows that order the units.
fn finished(alloc: Global, draft: Draft, first: u32, bound: u64) -> Result<Written, AllocError>
    requires first { 1 ≤ first }
    requires last { first + unit_total draft.groups.items ≤ 2147483648 }
    requires paid { All (λ u. 1 ≤ u.penalty) draft.groups.items }
    requires room { length draft.rows + unit_total draft.groups.items + 1 < 2 ^ 32 }
    requires next { 1 ≤ draft.next }
    ensures rows { IfOk result (λ written. written.rows
        ≡ draft.rows ++ objective_row first (bare_groups draft.groups.items) bound ∷ []
        ++ order_rows first (bare_groups draft.groups.items)) }
    ensures vars { IfOk result (λ written. written.vars + 1 ≡ draft.next) }
{
    let Draft {
        mut rows,
        groups,
        next,
    } = draft;
    push_objective(&mut rows, alloc, &groups, first, bound)?;
    push_orders(&mut rows, &groups, first)?;
    Ok(Written {
        rows,
        vars: next - 1,
    })
}
