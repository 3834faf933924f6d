//! All rows of a league.
ghost use Rattle.std.specs.Prelude.{◌≡◌, ◌+◌, ◌*◌, ◌^◌, ◌<◌, ◌≤◌, ◌++◌, [], length, IfOk, IsTrue, OnOk};
ghost use Rattle.std.specs.List.{All};
ghost use Rattle.league.specs.Instance.{IsTeamCount, class_fits};
ghost use Rattle.encoding.specs.Encoding as encoding;
ghost use Rattle.encoding.specs.Encoding.{constraint_rows, rows_of};
ghost use Rattle.encoding.specs.RowRanges.{first_rows, starts_behind};
ghost use Rattle.encoding.specs.Season.{break_rows};

use crate::break_rows::add_break_rows;
use crate::demands::add_class_rows;
use crate::draft::Draft;
use crate::room::rows_at_most;
use crate::season::Season;
use crate::season_rows::{
    add_cell_rows, add_half_rows, add_meeting_rows, add_slot_rows, add_team_rows,
};
use crate::variables::has_breaks;
use crate::venue_rows::add_venue_rows;
use league::{Class, Constraint, League};
use rows::RowStore;
use std::alloc::{AllocError, Global};

/// The rows of a league, and whose they are.
#[derive(Drop)]
pub struct Written {
    /// The rows in order.
    pub rows: RowStore,
    /// The places, from 0, at which the rows of each constraint begin, soft ones too. Behind them stands the place at
    /// which the rows of the last constraint end.
    pub starts: Vec<usize>,
}

/// The rows of a league, in order, and where those of each constraint begin. Room is made for so many terms before any
/// row is written: they should be as many as the rows have, but no claim rests on it.
///
/// # Errors
/// Only where memory runs out.
pub fn write_rows(alloc: Global, league: &League, terms: u64) -> Result<Written, AllocError>
    ensures rows { IfOk result (λ written. written.rows ≡ rows_of league.now) }
    ensures starts { IfOk result (λ written. written.starts.items ≡ first_rows league.now) }
{
    write_with(alloc, league, has_breaks(league.constraints()), terms)
}

/// The rows of a league, in order, where breaks have variables if it is said so, whatever the hard constraints bound.
///
/// # Errors
/// Only where memory runs out.
pub fn write_rows_with(
    alloc: Global,
    league: &League,
    breaks: bool,
    terms: u64,
) -> Result<RowStore, AllocError>
    ensures rows { IfOk result (λ rows. rows ≡ encoding.season_rows league.now.n league.now.phased
        ++ break_rows league.now.n breaks ++ constraint_rows league.now.n league.now.constraints) }
    ensures few { IfOk result (λ rows. length rows ≤ 2433640000) }
{
    let Written {
        rows,
        starts: _starts,
    } = write_with(alloc, league, breaks, terms)?;
    Ok(rows)
}

/// The rows of a league with variables for breaks, if it is said so, and where those of each constraint begin.
///
/// # Errors
/// Only where memory runs out.
fn write_with(
    alloc: Global,
    league: &League,
    breaks: bool,
    terms: u64,
) -> Result<Written, AllocError>
    ensures rows { IfOk result (λ written. written.rows ≡ encoding.season_rows league.now.n league.now.phased
        ++ break_rows league.now.n breaks ++ constraint_rows league.now.n league.now.constraints) }
    ensures few { IfOk result (λ written. length written.rows ≤ 2433640000) }
    ensures starts { IfOk result (λ written. written.starts.items
        ≡ starts_behind (length (encoding.season_rows league.now.n league.now.phased ++ break_rows league.now.n breaks))
        league.now.n league.now.constraints) }
{
    let n = league.n();
    let room = rows_at_most(n, league.constraints(), terms);
    let rows = RowStore::with_room(alloc, room, terms as usize)?;
    let mut draft = Draft::with_room(alloc, rows, n)?;
    let starts = add_all_rows(&mut draft, alloc, league, breaks)?;
    let Draft {
        rows,
        literals: _literals,
        terms: _terms,
    } = draft;
    Ok(Written { rows, starts })
}

/// Adds all rows of a league to a draft that has none, with variables for breaks, if it is said so. It gives the places
/// at which the rows of each constraint begin, soft ones too, and at the end the place behind the last row.
fn add_all_rows(
    draft: &mut Draft,
    alloc: Global,
    league: &League,
    breaks: bool,
) -> Result<Vec<usize>, AllocError>
    requires { draft.old.rows ≡ [] }
    ensures rows { OnOk result (draft.new.rows ≡ encoding.season_rows league.now.n league.now.phased
        ++ break_rows league.now.n breaks ++ constraint_rows league.now.n league.now.constraints) }
    ensures few { OnOk result (length draft.new.rows ≤ 2433640000) }
    ensures starts { IfOk result (λ starts. starts.items
        ≡ starts_behind (length (encoding.season_rows league.now.n league.now.phased ++ break_rows league.now.n breaks))
        league.now.n league.now.constraints) }
{
    let season = Season::new(alloc, league.n())?;
    add_season_rows(draft, alloc, &season, league.phased())?;
    add_break_rows(draft, &season, breaks)?;
    add_constraint_rows(draft, alloc, &season, league.constraints())
}

/// The rows of a class that fits a league of n teams, key by key, without those that demand nothing.
///
/// # Errors
/// Only where memory runs out.
pub fn write_class(alloc: Global, season: &Season, class: &Class) -> Result<RowStore, AllocError>
    requires { IsTrue (class_fits season.now class.now) }
    ensures { IfOk result (λ rows. rows ≡ encoding.class_rows season.now class.now) }
{
    let _n = season.n();
    let mut draft = Draft::new(alloc);
    add_class_rows(&mut draft, alloc, season, class)?;
    let Draft {
        rows,
        literals: _literals,
        terms: _terms,
    } = draft;
    Ok(rows)
}

/// Adds groups 1 to 6.
fn add_season_rows(
    draft: &mut Draft,
    alloc: Global,
    season: &Season,
    phased: bool,
) -> Result<(), AllocError>
    requires { length draft.old.rows ≡ 0 }
    ensures rows { OnOk result (draft.new.rows ≡ draft.old.rows ++ encoding.season_rows season.now phased) }
    ensures few { OnOk result (length draft.new.rows ≤ 20000) }
{
    add_meeting_rows(draft, season)?;
    add_cell_rows(draft, alloc, season)?;
    add_half_rows(draft, alloc, season, phased)?;
    add_venue_rows(draft, alloc, season)?;
    add_slot_rows(draft, season)?;
    add_team_rows(draft, season)?;
    Ok(())
}

/// Adds the rows of the hard constraints. It gives the places at which the rows of each constraint begin, soft ones too,
/// and at the end the place behind the last row.
fn add_constraint_rows(
    draft: &mut Draft,
    alloc: Global,
    season: &Season,
    constraints: &[Constraint],
) -> Result<Vec<usize>, AllocError>
    requires n { IsTeamCount season.now }
    requires fit { All (λ c. IsTrue (class_fits season.now c.class)) constraints.now }
    requires few { length constraints.now ≤ 20000 }
    requires room { length draft.old.rows ≤ 40000 }
    ensures rows { OnOk result
        (draft.new.rows ≡ draft.old.rows ++ constraint_rows season.now constraints.now) }
    ensures few { OnOk result
        (length draft.new.rows ≤ length draft.old.rows + 121680 * length constraints.now) }
    ensures starts { IfOk result (λ starts.
        starts.items ≡ starts_behind (length draft.old.rows) season.now constraints.now) }
{
    let mut starts = Vec::with_capacity(alloc, constraints.len() + 1)?;
    for constraint in constraints {
        starts.push(draft.rows.len())?;
        if constraint.hard {
            add_class_rows(draft, alloc, season, &constraint.class)?;
        }
    }
    starts.push(draft.rows.len())?;
    Ok(starts)
}
