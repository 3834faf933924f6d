//! The log of a floor.
ghost use Rattle.std.specs.Prelude.{◌≡◌, IsTrue};
ghost use Rattle.std.specs.List.{All};
ghost use Rattle.league.specs.Instance.{are_teams, class_fits};

use crate::breaks::add_breaks;
use crate::draft::Draft;
use crate::gaps::add_gaps;
use crate::groups::{Softened, row_count, rows_before_units};
use crate::laws::{counted_stretches, least_units};
use crate::summands::Summands;
use crate::windows::Windows;
use bound_rows::{base_vars, is_paid};
use break_counts::{Frame, Writer};
use encoding::{Season, team_numbers};
use league::{Class, Constraint, League, SlotSet, TeamSet};
use refutation::Log;
use rows::RowStore;
use std::alloc::{AllocError, Global};

/// The log that sums what laws say that soft constraints cost at least, over the bound rows of less than that.
///
/// # Errors
/// Only where memory runs out.
pub(crate) fn log_of(alloc: Global, league: &League, rows: &RowStore) -> Result<Log, AllocError> {
    let mut draft = Draft {
        writer: Writer::new(alloc, rows.len() as u64),
        summands: Summands::new(alloc),
    };
    add_steps(alloc, &mut draft, league, rows)?;
    let Draft {
        writer,
        summands: _summands,
    } = draft;
    Ok(writer.finish())
}

/// Adds the sum of the rows of each law and of the objective row, and the empty clause.
fn add_steps(
    alloc: Global,
    draft: &mut Draft,
    league: &League,
    rows: &RowStore,
) -> Result<(), AllocError> {
    let first = rows_before_units(rows, base_vars(league)).saturating_add(1);
    let objective = add_laws(alloc, draft, league, first)?;
    draft.summands.add(1, objective)?;
    let sum = draft.summands.sum(&mut draft.writer, 1)?;
    draft.writer.clause(&[], &[sum])?;
    Ok(())
}

/// Takes the rows of each law, and gives the number of the objective row. `first` is that of the first row with units.
fn add_laws(
    alloc: Global,
    draft: &mut Draft,
    league: &League,
    first: u64,
) -> Result<u64, AllocError> {
    let season = Season::new(alloc, league.n())?;
    add_laws_of(alloc, draft, league, &season, league.constraints(), first)
}

/// Takes the rows of the law of each of these constraints, and gives the number of the row behind those of the last.
fn add_laws_of(
    alloc: Global,
    draft: &mut Draft,
    league: &League,
    season: &Season,
    constraints: &[Constraint],
    first: u64,
) -> Result<u64, AllocError>
    requires season { season.now ≡ league.now.n }
    requires fit { All (λ c. IsTrue (class_fits season.now c.class)) constraints.now }
{
    let mut next = first;
    for constraint in constraints {
        if is_paid(constraint) {
            let softened = Softened {
                penalty: u64::from(constraint.penalty),
                first: next,
                count: row_count(alloc, season, constraint)?,
            };
            add_if_missed(alloc, draft, league, constraint, softened)?;
            next = softened.end();
        }
    }
    Ok(next)
}

/// Takes the rows of the law that says what a soft constraint costs at least, if it costs something.
fn add_if_missed(
    alloc: Global,
    draft: &mut Draft,
    league: &League,
    constraint: &Constraint,
    softened: Softened,
) -> Result<(), AllocError>
    requires { IsTrue (class_fits league.now.n constraint.now.class) }
{
    let class = &constraint.class;
    if least_units(alloc, league, class)? == 0 {
        return Ok(());
    }
    match class {
        Class::Br1 { teams, slots, .. } => {
            add_breaks_at(alloc, draft, league, softened, teams, slots)
        }
        Class::Br2 { teams, slots, .. } => {
            add_breaks_at(alloc, draft, league, softened, teams, slots)
        }
        Class::Se1 { teams: _, min } => add_separation(alloc, draft, league, softened, *min),
        _ => Ok(()),
    }
}

/// Takes the rows of a soft BR1 or BR2 of some teams at some slots, and those of the law of the fewest breaks.
fn add_breaks_at(
    alloc: Global,
    draft: &mut Draft,
    league: &League,
    softened: Softened,
    teams: &TeamSet,
    slots: &SlotSet,
) -> Result<(), AllocError>
    requires { IsTrue (are_teams league.now.n teams.now) }
{
    let frame = Frame::new(league);
    let stretches = counted_stretches(alloc, league, slots)?;
    let teams = team_numbers(frame.n, teams);
    add_breaks(alloc, frame, draft, softened, &stretches, teams)
}

/// Takes what the law of the mean gap says of a soft SE1 of all teams that demands so many slots.
fn add_separation(
    alloc: Global,
    draft: &mut Draft,
    league: &League,
    softened: Softened,
    min: u32,
) -> Result<(), AllocError> {
    let frame = Frame::new(league);
    if frame.n < 4 {
        return Ok(());
    }
    let windows = Windows {
        first: softened.first,
        slots: u64::from(frame.slots),
        min: u64::from(min),
    };
    add_gaps(alloc, frame, draft, softened.penalty, windows)
}
