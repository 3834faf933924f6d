//! How clauses are forgotten: the search goes on with another trail, which has behind its rows the clauses that are still
//! kept. The log has the steps of all.
ghost use Rattle.std.specs.Prelude.{◌≡◌, ◌<◌, ◌++◌, [], false, length, map, OnOk};
ghost use Rattle.std.specs.List.{All};
ghost use Rattle.propagate.specs.Trails.{KnowsVariables};
ghost use Rattle.refutation.specs.Steps.{is_linear};
ghost use Rattle.clause_search.specs.Kept.{steps_at};
ghost use Rattle.clause_search.specs.News.{IsTidy, row_of};
ghost use Rattle.clause_search.specs.Turns.{IsLightened};

use crate::desk::Desk;
use crate::levels::release_all;
use propagate::Trail;
use refutation::Log;
use rows::RowStore;
use std::alloc::{AllocError, Global};

/// Leaves a trail as it is that has room for all that it keeps. Else some of these clauses are forgotten: then it is one
/// over these rows with those that are left behind them, on which no literal was made true.
///
/// # Errors
/// Only where memory runs out.
pub(crate) fn lighten<'a>(
    alloc: Global,
    rows: &'a RowStore,
    trail: &mut Trail<'a>,
    log: &Log,
    desk: &mut Desk,
) -> Result<(), AllocError>
    requires known { All (KnowsVariables trail.old.vars) rows.now }
    requires vars { desk.old.order.vars ≡ trail.old.vars }
    requires tidy { All (IsTidy trail.old.vars) log.now }
    requires clauses { All (λ step. is_linear step ≡ false) log.now }
    requires there { All (λ place. place < length log.now) desk.old.kept.places.items }
    ensures lightened { OnOk result (IsLightened rows.now log.now (record {
      trail = trail.old;
      kept = desk.old.kept.places.items;
      now = desk.new.kept.places.items;
      room = desk.old.kept.room;
      room_now = desk.new.kept.room;
    }) trail.new) }
    ensures given { desk.new.given ≡ desk.old.given }
    ensures vars { desk.new.order.vars ≡ desk.old.order.vars }
{
    if desk.kept.is_full(desk.order.vars) {
        release_all(trail, &mut desk.order);
        desk.kept
            .forget(alloc, trail, desk.given, log.len() as u64)?;
        renew(alloc, rows, trail, desk.order.vars)?;
        add_clauses(trail, log, &desk.kept.places)?;
        return Ok(());
    }
    Ok(())
}

/// Makes a trail one over these rows with so many variables, on which no literal was made true.
///
/// # Errors
/// Only where memory runs out.
fn renew<'a>(
    alloc: Global,
    rows: &'a RowStore,
    trail: &mut Trail<'a>,
    vars: u32,
) -> Result<(), AllocError>
    requires { All (KnowsVariables vars) rows.now }
    ensures { OnOk result (trail.new ≡ record { vars = vars; rows = rows.now; entries = [] }) }
{
    let bare = Trail::new(alloc, rows, vars)?;
    *trail = bare;
    Ok(())
}

/// Adds the clauses of the steps at these places behind the rows of a trail.
///
/// # Errors
/// Only where memory runs out.
fn add_clauses(trail: &mut Trail, log: &Log, places: &[usize]) -> Result<(), AllocError>
    requires tidy { All (IsTidy trail.old.vars) log.now }
    requires clauses { All (λ step. is_linear step ≡ false) log.now }
    requires there { All (λ place. place < length log.now) places.now }
    ensures { OnOk result
        (trail.new ≡ record trail.old { rows = trail.old.rows ++ map row_of (steps_at log.now places.now) }) }
{
    for place in places {
        let _number = trail.add(log.clause(*place))?;
    }
    Ok(())
}
