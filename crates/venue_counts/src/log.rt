//! The log of a group whose teams need more games than there are.
ghost use Rattle.std.specs.Prelude.{◌≡◌, [], ◌∷◌, ◌+◌, ◌^◌, ◌<◌, length, map, IfOk, OnOk, IsTrue};
ghost use Rattle.std.specs.List.{All};
ghost use Rattle.league.specs.Instance.{IsInstance, are_slots};
ghost use Rattle.encoding.specs.Encoding.{rows_of};
ghost use Rattle.refutation.specs.Steps.{NamesRows};
ghost use Rattle.refutation.specs.Steps.Step.{Clause, Linear};
ghost use Rattle.refutation.specs.Writable.{HasShortLines};
ghost use Rattle.venue_counts.specs.CountLogs.{AddsUp, AreNamed, counted_rows, slot_row};
ghost use Rattle.venue_counts.specs.Groups.{IsGroup};
ghost use Rattle.venue_counts.specs.Needs.{counts_home, need_of};

use crate::group::Group;
use crate::limit::Limit;
use crate::numbers::{slot_number, team_number};
use encoding::Encoding;
use refutation::{Log, Part};
use rows::RowStore;
use std::alloc::{AllocError, Global};

/// The log that adds up the rows of a group's slots and those of the teams that need games there, and then says that
/// this is a contradiction.
///
/// # Errors
/// Only where memory runs out.
pub(crate) fn log_of(
    alloc: Global,
    encoding: &Encoding,
    group: &Group,
    limit: Limit,
) -> Result<Log, AllocError>
    requires { IsGroup limit encoding.now.n encoding.now.constraints group.now }
    ensures adds_up { IfOk result (AddsUp (rows_of encoding.now)
        (counted_rows encoding.now.n (counts_home limit group.now.side) group.now.slots.now
        (need_of limit encoding.now.constraints group.now.side group.now.slots.now))) }
    ensures named { IfOk result (All NamesRows) }
    ensures short { IfOk result HasShortLines }
{
    let mut parts = slot_parts(alloc, encoding, group.slots, limit.counts_home(group.side))?;
    add_teams(alloc, encoding, group, limit, &mut parts)?;
    let log = two_steps(alloc, encoding.rows(), &parts)?;
    Ok(log)
}

/// The sum of some rows, and the empty clause, which follows from the sum.
fn two_steps(alloc: Global, rows: &RowStore, parts: &[Part]) -> Result<Log, AllocError>
    requires { All (λ part. part.factor ≡ 1) parts.now }
    ensures steps { IfOk result (λ log.
        log ≡ Linear parts.now 1 ∷ Clause [] ((length rows.now + 1) ∷ []) ∷ []) }
    ensures few { length rows.now < 2 ^ 32 }
{
    let sum = rows.len() as u64 + 1;
    let mut log = Log::new(alloc);
    log.push_linear(parts, 1)?;
    log.push(&[], &[sum])?;
    Ok(log)
}

/// The rows that in each of these slots half of the teams play at home, or away.
fn slot_parts(
    alloc: Global,
    encoding: &Encoding,
    slots: &[u16],
    home: bool,
) -> Result<Vec<Part>, AllocError>
    requires { IsTrue (are_slots encoding.now.n slots.now) }
    ensures { IfOk result (λ parts.
        AreNamed (rows_of encoding.now) parts.items (map (slot_row encoding.now.n home) slots.now)) }
{
    let mut parts = Vec::new(alloc);
    for slot in slots {
        let row = slot_number(encoding, *slot, home);
        parts.push(Part { factor: 1, row })?;
    }
    Ok(parts)
}

/// Adds the rows of the teams that need games.
fn add_teams(
    alloc: Global,
    encoding: &Encoding,
    group: &Group,
    limit: Limit,
    parts: &mut Vec<Part>,
) -> Result<(), AllocError>
    requires group { IsGroup limit encoding.now.n encoding.now.constraints group.now }
    requires slots { AreNamed (rows_of encoding.now) parts.old.items
        (map (slot_row encoding.now.n (counts_home limit group.now.side)) group.now.slots.now) }
    ensures named { OnOk result (AreNamed (rows_of encoding.now) parts.new.items
        (counted_rows encoding.now.n (counts_home limit group.now.side) group.now.slots.now
        (need_of limit encoding.now.constraints group.now.side group.now.slots.now))) }
    ensures instance { IsInstance encoding.now }
{
    for team in 0..encoding.n() {
        let need = group.needs[usize::from(team)];
        if need > 0 {
            let row = team_number(alloc, encoding, group, limit, team)?;
            parts.push(Part { factor: 1, row })?;
        }
    }
    Ok(())
}
