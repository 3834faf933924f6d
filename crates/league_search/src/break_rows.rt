//! The sums that give rows of breaks.
ghost use Rattle.std.specs.Prelude.{◌≡◌, ◌≤◌, IfOk};
ghost use Rattle.std.specs.List.{All};
ghost use Rattle.league_search.specs.Balances as balances;

use break_counts::{Frame, Writer};
use encoding::Encoding;
use league::{Class, Constraint};
use refutation::{Log, Part};
use std::alloc::{AllocError, Global};

/// How a team's venue at a slot goes with that in the slot before, on a side.
#[derive(Clone, Copy)]
struct Change {
    team: u16,
    slot: u16,
    home: bool,
}

/// The numbers of two rows of each slot but the first, from the last slot on: at least as many home breaks as away breaks,
/// and at least as many away breaks.
#[derive(Drop)]
struct Balances {
    home: Vec<u64>,
    away: Vec<u64>,
}

/// The sums over a league's rows that say of its breaks:
///
/// - where a team plays at home, no other team is at home against it;
/// - in each slot there are as many home breaks as away breaks;
/// - where a BR2 bounds the breaks of all teams, at most half of its bound are home breaks, and as many away breaks.
///
/// # Errors
/// Only where memory runs out.
pub(crate) fn break_sums(alloc: Global, encoding: &Encoding) -> Result<Log, AllocError> {
    let league = encoding.league();
    let frame = Frame::new(league);
    let mut writer = Writer::new(alloc, encoding.rows().len() as u64);
    add_visits(alloc, &mut writer, frame)?;
    let balances = add_balances(alloc, &mut writer, frame)?;
    let constraints = league.constraints();
    for k in 0..constraints.len() {
        let constraint = &constraints[k];
        let rows = encoding.rows_of_constraint(k);
        if rows.start < rows.end {
            add_halves(
                alloc,
                &mut writer,
                frame,
                &balances,
                constraint,
                rows.start as u64 + 1,
            )?;
        }
    }
    Ok(writer.finish())
}

/// Adds, for each team in each slot: it is not at home, or no other team is at home against it.
///
/// # Errors
/// Only where memory runs out.
fn add_visits(alloc: Global, writer: &mut Writer, frame: Frame) -> Result<(), AllocError> {
    for team in 0..frame.n {
        for slot in 0..frame.slots {
            let rows = [frame.venue(team, slot), frame.one_game(team, slot)];
            add_sum(alloc, writer, &rows, 1)?;
        }
    }
    Ok(())
}

/// Adds, for each slot, that there are as many home breaks as away breaks. The last slot comes first: with that order more
/// searches end within their limit.
///
/// # Errors
/// Only where memory runs out.
fn add_balances(alloc: Global, writer: &mut Writer, frame: Frame) -> Result<Balances, AllocError> {
    let mut balances = Balances {
        home: Vec::new(alloc),
        away: Vec::new(alloc),
    };
    for slot in (1..frame.slots).rev() {
        let home = add_balance(alloc, writer, frame, slot, true)?;
        balances.home.push(home)?;
        let away = add_balance(alloc, writer, frame, slot, false)?;
        balances.away.push(away)?;
    }
    Ok(balances)
}

/// Adds that a slot has at least as many home breaks as away breaks, or at least as many away breaks, and gives the
/// number of that row.
///
/// # Errors
/// Only where memory runs out.
fn add_balance(
    alloc: Global,
    writer: &mut Writer,
    frame: Frame,
    slot: u16,
    home: bool,
) -> Result<u64, AllocError> {
    let changes = changes_at(alloc, frame.n, slot, home)?;
    add_changes(alloc, writer, frame, &changes, slot, home)
}

/// The changes of all teams at a slot, on a side.
///
/// # Errors
/// Only where memory runs out.
fn changes_at(alloc: Global, n: u16, slot: u16, home: bool) -> Result<Vec<Change>, AllocError>
    ensures { IfOk result (λ changes. changes.items ≡ balances.changes_at n slot home) }
{
    let mut changes = Vec::new(alloc);
    for team in 0..n {
        changes.push(Change { team, slot, home })?;
    }
    Ok(changes)
}

/// Adds the changes of all teams at a slot, on a side, and their sum with the rows of the slot and of the slot before, and
/// gives the number of that row.
///
/// # Errors
/// Only where memory runs out.
fn add_changes(
    alloc: Global,
    writer: &mut Writer,
    frame: Frame,
    changes: &[Change],
    slot: u16,
    home: bool,
) -> Result<u64, AllocError>
    requires { changes.now ≡ balances.changes_at frame.n slot home }
{
    let mut rows = Vec::new(alloc);
    for change in changes {
        let number = add_change(alloc, writer, frame, *change)?;
        rows.push(number)?;
    }
    rows.push(slot_row(frame, slot.saturating_sub(1), home))?;
    rows.push(slot_row(frame, slot, home))?;
    add_sum(alloc, writer, &rows, 1)
}

/// Adds that a team's home breaks at a slot, less its away breaks, are at least its home games there and in the slot
/// before, less one; or the same of the other side.
///
/// # Errors
/// Only where memory runs out.
fn add_change(
    alloc: Global,
    writer: &mut Writer,
    frame: Frame,
    change: Change,
) -> Result<u64, AllocError> {
    let third = frame.home_break(change.team, change.slot);
    let rows = if change.home {
        [third, third + 1, third + 2]
    } else {
        [third + 3, third.saturating_sub(2), third.saturating_sub(1)]
    };
    add_sum(alloc, writer, &rows, 2)
}

/// The number of the row that says: at least half of the teams are at home in a slot, or away.
fn slot_row(frame: Frame, slot: u16, home: bool) -> u64 {
    let last = frame.venue(frame.n.saturating_sub(1), frame.slots.saturating_sub(1));
    let first = last + 2 + 2 * u64::from(slot);
    if home { first } else { first + 1 }
}

/// Adds, where the row with this number is that of a BR2 of all teams: at most half of its bound are home breaks, and at
/// most half are away breaks.
///
/// # Errors
/// Only where memory runs out.
fn add_halves(
    alloc: Global,
    writer: &mut Writer,
    frame: Frame,
    balances: &Balances,
    constraint: &Constraint,
    number: u64,
) -> Result<(), AllocError> {
    let Class::Br2 {
        teams,
        intp: _,
        slots,
    } = &constraint.class
    else {
        return Ok(());
    };
    if teams.numbers().len() < usize::from(frame.n) {
        return Ok(());
    }
    add_half(
        alloc,
        writer,
        frame,
        &balances.home,
        slots.numbers(),
        number,
    )?;
    add_half(
        alloc,
        writer,
        frame,
        &balances.away,
        slots.numbers(),
        number,
    )?;
    Ok(())
}

/// Adds the half of a bound of the breaks in some slots, by the rows of these slots. The first slot has none.
///
/// # Errors
/// Only where memory runs out.
fn add_half(
    alloc: Global,
    writer: &mut Writer,
    frame: Frame,
    balances: &[u64],
    slots: &[u16],
    number: u64,
) -> Result<(), AllocError> {
    let mut rows = Vec::new(alloc);
    rows.push(number)?;
    for slot in slots {
        let later = frame.slots.saturating_sub(1).saturating_sub(*slot);
        if let Some(row) = balances.get(usize::from(later)) {
            rows.push(*row)?;
        }
    }
    add_sum(alloc, writer, &rows, 2)?;
    Ok(())
}

/// Adds the sum of these rows, divided, and gives the number of its row.
///
/// # Errors
/// Only where memory runs out.
fn add_sum(
    alloc: Global,
    writer: &mut Writer,
    rows: &[u64],
    divisor: u64,
) -> Result<u64, AllocError>
    requires { 1 ≤ divisor }
{
    let mut parts = Vec::with_capacity(alloc, rows.len())?;
    for row in rows {
        parts.push(Part {
            factor: 1,
            row: *row,
        })?;
    }
    writer.sum(&parts, divisor)
}
