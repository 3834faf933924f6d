//! The law of the mean gap. In a phased league two teams meet once in each half, so that the sum of the gaps of all
//! pairs is known: their mean is n - 1.
ghost use Rattle.std.specs.Prelude.{◌≢◌, ◌<◌, ◌≤◌};

use crate::draft::Draft;
use crate::summands::Summands;
use crate::windows::Windows;
use break_counts::{Frame, Writer};
use encoding::x_at;
use rows::Lit;
use std::alloc::{AllocError, Global};

/// Takes what a soft SE1 of all teams says of each pair, and that each slot has half as many games as teams, once for
/// each unit of cost.
///
/// # Errors
/// Only where memory runs out.
pub(crate) fn add_gaps(
    alloc: Global,
    frame: Frame,
    draft: &mut Draft,
    penalty: u64,
    windows: Windows,
) -> Result<(), AllocError>
    requires { 4 ≤ frame.n }
{
    let mut windows = windows;
    for first in 0..frame.n {
        for second in first + 1..frame.n {
            let row = add_pair(alloc, &mut draft.writer, frame, windows, first, second)?;
            draft.summands.add(penalty, row)?;
            windows = windows.next();
        }
    }
    for slot in 0..frame.slots {
        let row = add_games(alloc, &mut draft.writer, frame, slot)?;
        draft
            .summands
            .add(penalty.saturating_mul(weight(frame, slot)), row)?;
    }
    Ok(())
}

/// The weight of a game in a slot: it grows up to the middle of the season, and falls behind it. Those of both games of
/// two teams sum to 2n - 1 less the slots from one to the other.
fn weight(frame: Frame, slot: u16) -> u64 {
    let after = slot.saturating_add(1);
    u64::from(after.min(frame.slots.saturating_sub(slot)))
}

/// Adds the row that says: each game of two teams counted by its weight, they sum to at most n - 1 and the units that
/// the pair pays.
///
/// A row that counts only how far a game stands within so many slots of the middle is widened by a slot each time: its
/// sum with those of the windows across the middle, divided.
fn add_pair(
    alloc: Global,
    writer: &mut Writer,
    frame: Frame,
    windows: Windows,
    first: u16,
    second: u16,
) -> Result<u64, AllocError>
    requires teams { 4 ≤ frame.n }
    requires order { first < second }
    requires second { second < frame.n }
{
    let early = frame.half(first, second) + 1;
    let late = add_late(alloc, writer, frame, first, second)?;
    let mut row = windows.row(frame, 2, 1);
    for reach in 2..frame.n {
        let times = u64::from(reach) - 1;
        let mut summands = Summands::new(alloc);
        summands.add_all(times, &[row, early, late])?;
        if reach < frame.n - 1 {
            let far = add_far(alloc, writer, frame, (first, second), reach)?;
            summands.add(times, far)?;
        }
        for before in 1..reach + 1 {
            summands.add(1, windows.row(frame, reach + 1, before))?;
        }
        row = summands.sum(writer, u64::from(reach))?;
    }
    Ok(row)
}

/// Adds the row that says: two teams meet no more than once in the second half, since they meet twice and at least once
/// in the first.
fn add_late(
    alloc: Global,
    writer: &mut Writer,
    frame: Frame,
    first: u16,
    second: u16,
) -> Result<u64, AllocError> {
    let mut summands = Summands::new(alloc);
    let rows = [
        frame.meeting(first, second) + 1,
        frame.meeting(second, first) + 1,
        frame.half(first, second),
    ];
    summands.add_all(1, &rows)?;
    summands.sum(writer, 1)
}

/// Adds the row that says nothing of two teams' games further than `reach` slots from the middle: their sum is at least
/// 0. What is summed with it counts them no more. It is made with a meeting elsewhere, which takes place once.
fn add_far(
    alloc: Global,
    writer: &mut Writer,
    frame: Frame,
    pair: (u16, u16),
    reach: u16,
) -> Result<u64, AllocError>
    requires teams { 4 ≤ frame.n }
    requires order { pair.0 < pair.1 }
    requires second { pair.1 < frame.n }
    requires reach { reach < frame.n }
{
    let (first, second) = pair;
    let other = third(first, second);
    let clause = far_clause(alloc, frame, pair, other, reach)?;
    let once = frame.meeting(first, other);
    let row = writer.clause(&clause, &[once])?;
    let mut summands = Summands::new(alloc);
    summands.add_all(1, &[row, once + 1])?;
    summands.sum(writer, 1)
}

/// The literals of which one is true: those of the first team's home games with another, and of all games of the two
/// further than `reach` slots from the middle.
fn far_clause(
    alloc: Global,
    frame: Frame,
    pair: (u16, u16),
    other: u16,
    reach: u16,
) -> Result<Vec<Lit>, AllocError>
    requires order { pair.0 < pair.1 }
    requires second { pair.1 < frame.n }
    requires other { other < frame.n }
    requires differ { other ≢ pair.0 }
    requires reach { reach < frame.n }
{
    let (first, second) = pair;
    let half = frame.n - 1;
    let mut clause = Vec::new(alloc);
    for slot in 0..frame.slots {
        clause.push(game(frame, first, other, slot))?;
    }
    for slot in 0..frame.slots {
        if slot < half - reach || slot >= half + reach {
            clause.push(game(frame, first, second, slot))?;
            clause.push(game(frame, second, first, slot))?;
        }
    }
    Ok(clause)
}

/// A team beside two.
fn third(first: u16, second: u16) -> u16
    requires { first < second }
    ensures first { result ≢ first }
    ensures second { result ≢ second }
    ensures below { result ≤ 2 }
{
    if first > 0 {
        0
    } else if second > 1 {
        1
    } else {
        2
    }
}

/// The literal of a game.
fn game(frame: Frame, home: u16, away: u16, slot: u16) -> Lit
    requires home { home < frame.n }
    requires away { away < frame.n }
    requires differ { home ≢ away }
    requires slot { slot < frame.slots }
{
    Lit::new(x_at(frame.n, home, away, slot), true)
}

/// Adds the row that says: a slot has at least half as many games as teams, since each team has one.
fn add_games(
    alloc: Global,
    writer: &mut Writer,
    frame: Frame,
    slot: u16,
) -> Result<u64, AllocError> {
    let mut summands = Summands::new(alloc);
    for team in 0..frame.n {
        summands.add(1, frame.one_game(team, slot).saturating_sub(1))?;
    }
    summands.sum(writer, 2)
}
