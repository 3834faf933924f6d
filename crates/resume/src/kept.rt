//! The clauses that keep the played games.
ghost use Rattle.std.specs.Prelude.{◌≡◌, ◌+◌, ◌-◌, ◌*◌, ◌^◌, ◌<◌, ◌≤◌, ◌++◌, [], ◌∷◌, length, map, OnOk};
ghost use Rattle.std.specs.List.{All};
ghost use Rattle.league.specs.Counts as counts;
ghost use Rattle.league.specs.Meetings.{meetings_of};
ghost use Rattle.rule_core.specs.Table.{table_counts};
ghost use Rattle.encoding.specs.Ascending.{IsMeeting};
ghost use Rattle.resume.specs.Kept as kept;
ghost use Rattle.resume.specs.Kept.{kept_literal, kept_row};

use encoding::x_at;
use league::{SlotId, TeamId};
use rows::{Lit, RowStore};
use rule_core::Cells;
use std::alloc::AllocError;

/// Adds the clauses of all meetings in each of the first k slots, where the meetings of the season are listed.
///
/// # Errors
/// Only where memory runs out.
pub(crate) fn add_kept_rows(
    rows: &mut RowStore,
    cells: &Cells,
    meetings: &[(u16, u16)],
    k: u16,
) -> Result<(), AllocError>
    requires meetings { meetings.now ≡ meetings_of cells.now.n }
    requires fit { All (IsMeeting cells.now.n) meetings.now }
    requires few { length meetings.now ≤ 1560 }
    requires slots { k ≤ counts.slot_count cells.now.n }
    requires room { length rows.old + 1560 * k < 2 ^ 32 }
    ensures { OnOk result (rows.new ≡ rows.old ++ kept.kept_rows cells.now.n (table_counts cells.now) k) }
{
    for slot in 0..k {
        add_slot(rows, cells, meetings, slot)?;
    }
    Ok(())
}

/// Adds the rows that keep some meetings in one slot.
///
/// # Errors
/// Only where memory runs out.
fn add_slot(
    rows: &mut RowStore,
    cells: &Cells,
    meetings: &[(u16, u16)],
    slot: u16,
) -> Result<(), AllocError>
    requires fit { All (IsMeeting cells.now.n) meetings.now }
    requires few { length meetings.now ≤ 1560 }
    requires slot { slot < counts.slot_count cells.now.n }
    requires room { length rows.old + 1560 < 2 ^ 32 }
    ensures rows { OnOk result
        (rows.new ≡ rows.old ++ map (kept_row cells.now.n (table_counts cells.now) slot) meetings.now) }
    ensures few { OnOk result (length rows.new ≤ length rows.old + 1560) }
{
    for meeting in meetings {
        add_kept_row(rows, cells, *meeting, slot)?;
    }
    Ok(())
}

/// Adds the row that keeps one meeting in one slot.
///
/// # Errors
/// Only where memory runs out.
fn add_kept_row(
    rows: &mut RowStore,
    cells: &Cells,
    meeting: (u16, u16),
    slot: u16,
) -> Result<(), AllocError>
    requires fits { IsMeeting cells.now.n meeting }
    requires slot { slot < counts.slot_count cells.now.n }
    requires room { length rows.old < 2 ^ 32 - 1 }
    ensures rows { OnOk result
        (rows.new ≡ rows.old ++ kept_row cells.now.n (table_counts cells.now) slot meeting ∷ []) }
    ensures few { OnOk result (length rows.new ≤ length rows.old + 1) }
{
    let literal = literal_of(cells, meeting.0, meeting.1, slot);
    rows.push_at_least(&[literal], 1)
}

/// The literal that says what was played of a meeting in a slot.
fn literal_of(cells: &Cells, home: u16, away: u16, slot: u16) -> Lit
    requires fits { IsMeeting cells.now.n (home, away) }
    requires slot { slot < counts.slot_count cells.now.n }
    ensures { result ≡ kept_literal cells.now.n (table_counts cells.now) slot (home, away) }
{
    let var = x_at(cells.n(), home, away, slot);
    let count = cells.at(TeamId(home), TeamId(away), SlotId(slot));
    Lit::new(var, count > 0)
}
