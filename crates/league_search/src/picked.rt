//! The pattern rows of an encoding, picked.
ghost use Rattle.std.specs.Prelude.{◌≡◌, ◌^◌, ◌-◌, ◌<◌, ◌+◌, length, IfOk, OnOk};
ghost use Rattle.std.specs.List.{All};
ghost use Rattle.rows.specs.Rows.{IsRow};
ghost use Rattle.league_search.specs.Raised.{IsPicked};

use crate::lowered::{are_of_patterns, lowered};
use rows::RowStore;
use std::alloc::{AllocError, Global};

/// The pattern rows, with variables numbered from 1, and the number of each among all rows.
#[derive(Drop)]
pub(crate) struct Picked {
    pub(crate) rows: RowStore,
    pub(crate) numbers: Vec<u64>,
}

/// The pattern rows among these, where games have so many variables.
///
/// # Errors
/// Only where memory runs out.
pub(crate) fn pick(alloc: Global, rows: &RowStore, games: u32) -> Result<Picked, AllocError>
    ensures { IfOk result (λ picked. IsPicked games rows.now (length rows.now) picked.rows picked.numbers.items) }
{
    let mut picked = Picked {
        rows: RowStore::new(alloc),
        numbers: Vec::new(alloc),
    };
    for k in 0..rows.len() {
        add_row(alloc, rows, games, k, &mut picked)?;
    }
    Ok(picked)
}

/// Adds the row at a place, if it is a pattern row, behind those that were picked before it.
///
/// # Errors
/// Only where memory runs out.
fn add_row(
    alloc: Global,
    rows: &RowStore,
    games: u32,
    k: usize,
    picked: &mut Picked,
) -> Result<(), AllocError>
    requires there { k < length rows.now }
    requires few { length rows.now < 2 ^ 32 }
    requires rows { All IsRow rows.now }
    requires before { IsPicked games rows.now k picked.old.rows picked.old.numbers.items }
    ensures { OnOk result (IsPicked games rows.now (k + 1) picked.new.rows picked.new.numbers.items) }
{
    let terms = rows.terms(k);
    if !are_of_patterns(terms, games) {
        return Ok(());
    }
    let low = lowered(alloc, terms, games)?;
    picked.rows.push(&low, rows.degree(k))?;
    picked.numbers.push(k as u64 + 1)?;
    Ok(())
}
