//! Tables of lists, by team and slot or by two teams.

use std::alloc::{AllocError, Global};

/// The most teams of a league.
pub(crate) const TEAMS: u16 = 40;

/// The most slots of a season.
pub(crate) const SLOTS: u16 = 78;

/// The place of a row and a column in a table with rows of this length.
pub(crate) fn place(row: u16, length: u16, column: u16) -> usize {
    usize::from(row) * usize::from(length) + usize::from(column)
}

/// So many empty lists.
///
/// # Errors
/// Only where memory runs out.
pub(crate) fn empty_lists<T: Drop>(alloc: Global, count: usize) -> Result<Vec<Vec<T>>, AllocError> {
    let mut lists = Vec::with_capacity(alloc, count)?;
    for _list in 0..count {
        lists.push(Vec::new(alloc))?;
    }
    Ok(lists)
}

/// The list at a place, or none of its numbers.
pub(crate) fn list_at(lists: &[Vec<usize>], place: usize) -> &[usize] {
    match lists.get(place) {
        Some(numbers) => numbers,
        None => &[],
    }
}

/// Sets the value at a place, where there is one.
pub(crate) fn set_at<T: Copy>(values: &mut [T], place: usize, value: T) {
    if let Some(entry) = values.get_mut(place) {
        *entry = value;
    }
}

/// Adds a number to the list at a place, unless it is the last there.
///
/// # Errors
/// Only where memory runs out.
pub(crate) fn add_at(
    lists: &mut [Vec<usize>],
    place: usize,
    number: usize,
) -> Result<(), AllocError> {
    let Some(list) = lists.get_mut(place) else {
        return Ok(());
    };
    if let Some(last) = list.last()
        && *last == number
    {
        return Ok(());
    }
    list.push(number)?;
    Ok(())
}

/// The middle one of some numbers, the higher one of two, where there are any. It puts them in order.
pub(crate) fn middle_of(numbers: &mut [u64]) -> Option<u64> {
    numbers.sort_unstable();
    numbers.get(numbers.len() / 2).copied()
}

/// A bit for each of some slots.
pub(crate) fn bits_of(slots: &[u16]) -> u128 {
    let mut bits = 0u128;
    for slot in slots {
        bits |= bit(*slot);
    }
    bits
}

/// The bit of a slot.
pub(crate) fn bit(slot: u16) -> u128 {
    1u128.wrapping_shl(u32::from(slot))
}
