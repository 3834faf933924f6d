//! The numbers that the log gives to rows. On the trail the kept clauses stand behind the rows that were given, in the
//! log all steps do.
ghost use Rattle.std.specs.Prelude.{◌≡◌, ◌^◌, ◌<◌, length, map, slice_index_or, IfOk, OnOk};
ghost use Rattle.std.specs.List.{All};
ghost use Rattle.clause_search.specs.Kept as kept;

use std::alloc::AllocError;

/// The log's numbers of the rows that have these numbers on the trail: behind the rows that were given there stand the
/// clauses of the steps at these places.
///
/// # Errors
/// Only where memory runs out, or there are too many rows and steps for a number of 64 bits.
pub(crate) fn name_all(
    numbers: &[u64],
    given: u64,
    places: &[usize],
    names: &mut Vec<u64>,
) -> Result<(), AllocError>
    ensures named { OnOk result (names.new.items ≡ map (kept.named given places.now) numbers.now) }
    ensures small { OnOk result (All (λ name. name < 2 ^ 64) names.new.items) }
{
    names.clear();
    for number in numbers {
        names.push(named(*number, given, places)?)?;
    }
    Ok(())
}

/// The log's number of the row that has this number on the trail.
///
/// # Errors
/// Only where there are too many rows and steps for a number of 64 bits: so many don't fit into memory.
fn named(number: u64, given: u64, places: &[usize]) -> Result<u64, AllocError>
    ensures { IfOk result (λ name. name ≡ kept.named given places.now number) }
{
    if number <= given {
        return Ok(number);
    }
    let place = place_at(places, (number - given - 1) as usize) as u64;
    match (given + 1).checked_add(place) {
        Some(name) => Ok(name),
        None => Err(AllocError),
    }
}

/// The place at an index, or 0.
fn place_at(places: &[usize], index: usize) -> usize
    ensures { result ≡ slice_index_or places.now index 0 }
{
    if index < places.len() {
        places[index]
    } else {
        0
    }
}
