//! The best floor that is found.
ghost use Rattle.std.specs.Prelude.{IfOk, IfSome};
ghost use Rattle.bound_rows.specs.Bounded.{IsCounted};
ghost use Rattle.floors.specs.Floors.{IsFloor};

use crate::floor::{Floor, floor_of};
use crate::plane_search::plane_floor;
use league::League;
use robin_watch::Watch;
use std::alloc::{AllocError, Global};

/// A search over more terms isn't tried: each of its conflicts takes long.
const MOST_TERMS: u64 = 200_000;

/// A search learns at most so many rows.
const MOST_ROWS: u64 = 100_000;

/// A floor of a league: the one that laws give, or the number that is sought where a search by cutting planes proves that
/// no season costs less. The search learns at most as many rows as the conflicts allow, and no
/// more than 100,000. Where these allow none, or the bound rows have more than 200,000 terms, there is no search. `terms`
/// is how many they have, as `bound_terms` of `bound_rows` counts them. How large the floor is isn't promised.
///
/// # Errors
/// Only where memory runs out.
pub fn best_floor<W: Watch>(
    alloc: Global,
    league: &League,
    sought: u128,
    terms: u64,
    conflicts: Option<u64>,
    watch: &W,
) -> Result<Floor, AllocError>
    requires { IsCounted league.now terms }
    ensures { IfOk result (IsFloor league.now) }
{
    let floor = floor_of(alloc, league, terms)?;
    // Where the floor is no less than the number, or the rows are too many, no search is made.
    let limit = if u128::from(floor.bound) < sought && terms <= MOST_TERMS {
        conflicts.unwrap_or(MOST_ROWS).min(MOST_ROWS)
    } else {
        0
    };
    let found = searched_floor(alloc, league, sought, terms, limit, watch)?;
    Ok(found.unwrap_or(floor))
}

/// The floor at a number, if a search that learns at most so many rows finds it. One that may learn none finds none.
fn searched_floor<W: Watch>(
    alloc: Global,
    league: &League,
    sought: u128,
    terms: u64,
    limit: u64,
    watch: &W,
) -> Result<Option<Floor>, AllocError>
    requires { IsCounted league.now terms }
    ensures { IfOk result (λ found. IfSome found (IsFloor league.now)) }
{
    match u64::try_from(sought) {
        Ok(bound) if bound > 0 && limit > 0 => plane_floor(
            alloc, league, bound, terms, limit, watch,
        ),
        _ => Ok(None),
    }
}
