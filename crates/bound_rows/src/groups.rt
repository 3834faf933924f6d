//! How many terms the rows of a group have: its own rows, the units in the objective row, and the rows that order them.
ghost use Rattle.std.specs.Prelude.{◌≡◌, ◌+◌, ◌*◌, ◌^◌, ◌<◌, ◌≤◌};
ghost use Rattle.bound_rows.specs.Sizes as sizes;

/// How many terms a group has that bounds how many of `count` literals are true: from `low` to `high`.
pub(crate) fn between_terms(low: u64, high: u64, count: u64) -> u64
    requires low { low < 2 ^ 32 }
    requires count { count ≤ 124800 }
    ensures terms { result ≡ sizes.between_size low high count }
    ensures most { result ≤ 22000000000 }
{
    let units = between_units(low, high, count);
    bounds_terms(units, low, high, count) + units_terms(units)
}

/// How many units the group of the two rows has that bound `count` literals: as many as the larger degree.
pub(crate) fn between_units(low: u64, high: u64, count: u64) -> u64
    requires low { low < 2 ^ 32 }
    requires count { count ≤ 124800 }
    ensures units { result ≡ sizes.between_units low high count }
    ensures most { result < 2 ^ 32 }
{
    low.max(count.saturating_sub(high))
}

/// How many terms the two rows have that bound how many of `count` literals are true, in a group with `units` units.
pub(crate) fn bounds_terms(units: u64, low: u64, high: u64, count: u64) -> u64
    requires units { units < 2 ^ 32 }
    requires count { count ≤ 124800 }
    ensures terms { result ≡ sizes.bounds_size units low high count }
    ensures most { result ≤ 8600000000 }
{
    row_terms(units, low, count) + row_terms(units, count.saturating_sub(high), count)
}

/// How many terms a row has: one for each literal and one for each unit. A row of degree 0 demands nothing. It isn't
/// listed, so it has none.
fn row_terms(units: u64, degree: u64, count: u64) -> u64
    requires { count + units < 2 ^ 64 }
    ensures terms { result ≡ sizes.row_size units degree count }
    ensures most { result ≤ count + units }
{
    if degree > 0 { count + units } else { 0 }
}

/// How many terms the units of a group have outside of the group's rows: one each in the objective row, and two in each
/// row that orders two neighbours.
pub(crate) fn units_terms(units: u64) -> u64
    requires { units < 2 ^ 32 }
    ensures terms { result ≡ sizes.units_size units }
    ensures most { result ≤ 3 * units }
{
    units + 2 * units.saturating_sub(1)
}
