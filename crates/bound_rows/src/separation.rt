//! How many terms the groups of an SE1 have: as many for each two of its teams.
ghost use Rattle.std.specs.Prelude.{◌≡◌, ◌≤◌, [], ◌∷◌, IsTrue};
ghost use Rattle.league.specs.Counts as counts;
ghost use Rattle.league.specs.Instance.{IsTeamCount, class_fits};
ghost use Rattle.league.specs.Names.{name_of};
ghost use Rattle.bound_rows.specs.Parts as parts;
ghost use Rattle.bound_rows.specs.Sizes as sizes;

use crate::groups::{bounds_terms, units_terms};
use encoding::{literal_count, pair_total, separation_key, separation_places};
use league::{Class, ClassName, slot_count};

/// How many terms the groups of an SE1 have: as many for each two of its teams.
pub(crate) fn se1_terms(n: u16, class: &Class) -> u64
    requires n { IsTeamCount n }
    requires class { name_of class.now ≡ ClassName.Se1 }
    requires fits { IsTrue (class_fits n class.now) }
    ensures terms { result ≡ sizes.parts_size n (parts.parts_of n class.now) }
    ensures most { result ≤ 600000000000000 }
{
    let Class::Se1 { teams, min } = class else {
        unreachable!()
    };
    pair_terms(n, *min) * pair_total(n, teams)
}

/// How many terms the groups of two teams of an SE1 have: one group for each number of slots up to `min`. The groups
/// for numbers from the season's slots on are all alike.
fn pair_terms(n: u16, min: u32) -> u64
    requires { IsTeamCount n }
    ensures terms { result ≡ sizes.parts_size n (parts.se1_parts min (0, 1)) }
    ensures most { result ≤ 700000000000 }
{
    let near = min.min(u32::from(slot_count(n)));
    let mut total = 0;
    for before in 0..near {
        total += apart_terms(n, before + 1);
    }
    let last = apart_terms(n, near);
    total + last * u64::from(min - near)
}

/// How many terms the group of two teams and one least number of slots has: it has one unit, and as many terms for each
/// window.
fn apart_terms(n: u16, min: u32) -> u64
    requires { IsTeamCount n }
    ensures terms { result ≡ sizes.part_size n (Class.Se1 (0 ∷ 1 ∷ []) min) }
    ensures most { result ≤ 12404 }
    ensures long { counts.slot_count n ≤ min → result ≤ 158 }
{
    let places = separation_places(n, min);
    let key = separation_key(n, 0, 1, min, 0);
    let row = bounds_terms(1, key.low, key.high, literal_count(n, key.counted));
    places.len() as u64 * row + units_terms(1)
}
