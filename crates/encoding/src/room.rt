//! How many rows to make room for. No claim rests on it: were it too small, the rows' vector would grow.
ghost use Rattle.std.specs.Prelude.{◌≤◌, IsTrue};
ghost use Rattle.std.specs.List.{All};
ghost use Rattle.league.specs.Instance.{IsTeamCount, class_fits};

use crate::subjects::{places_of, subject_count};
use league::{Class, Constraint, slot_count};

/// At least as many as a league of n teams has rows. Each key has two at most. Each row has a term, but for those that
/// ask for at least some of no games, of which each key has one at most.
pub(crate) fn rows_at_most(n: u16, constraints: &[Constraint], terms: u64) -> usize
    requires n { IsTeamCount n }
    requires fit { All (λ c. IsTrue (class_fits n c.class)) constraints.now }
{
    let mut keys = 0_u64;
    for constraint in constraints {
        if constraint.hard {
            keys = keys.saturating_add(key_count(n, &constraint.class));
        }
    }
    let rows = season_rows_at_most(n).saturating_add(keys.saturating_mul(2));
    rows.min(terms.saturating_add(keys)) as usize
}

/// At least as many rows as groups 1 to 7 have: three for each meeting, ten for each team and slot, two for each team
/// and for each slot.
fn season_rows_at_most(n: u16) -> u64
    requires { n ≤ 40 }
{
    let teams = u64::from(n);
    let slots = u64::from(slot_count(n));
    3 * teams * teams + 10 * teams * slots + 2 * teams + 2 * slots
}

/// How many keys a class has: one for each subject and place.
fn key_count(n: u16, class: &Class) -> u64
    requires n { IsTeamCount n }
    requires fits { IsTrue (class_fits n class.now) }
{
    subject_count(n, class) as u64 * places_of(n, class).len() as u64
}
