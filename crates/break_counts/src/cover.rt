//! Which slots hold each break of some stretches.
ghost use Rattle.std.specs.Prelude.{◌≡◌, ◌+◌, ◌≤◌};
ghost use Rattle.std.specs.List.{All, list_all};
ghost use Rattle.league.specs.Sets.{is_in};
ghost use Rattle.break_counts.specs.BreakCounts as counts;
ghost use Rattle.break_counts.specs.BreakCounts.{later_slots};

use crate::stretch::Stretch;

/// Whether these slots hold each slot of the stretches at which a break counts.
pub fn covers(slots: &[u16], stretches: &[Stretch]) -> bool
    requires { All (λ t. t.first + t.count ≤ 78) stretches.now }
    ensures { result ≡ counts.covers slots.now stretches.now }
{
    for stretch in stretches {
        if !holds_later(slots, *stretch) {
            return false;
        }
    }
    true
}

/// Whether these slots hold each slot of one stretch at which a break counts.
fn holds_later(slots: &[u16], stretch: Stretch) -> bool
    requires { stretch.first + stretch.count ≤ 78 }
    ensures { result ≡ list_all (λ s. is_in s slots.now) (later_slots stretch) }
{
    for distance in 1..stretch.count {
        if !has(slots, stretch.first + distance) {
            return false;
        }
    }
    true
}

/// Whether a number is one of these.
pub(crate) fn has(numbers: &[u16], number: u16) -> bool
    ensures { result ≡ is_in number numbers.now }
{
    numbers.contains(&number)
}
