//! Slots as bits.
ghost use Rattle.std.specs.Prelude.{◌<◌};
ghost use Rattle.std.specs.List.{All};
ghost use Rattle.std.specs.Ordering.{nat_cmp};
ghost use Rattle.league.specs.Sets.{IsAscending};
ghost use Rattle.deviation.specs.Bits.{AreBits};

/// A bit for each of some ascending numbers: bit s, of worth 2^s, for number s.
pub(crate) fn bits_of(numbers: &[u16]) -> u128
    requires ascending { IsAscending nat_cmp numbers.now }
    requires below { All (λ x. x < 78) numbers.now }
    ensures { AreBits numbers.now result }
{
    let mut bits: u128 = 0;
    for number in numbers {
        bits |= 1 << *number;
    }
    bits
}
