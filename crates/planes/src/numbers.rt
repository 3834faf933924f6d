//! Numbers of a row, which are from 0 on.
ghost use Rattle.std.specs.Prelude.{◌≡◌, ◌-◌, ◌%◌, ◌^◌, ◌≤◌, min, pos};
ghost use Rattle.std.specs.Int.{IsGcd};
ghost use Rattle.planes.specs.Numbers.{divided_up, from_one, from_zero, IsRoundedUp, size_of};

/// A number of 63 bits: greater ones are as great as can be.
pub(crate) fn as_signed(number: u64) -> i64
    ensures { result ≡ pos (min number (2 ^ 63 - 1)) }
{
    i64::try_from(number).unwrap_or(i64::MAX)
}

/// A number from 0 on: lower ones are 0.
pub(crate) fn as_unsigned(number: i64) -> u64
    ensures { result ≡ from_zero number }
{
    u64::try_from(number).unwrap_or(0)
}

/// How far a number is from 0, in 63 bits.
pub(crate) fn size(number: i64) -> u64
    ensures { result ≡ size_of number }
{
    as_unsigned(number.saturating_abs())
}

/// A number from 1 on: lower ones are 1.
pub(crate) fn as_divisor(number: i64) -> u64
    ensures value { result ≡ from_one number }
    ensures at_least { 1 ≤ result }
{
    as_unsigned(number).max(1)
}

/// A number divided, rounding up: how often the divisor reaches it. It is 0 where the number is 0 or less. A divisor below 1
/// divides as 1 does.
#[tactic(auto, using(crate::proofs::NumberLemmas::rounded_up))]
pub(crate) fn divided(number: i64, divisor: i64) -> i64
    ensures value { result ≡ pos (divided_up number divisor) }
    ensures least { IsRoundedUp (from_zero number) (from_one divisor) (divided_up number divisor) }
{
    as_signed(as_unsigned(number).div_ceil(as_divisor(divisor)))
}

/// What is left of a number where it is divided.
pub(crate) fn rest(number: i64, divisor: i64) -> i64
    ensures { result ≡ pos (from_zero number % from_one divisor) }
{
    as_signed(as_unsigned(number) % as_divisor(divisor))
}

/// The greatest number that divides both: the other one where one is 0.
pub(crate) fn common(one: u64, other: u64) -> u64
    ensures { IsGcd one other result }
{
    let mut larger = one;
    let mut smaller = other;
    'steps: while smaller != 0 {
        let left = larger % smaller;
        larger = smaller;
        smaller = left;
    }
    larger
}
