// Tokens: what stands between the spaces of a line.
ghost use Rattle.std.specs.Prelude.{◌≡◌, ◌∷◌, ◌&&◌, ◌+◌, ◌*◌, ◌-◌, ◌%◌, ◌^◌, ◌<◌, ◌≤◌, nat_le, length};
ghost use Rattle.std.specs.Prelude.{IsTrue, IfOk, IfSome, SomeIff};
ghost use Rattle.std.specs.List.{list_all};
ghost use Rattle.std.specs.Char.{is_ascii_digit};
ghost use Rattle.refutation.specs.Lines.{is_count, is_literal, is_small_number, is_small_variable, literal, number};
ghost use Rattle.refutation.specs.Tokens.{AreDigits, EndsToken, FindsToken, IsUnsigned, SaysCount};

use crate::fault::LogKind;
use robin_io::decimal;
use rows::Lit;

/// What a token other than `0` says: its value, where that is small enough.
#[derive(Clone, Copy)]
pub(crate) struct Item<T> {
    pub value: T,
    pub small: bool,
}

/// The most digits that never pass 64 bits.
pub(crate) const SHORT: usize = 19;

/// The number with one digit more, where that fits.
#[inline]
pub(crate) fn followed_by(value: u64, digit: u8) -> u64
    requires { 48 ≤ digit }
    ensures { result ≡ (value * 10 + (digit - 48)) % 2 ^ 64 }
{
    value.wrapping_mul(10).wrapping_add(u64::from(digit - b'0'))
}

/// The number of digits, however many there are, where it fits.
#[cold]
fn long_number(digits: &[u8]) -> Option<u64>
    requires digits { IsTrue (list_all is_ascii_digit digits.now) }
    requires some { 0 < length digits.now }
    ensures { SomeIff result (number digits.now < 2 ^ 64) (number digits.now) }
{
    decimal(digits).ok()
}

/// How many digits stand in front, and their number where it fits.
#[inline]
fn digits_at(bytes: &[u8]) -> (usize, Option<u64>)
    ensures { AreDigits bytes.now result.0 result.1 }
{
    let mut value = 0u64;
    let mut len = 0;
    while len < bytes.len() && bytes[len].is_ascii_digit() {
        value = followed_by(value, bytes[len]);
        len += 1;
    }
    if len <= SHORT {
        (len, Some(value))
    } else {
        (len, long_number(&bytes[..len]))
    }
}

/// What is left behind a token and its space, where one follows.
#[inline]
fn behind(rest: &[u8]) -> Result<Option<&[u8]>, LogKind>
    ensures token { EndsToken rest.now result }
    ensures shorter { IfOk result (λ left. IfSome left (λ left. length left.now < length rest.now)) }
{
    match rest {
        [] => Ok(None),
        [b' ', left @ ..] => Ok(Some(left)),
        _ => Err(LogKind::BadLine),
    }
}

/// What digits say, with their number where it fits.
#[inline]
fn count_of(digits: &[u8], value: Option<u64>) -> Result<Option<Item<u64>>, LogKind>
    requires digits { IsTrue (list_all is_ascii_digit digits.now) }
    requires value { SomeIff value (number digits.now < 2 ^ 64) (number digits.now) }
    ensures { SaysCount digits.now result }
{
    match digits {
        [b'0'] => Ok(None),
        [] | [b'0', ..] => Err(LogKind::BadLine),
        _ => Ok(Some(Item {
            value: value.unwrap_or(0),
            small: value.is_some(),
        })),
    }
}

/// The number in front, or None at `0`, and what is left behind its space.
#[inline]
pub(crate) fn number_at(bytes: &[u8]) -> Result<(Option<Item<u64>>, Option<&[u8]>), LogKind>
    ensures token { FindsToken is_count is_small_number number bytes.now result }
    ensures shorter { IfOk result (λ r. IfSome r.1 (λ left. length left.now < length bytes.now)) }
{
    let (len, value) = digits_at(bytes);
    let left = behind(&bytes[len..])?;
    let token = count_of(&bytes[..len], value)?;
    Ok((token, left))
}

/// The greatest variable of a literal.
pub(crate) const MOST_VARIABLES: u64 = 2_147_483_647;

/// The literal of a number that is at least 1 where it is small.
#[inline]
fn literal_of(number: Item<u64>, positive: bool) -> Item<Lit>
    requires { IsTrue number.small → 1 ≤ number.value }
    ensures small { result.small ≡ (number.small && nat_le number.value 2147483647) }
    ensures value { IsTrue result.small → result.value ≡ record { var = number.value; positive = positive } }
{
    if number.small && number.value <= MOST_VARIABLES {
        Item {
            value: Lit::new(number.value as u32, positive),
            small: true,
        }
    } else {
        Item {
            value: Lit::new(1, positive),
            small: false,
        }
    }
}

/// The literal in front that has no sign, or None at `0`, and what is left behind its space.
#[inline]
fn positive_at(bytes: &[u8]) -> Result<(Option<Item<Lit>>, Option<&[u8]>), LogKind>
    requires { IsUnsigned bytes.now }
    ensures token { FindsToken is_literal is_small_variable literal bytes.now result }
    ensures shorter { IfOk result (λ r. IfSome r.1 (λ left. length left.now < length bytes.now)) }
{
    let (token, left) = number_at(bytes)?;
    let Some(number) = token else {
        return Ok((None, left));
    };
    Ok((Some(literal_of(number, true)), left))
}

/// The literal whose sign stands in front of these bytes, and what is left behind its space.
#[inline]
fn negated_at(digits: &[u8]) -> Result<(Option<Item<Lit>>, Option<&[u8]>), LogKind>
    ensures token { FindsToken is_literal is_small_variable literal (45 ∷ digits.now) result }
    ensures shorter { IfOk result (λ r. IfSome r.1 (λ left. length left.now < length digits.now)) }
{
    let (token, left) = number_at(digits)?;
    let Some(number) = token else {
        return Err(LogKind::BadLine);
    };
    Ok((Some(literal_of(number, false)), left))
}

/// The literal in front, or None at `0`, and what is left behind its space.
#[inline]
pub(crate) fn literal_at(bytes: &[u8]) -> Result<(Option<Item<Lit>>, Option<&[u8]>), LogKind>
    ensures token { FindsToken is_literal is_small_variable literal bytes.now result }
    ensures shorter { IfOk result (λ r. IfSome r.1 (λ left. length left.now < length bytes.now)) }
{
    match bytes {
        [b'-', digits @ ..] => negated_at(digits),
        _ => positive_at(bytes),
    }
}
