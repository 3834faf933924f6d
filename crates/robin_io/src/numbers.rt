// Decimal numbers: their reading and their writing.
ghost use Rattle.std.specs.Prelude.{◌≡◌, ◌+◌, ◌-◌, ◌*◌, ◌++◌, ◌^◌, ◌<◌, ◌≤◌, ◌↔◌, ℕ, Ok, decimal as decimal_text};
ghost use Rattle.std.specs.Prelude.{IsTrue, IsFalse, IsErrOf, IfOk, OnOk, OnErr, SomeIff};
ghost use Rattle.std.specs.Str.Parse.{digits_value};
ghost use Rattle.std.specs.List.{list_all};
ghost use Rattle.std.specs.Char.{is_ascii_digit};
ghost use Rattle.robin_io.specs.Numbers.{is_number};

use itoa::Buffer;
use std::alloc::AllocError;
use thiserror::Error;

/// Why bytes are no number.
#[derive(Clone, Copy, Debug, PartialEq, Eq, Error)]
pub enum NumberFault {
    /// There is no byte, or one that isn't an ASCII digit.
    #[error("not a decimal number")]
    Bad,
    /// The number is above 18446744073709551615.
    #[error("the number is too large")]
    TooLarge,
}

/// The number that the digits write. Leading zeros are taken.
///
/// # Errors
/// `Bad` exactly where there is no byte or one that isn't an ASCII digit, `TooLarge` exactly where the number is above
/// 18,446,744,073,709,551,615.
pub fn decimal(bytes: &[u8]) -> Result<u64, NumberFault>
    ensures value { IfOk result (λ n. IsTrue (is_number bytes.now) × (n ≡ digits_value 10 bytes.now)) }
    ensures bad { IsErrOf result NumberFault.Bad ↔ IsFalse (is_number bytes.now) }
    ensures too_large { IsErrOf result NumberFault.TooLarge
        ↔ (IsTrue (is_number bytes.now) × (2 ^ 64 ≤ digits_value 10 bytes.now)) }

    // The text that `put_decimal` writes is read back.
    ensures written { (n : ℕ) → n < 2 ^ 64 → bytes.now ≡ decimal_text n → result ≡ Ok n }
{
    if bytes.is_empty() || !has_digits_alone(bytes) {
        return Err(NumberFault::Bad);
    }
    value_of(bytes).ok_or(NumberFault::TooLarge)
}

fn has_digits_alone(bytes: &[u8]) -> bool
    ensures { result ≡ list_all is_ascii_digit bytes.now }
{
    bytes.iter().all(|byte| byte.is_ascii_digit())
}

// The number that the digits write, if it fits.
fn value_of(digits: &[u8]) -> Option<u64>
    requires { IsTrue (list_all is_ascii_digit digits.now) }
    ensures { SomeIff result (digits_value 10 digits.now < 2 ^ 64) (digits_value 10 digits.now) }
{
    let mut value = 0u64;
    for digit in digits {
        value = followed_by(value, *digit)?;
    }
    Some(value)
}

// The number with one digit more, if it fits.
fn followed_by(value: u64, digit: u8) -> Option<u64>
    requires { 48 ≤ digit }
    ensures { SomeIff result (value * 10 + (digit - 48) < 2 ^ 64) (value * 10 + (digit - 48)) }
{
    value.checked_mul(10)?.checked_add(u64::from(digit - b'0'))
}

/// Appends the number's shortest decimal text.
///
/// # Errors
/// Only where memory runs out: then nothing changes.
pub fn put_decimal(out: &mut Vec<u8>, value: u128) -> Result<(), AllocError>
    ensures ok { OnOk result (out.new.items ≡ out.old.items ++ decimal_text value) }
    ensures err { OnErr result (out.new.items ≡ out.old.items) }
{
    let mut digits = Buffer::new();
    let text = match u64::try_from(value) {
        // Most numbers are short, and 64 bits are faster.
        Ok(short) => digits.format(short),
        Err(_) => digits.format(value),
    };
    out.extend_from_slice(text.as_bytes())
}
