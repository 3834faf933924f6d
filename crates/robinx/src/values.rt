// Values of attributes, and which attributes there are.
ghost use Rattle.std.specs.Prelude.{◌≡◌, ◌<◌, ◌-◌, true, bytes_eq, IfOk};
ghost use Rattle.std.specs.Char.{is_ascii_digit};
ghost use Rattle.robinx.specs.SeenPieces.{Finds};
ghost use Rattle.robinx.specs.Values as values;

use crate::attribute::Attrs;
use crate::tag_fault::FormKind;
use robin_io::{NumberFault, decimal};

/// The value of an ASCII digit.
fn digit_value(digit: u8) -> u32
    requires { is_ascii_digit digit ≡ true }
    ensures { result ≡ digit - 48 }
{
    u32::from(digit - b'0')
}

/// A number below 2^32.
fn long_number(text: &[u8]) -> Result<u32, FormKind>
    ensures { result ≡ values.number text.now }
{
    match decimal(text) {
        Ok(n) if n <= 0xFFFF_FFFF => Ok(n as u32),
        Ok(_) | Err(NumberFault::TooLarge) => Err(FormKind::NumberTooLarge),
        Err(NumberFault::Bad) => Err(FormKind::BadNumber),
    }
}

/// A number below 2^32. Most have one digit or two.
#[tactic(auto, using(crate::proofs::NumberLemmas::number_of_one, crate::proofs::NumberLemmas::number_of_two))]
pub(crate) fn number(text: &[u8]) -> Result<u32, FormKind>
    ensures { result ≡ values.number text.now }
{
    match text {
        [digit] if digit.is_ascii_digit() => Ok(digit_value(*digit)),
        [tens, ones] if tens.is_ascii_digit() && ones.is_ascii_digit() => {
            Ok(digit_value(*tens) * 10 + digit_value(*ones))
        }
        _ => long_number(text),
    }
}

/// A number below the limit, and otherwise this fault.
pub(crate) fn id(unknown: FormKind, limit: u16, text: &[u8]) -> Result<u16, FormKind>
    ensures value { result ≡ values.id unknown limit text.now }
    ensures below { IfOk result (λ n. n < limit) }
{
    let n = number(text)?;
    if n >= u32::from(limit) {
        return Err(unknown);
    }
    Ok(n as u16)
}

/// Whether a value is this word.
pub(crate) fn is_word(text: &[u8], word: &[u8]) -> bool
    ensures { result ≡ bytes_eq text.now word.now }
{
    text == word
}

/// The value of an attribute that has to be there.
pub(crate) fn required<'a>(attrs: &Attrs<'a>, name: &[u8]) -> Result<&'a [u8], FormKind>
    ensures { Finds (λ value. value.now) result (values.value_in name.now attrs.now) }
{
    attrs.get(name).ok_or(FormKind::MissingAttribute)
}

/// A number that has to be there: digits of a value below 2^32.
///
/// # Errors
/// `MissingAttribute` where there is no attribute of this name, `BadNumber` where its value is not one or more digits,
/// `NumberTooLarge` where the number is too large.
pub fn number_in(attrs: &Attrs, name: &[u8]) -> Result<u32, FormKind>
    ensures { result ≡ values.required name.now values.number attrs.now }
{
    number(required(attrs, name)?)
}

/// A number that may be absent, and then is this.
pub(crate) fn number_or(attrs: &Attrs, name: &[u8], absent: u32) -> Result<u32, FormKind>
    ensures { result ≡ values.optional name.now absent values.number attrs.now }
{
    match attrs.get(name) {
        Some(value) => number(value),
        None => Ok(absent),
    }
}

/// A number that isn't 0.
pub(crate) fn above_zero_in(attrs: &Attrs, name: &[u8]) -> Result<u32, FormKind>
    ensures { result ≡ values.required name.now values.above_zero attrs.now }
{
    let n = number_in(attrs, name)?;
    if n == 0 {
        return Err(FormKind::BadChoice);
    }
    Ok(n)
}

/// A word that may be absent, and otherwise is this one.
pub(crate) fn only_or_none(attrs: &Attrs, name: &[u8], word: &[u8]) -> Result<(), FormKind>
    ensures { result ≡ values.optional name.now tt (values.only word.now) attrs.now }
{
    match attrs.get(name) {
        Some(value) => only(value, word),
        None => Ok(()),
    }
}

/// This word alone.
pub(crate) fn only(text: &[u8], word: &[u8]) -> Result<(), FormKind>
    ensures { result ≡ values.only word.now text.now }
{
    if !is_word(text, word) {
        return Err(FormKind::BadChoice);
    }
    Ok(())
}
