//! Words of a file of values.
ghost use Rattle.std.specs.Prelude.{◌≡◌, ◌&&◌, if◌then◌else◌, nat_lt, nat_le};
ghost use Rattle.opb_forms.specs.Answers.{seen};
ghost use Rattle.opb_forms.specs.Values as values;

use robin_io::decimal;
use rows::Lit;

/// The number of a variable that digits write.
fn number_in(digits: &[u8]) -> Option<u32>
    ensures { result ≡ values.number_in digits.now }
{
    match decimal(digits) {
        Ok(number) => variable_of(number),
        Err(_) => None,
    }
}

/// A number that a variable can have.
fn variable_of(number: u64) -> Option<u32>
    ensures { result ≡ (if nat_lt 0 number && nat_le number 2147483647 then Some number else None) }
{
    if 0 < number && number <= 2_147_483_647 {
        Some(number as u32)
    } else {
        None
    }
}

/// A variable.
fn variable_in(word: &[u8]) -> Option<u32>
    ensures { result ≡ values.variable_in word.now }
{
    match word {
        [b'x', digits @ ..] => number_in(digits),
        digits => number_in(digits),
    }
}

/// The literal of a variable.
fn literal_with(word: &[u8], positive: bool) -> Option<Lit>
    ensures { seen result ≡ values.signed positive (values.variable_in word.now) }
{
    let var = variable_in(word)?;
    Some(Lit::new(var, positive))
}

/// The literal that a word is.
pub(crate) fn literal_in(word: &[u8]) -> Option<Lit>
    ensures { seen result ≡ values.literal_in word.now }
{
    match word {
        [b'-' | b'~', rest @ ..] => literal_with(rest, false),
        rest => literal_with(rest, true),
    }
}

/// Whether a word says nothing: it is empty, or `0`.
pub(crate) fn is_silent(word: &[u8]) -> bool
    ensures { result ≡ values.is_silent word.now }
{
    matches!(word, [] | [b'0'])
}
