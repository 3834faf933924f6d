// Steps in front of bytes, read in one pass where their line is as a log's text has it and no number has more
// than 19 digits. Any other line is left to the reader of whole lines, which knows its fault.
ghost use Rattle.std.specs.Prelude.{◌≡◌, ◌∷◌, ◌++◌, IfSome};
ghost use Rattle.std.specs.Bool.{OnTrue};
ghost use Rattle.refutation.specs.Texts.{clause_mark, literal_text, number_text, part_text};
ghost use Rattle.refutation.specs.Written.{IsVariable};
ghost use Rattle.refutation.specs.Fronts.{AreFewDigits, ArePartHints, BeginsNumber, IsHint, IsHintInFront};
ghost use Rattle.refutation.specs.Fronts.{IsLiteralInFront, IsNumberBefore, IsPartInFront, IsVariableInFront};
ghost use Rattle.refutation.specs.Fronts.{TakesClause, TakesItems, TakesLinear};

use crate::line::MOST_BYTES;
use crate::step::Part;
use crate::token::{MOST_VARIABLES, SHORT, followed_by};
use crate::version::Version;
use rows::Lit;

/// What is behind this byte, where it stands in front.
#[inline]
fn behind(byte: u8, bytes: &[u8]) -> Option<&[u8]>
    ensures { IfSome result (λ left. bytes.now ≡ byte ∷ left.now) }
{
    match bytes {
        [first, left @ ..] if *first == byte => Some(left),
        _ => None,
    }
}

/// Whether a digit from 1 to 9 stands in front.
#[inline]
fn begins_number(bytes: &[u8]) -> bool
    ensures { OnTrue result (BeginsNumber bytes.now) }
{
    match bytes {
        [b'1'..=b'9', ..] => true,
        _ => false,
    }
}

/// How many digits stand in front, and their number where they are few.
#[inline]
fn few_digits(bytes: &[u8]) -> (usize, u64)
    requires { BeginsNumber bytes.now }
    ensures { AreFewDigits bytes.now result.0 result.1 }
{
    let mut value = followed_by(0, bytes[0]);
    let mut len = 1;
    while len < bytes.len() && bytes[len].is_ascii_digit() {
        value = followed_by(value, bytes[len]);
        len += 1;
    }
    (len, value)
}

/// The number from 1 in front that this byte ends, and what is behind the byte.
#[inline]
fn number_before(end: u8, bytes: &[u8]) -> Option<(u64, &[u8])>
    ensures { IfSome result (λ r. IsNumberBefore end bytes.now r.0 r.1.now) }
{
    if !begins_number(bytes) {
        return None;
    }
    let (len, hint) = few_digits(bytes);
    if len > SHORT {
        return None;
    }
    let Some(left) = behind(end, &bytes[len..]) else {
        return None;
    };
    Some((hint, left))
}

/// The hint in front, and what is behind its space.
#[inline]
fn hint_in_front(bytes: &[u8]) -> Option<(u64, &[u8])>
    ensures { IfSome result (λ r. IsHintInFront bytes.now r.0 r.1.now) }
{
    number_before(b' ', bytes)
}

/// The factor and the row in front, and what is behind their spaces.
#[inline]
fn part_in_front(bytes: &[u8]) -> Option<(Part, &[u8])>
    ensures { IfSome result (λ r. IsPartInFront bytes.now r.0 r.1.now) }
{
    let Some(factor) = hint_in_front(bytes) else {
        return None;
    };
    let Some(row) = hint_in_front(factor.1) else {
        return None;
    };
    let part = Part {
        factor: factor.0,
        row: row.0,
    };
    Some((part, row.1))
}

/// The literal of this sign whose variable stands in front, and what is behind its space.
#[inline]
fn variable_in_front(bytes: &[u8], positive: bool) -> Option<(Lit, &[u8])>
    ensures { IfSome result (λ r. IsVariableInFront bytes.now positive r.0 r.1.now) }
{
    let Some(found) = hint_in_front(bytes) else {
        return None;
    };
    if found.0 > MOST_VARIABLES {
        return None;
    }
    Some((Lit::new(found.0 as u32, positive), found.1))
}

/// The literal in front, and what is behind its space.
#[inline]
fn literal_in_front(bytes: &[u8]) -> Option<(Lit, &[u8])>
    ensures { IfSome result (λ r. IsLiteralInFront bytes.now r.0 r.1.now) }
{
    match bytes {
        [b'-', digits @ ..] => variable_in_front(digits, false),
        _ => variable_in_front(bytes, true),
    }
}

/// Adds the literals in front of a `0`, and gives what is behind that.
#[inline]
fn literals_in_front<'a>(bytes: &'a [u8], literals: &mut Vec<Lit>) -> Option<&'a [u8]>
    ensures { TakesItems literal_text IsVariable bytes.now result literals.old.items literals.new.items }
{
    let mut rest = bytes;
    'literals: loop {
        let Some(found) = literal_in_front(rest) else {
            return behind(b'0', rest);
        };
        if literals.push(found.0).is_err() {
            return None;
        }
        rest = found.1;
    }
}

/// Adds the hints in front of a `0`, and gives what is behind that.
#[inline]
fn hints_in_front<'a>(bytes: &'a [u8], hints: &mut Vec<u64>) -> Option<&'a [u8]>
    ensures { TakesItems number_text IsHint bytes.now result hints.old.items hints.new.items }
{
    let mut rest = bytes;
    'hints: loop {
        let Some(found) = hint_in_front(rest) else {
            return behind(b'0', rest);
        };
        if hints.push(found.0).is_err() {
            return None;
        }
        rest = found.1;
    }
}

/// Adds the parts in front of a `0`, and gives what is behind that.
#[inline]
fn parts_in_front<'a>(bytes: &'a [u8], parts: &mut Vec<Part>) -> Option<&'a [u8]>
    ensures { TakesItems part_text ArePartHints bytes.now result parts.old.items parts.new.items }
{
    let mut rest = bytes;
    'parts: loop {
        let Some(found) = part_in_front(rest) else {
            return behind(b'0', rest);
        };
        if parts.push(found.0).is_err() {
            return None;
        }
        rest = found.1;
    }
}

/// What is behind the mark of a clause step of this version, where it stands in front.
#[inline]
fn behind_mark(version: Version, bytes: &[u8]) -> Option<&[u8]>
    ensures { IfSome result (λ left. bytes.now ≡ clause_mark version ++ left.now) }
{
    match version {
        Version::One => Some(bytes),
        Version::Two => match bytes {
            [b'c', b' ', left @ ..] => Some(left),
            _ => None,
        },
    }
}

/// Adds the literals and the hints of the clause step whose line stands in front, and gives what is behind its LF.
/// Where it gives nothing, some may have been added.
pub(crate) fn clause_in_front<'a>(
    version: Version,
    bytes: &'a [u8],
    literals: &mut Vec<Lit>,
    hints: &mut Vec<u64>,
) -> Option<&'a [u8]>
    ensures { TakesClause version bytes.now result literals.old.items literals.new.items
        hints.old.items hints.new.items }
{
    let Some(text) = behind_mark(version, bytes) else {
        return None;
    };
    let Some(zero) = literals_in_front(text, literals) else {
        return None;
    };
    let Some(second) = behind(b' ', zero) else {
        return None;
    };
    let Some(end) = hints_in_front(second, hints) else {
        return None;
    };
    let Some(left) = behind(b'\n', end) else {
        return None;
    };
    if bytes.len() - left.len() > MOST_BYTES + 1 {
        return None;
    }
    Some(left)
}

/// What is behind the mark of a linear step, where it stands in front.
#[inline]
fn behind_linear_mark(bytes: &[u8]) -> Option<&[u8]>
    ensures { IfSome result (λ left. bytes.now ≡ 108 ∷ (32 ∷ left.now)) }
{
    match bytes {
        [b'l', b' ', left @ ..] => Some(left),
        _ => None,
    }
}

/// Adds the parts of the linear step whose line stands in front, and gives its divisor and what is behind its LF.
/// Where it gives nothing, some may have been added.
pub(crate) fn linear_in_front<'a>(bytes: &'a [u8], parts: &mut Vec<Part>) -> Option<(u64, &'a [u8])>
    ensures { TakesLinear bytes.now result parts.old.items parts.new.items }
{
    let Some(text) = behind_linear_mark(bytes) else {
        return None;
    };
    let Some(zero) = parts_in_front(text, parts) else {
        return None;
    };
    let Some(second) = behind(b' ', zero) else {
        return None;
    };
    let Some(found) = number_before(b'\n', second) else {
        return None;
    };
    if bytes.len() - found.1.len() > MOST_BYTES + 1 {
        return None;
    }
    Some(found)
}
