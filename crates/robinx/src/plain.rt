//! A value of a file as a name that is printed.
ghost use Rattle.std.specs.Prelude.{◌≡◌, ◌<◌, ◌≤◌, ◌++◌, IfOk, OnOk, length, drop, map, string_bytes, encode_utf8_all};
ghost use Rattle.std.specs.Str.{chars};
ghost use Rattle.robinx.specs.Plain as plain;
ghost use Rattle.robinx.specs.Plain.{IsPlain};

use crate::fronts::trimmed;
use std::alloc::{AllocError, Global};

/// The most characters that a name has.
const MOST_CHARACTERS: usize = 40;

/// How many characters stand before the dots of a shortened name.
const BEFORE_DOTS: usize = 37;

/// The first and the last of each range of characters that aren't printed.
const UNPRINTED: [(u32, u32); 13] = [
    (0x00, 0x1F),
    (0x7F, 0x9F),
    (0xAD, 0xAD),
    (0x61C, 0x61C),
    (0x180B, 0x180F),
    (0x200B, 0x200F),
    (0x2028, 0x202E),
    (0x2060, 0x206F),
    (0xFE00, 0xFE0F),
    (0xFEFF, 0xFEFF),
    (0xFFF0, 0xFFFF),
    (0x1D173, 0x1D17A),
    (0xE0000, 0x10FFFF),
];

/// The byte that the front of some bytes stands for, and how many bytes behind the first belong to it.
fn byte_at(bytes: &[u8]) -> (u8, usize)
    requires { 0 < length bytes.now }
    ensures { (result.0, result.1) ≡ plain.byte_at bytes.now }
{
    if bytes.starts_with(b"&lt;") {
        (b'<', 3)
    } else if bytes.starts_with(b"&gt;") {
        (b'>', 3)
    } else if bytes.starts_with(b"&quot;") {
        (b'"', 5)
    } else if bytes.starts_with(b"&apos;") {
        (b'\'', 5)
    } else if bytes.starts_with(b"&amp;") {
        (b'&', 4)
    } else {
        (bytes[0], 0)
    }
}

/// Takes the first of some bytes, of which so many still belong to an entity, and tells how many do behind it.
#[tactic(auto, using(crate::proofs::EntityLemmas::expanded_within, crate::proofs::EntityLemmas::expanded_begun))]
fn take_byte(text: &mut Vec<u8>, inside: usize, bytes: &[u8]) -> Result<usize, AllocError>
    requires { 0 < length bytes.now }
    ensures { IfOk result (λ more. text.new.items ++ plain.expanded_from more (drop 1 bytes.now)
        ≡ text.old.items ++ plain.expanded_from inside bytes.now) }
{
    if inside > 0 {
        return Ok(inside - 1);
    }
    let (byte, more) = byte_at(bytes);
    text.push(byte)?;
    Ok(more)
}

/// The bytes with entities expanded.
fn expanded(alloc: Global, bytes: &[u8]) -> Result<Vec<u8>, AllocError>
    ensures { IfOk result (λ text. text.items ≡ plain.expanded bytes.now) }
{
    let mut text = Vec::new(alloc);
    let mut inside = 0;
    for place in 0..bytes.len() {
        inside = take_byte(&mut text, inside, &bytes[place..])?;
    }
    Ok(text)
}

fn is_unprinted(c: char) -> bool
    ensures { result ≡ plain.is_unprinted c }
{
    let code = c as u32;
    UNPRINTED
        .iter()
        .any(|(first, last)| *first <= code && code <= *last)
}

/// A character as it is printed.
fn printed(c: char) -> char
    ensures { result ≡ plain.printed c }
{
    match c {
        ' ' | '\t' | '\r' | '\n' => ' ',
        _ if is_unprinted(c) => '?',
        _ => c,
    }
}

/// The characters of a text as they are printed.
fn printed_characters(alloc: Global, text: &str) -> Result<Vec<char>, AllocError>
    ensures { IfOk result (λ cs. cs.items ≡ map plain.printed (chars text.now)) }
{
    let mut characters = Vec::new(alloc);
    for c in text.chars() {
        characters.push(printed(c))?;
    }
    Ok(characters)
}

/// Leaves at most 40 characters.
fn shorten(characters: &mut Vec<char>) -> Result<(), AllocError>
    ensures { OnOk result (characters.new.items ≡ plain.shortened characters.old.items) }
{
    if characters.len() > MOST_CHARACTERS {
        characters.truncate(BEFORE_DOTS);
        characters.extend_from_slice(&['.', '.', '.'])?;
    }
    Ok(())
}

/// The text of these characters.
fn spelled(alloc: Global, characters: &[char]) -> Result<String, AllocError>
    ensures { IfOk result (λ text. string_bytes text ≡ encode_utf8_all characters.now) }
{
    let mut text = String::new(alloc);
    for c in characters {
        text.push(*c)?;
    }
    Ok(text)
}

/// The name that a value of a file is, as it is printed: entities expanded, white bytes as spaces and none at the ends,
/// characters that would move a cursor, turn a line or hide as question marks, and at most 40 characters.
///
/// # Errors
/// Only where memory runs out.
pub fn plain_name(alloc: Global, value: &[u8]) -> Result<String, AllocError>
    ensures value { IfOk result (λ name. string_bytes name ≡ plain.plain value.now) }
    ensures plain { IfOk result (λ name. IsPlain (string_bytes name)) }
{
    let bytes = expanded(alloc, value)?;
    let text = String::from_utf8_lossy(alloc, trimmed(&bytes))?;
    let mut characters = printed_characters(alloc, &text)?;
    shorten(&mut characters)?;
    spelled(alloc, &characters)
}
