//! Lines of a file of values.
ghost use Rattle.std.specs.Prelude.{◌≡◌, ◌+◌, ◌≤◌, ◌<◌, ◌^◌, ◌++◌, ◌∷◌, [], length, OnOk};
ghost use Rattle.opb_forms.specs.Answers.{Adds, AddsLine, SaysValues};
ghost use Rattle.opb_forms.specs.Values as values;

use crate::fault::{ValuesFault, WordFault};
use crate::word::{is_silent, literal_in};
use memchr::memchr;
use rows::Lit;
use std::alloc::{AllocError, Global};

/// Adds a literal.
fn add_literal(lits: &mut Vec<Lit>, lit: Lit) -> Result<(), AllocError>
    ensures { OnOk result (lits.new.items ≡ lits.old.items ++ lit ∷ []) }
{
    lits.push(lit)?;
    Ok(())
}

/// Adds what a word says, if it may stand there.
fn add_word(lits: &mut Vec<Lit>, word: &[u8]) -> Result<(), WordFault>
    ensures { Adds (values.said_by_word word.now) lits.old.items lits.new.items result }
{
    if is_silent(word) {
        return Ok(());
    }
    let Some(lit) = literal_in(word) else {
        return Err(WordFault::Wrong);
    };
    add_literal(lits, lit)?;
    Ok(())
}

/// Adds what the words of a line say.
fn add_words(lits: &mut Vec<Lit>, text: &[u8]) -> Result<(), WordFault>
    requires { length text.now < 2 ^ 63 }
    ensures { Adds (values.said_by_words (values.words_of text.now)) lits.old.items lits.new.items result }
{
    let mut rest = text;
    'words: while let Some(at) = memchr(b' ', rest) {
        add_word(lits, &rest[..at])?;
        rest = &rest[at + 1..];
    }
    add_word(lits, rest)
}

/// Whether a line is a comment, an objective or a verdict.
fn is_note(text: &[u8]) -> bool
    ensures { result ≡ values.is_note text.now }
{
    match text {
        [first, ..] => *first == b'c' || *first == b'o' || *first == b's',
        [] => false,
    }
}

/// A line without the `v` that may stand in front.
fn without_mark(text: &[u8]) -> &[u8]
    ensures rest { result.now ≡ values.without_mark text.now }
    ensures short { length result.now ≤ length text.now }
{
    match text {
        [b'v', rest @ ..] => rest,
        rest => rest,
    }
}

/// Adds what a line says.
fn add_line(lits: &mut Vec<Lit>, text: &[u8]) -> Result<(), WordFault>
    requires { length text.now < 2 ^ 63 }
    ensures { Adds (values.said_by_line text.now) lits.old.items lits.new.items result }
{
    if is_note(text) {
        return Ok(());
    }
    add_words(lits, without_mark(text))
}

/// Adds what the line of this number says.
fn add_numbered(lits: &mut Vec<Lit>, text: &[u8], line: u64) -> Result<(), ValuesFault>
    requires { length text.now < 2 ^ 63 }
    ensures { AddsLine (values.said_by_line text.now) line lits.old.items lits.new.items result }
{
    match add_line(lits, text) {
        Ok(()) => Ok(()),
        Err(WordFault::Wrong) => Err(ValuesFault::Form { line }),
        Err(WordFault::Mem) => Err(ValuesFault::Mem),
    }
}

/// The literals that a file of values says to be true, in order. Lines that begin with `c`, `o` or `s` are passed over.
///
/// # Errors
/// `Form` with the number of the first line in which a word is no literal, and `Mem` where memory runs out.
pub fn read_values(alloc: Global, bytes: &[u8]) -> Result<Vec<Lit>, ValuesFault>
    requires { length bytes.now < 2 ^ 63 }
    ensures { SaysValues (values.values_of bytes.now) result }
{
    let mut lits = Vec::new(alloc);
    let mut rest = bytes;
    let mut line = 1;
    'lines: while let Some(at) = memchr(b'\n', rest) {
        add_numbered(&mut lits, &rest[..at], line)?;
        rest = &rest[at + 1..];
        line += 1;
    }
    add_numbered(&mut lits, rest, line)?;
    Ok(lits)
}
