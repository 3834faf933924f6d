//! The words that the program itself takes, and those that it leaves.
ghost use Rattle.std.specs.Prelude.{◌≡◌, ◌++◌, None, map, string_bytes, IfOk, OnOk};
ghost use Rattle.command_line.specs.Standing.{once_more, standing};
ghost use Rattle.answers.specs.Own as options;
ghost use Rattle.answers.specs.Own.{left_from, left_word, values_from};
ghost use Rattle.answers.specs.SeenStanding.{seen};

use crate::own::{Own, behind, is_own, own_of};
use std::alloc::{AllocError, Global};

/// The word that asks to be told nothing of how a run goes.
const QUIET: &str = "--quiet";

/// How often an option stands.
#[derive(Clone, Copy)]
pub enum Standing<'a> {
    Never,
    /// Once, with this word behind it: the empty one where none comes.
    Once(&'a str),
    Often,
}

/// Whether a word asks to be told nothing.
pub fn is_quiet(word: &str) -> bool
    ensures { result ≡ options.is_quiet word.now }
{
    word == QUIET
}

/// Whether a word may name a file that is written: it isn't empty, and doesn't begin with `-`.
pub fn is_name(word: &str) -> bool
    ensures { result ≡ options.is_name word.now }
{
    !matches!(word.as_bytes(), [] | [b'-', ..])
}

/// Whether a word is left to the command, behind an option of the program itself or not.
fn is_left(before: Option<Own>, word: &str) -> bool
    ensures { result ≡ options.is_left before word.now }
{
    match before {
        Some(_) => false,
        None => own_of(word).is_none() && !is_quiet(word),
    }
}

/// Adds a word, if it is left to the command.
fn add_left(left: &mut Vec<String>, before: Option<Own>, word: &str) -> Result<(), AllocError>
    ensures { OnOk result
        (map string_bytes left.new.items ≡ map string_bytes left.old.items ++ left_word before word.now) }
{
    if is_left(before, word) {
        let alloc = *left.allocator();
        left.push(String::from_str(alloc, word)?)?;
    }
    Ok(())
}

/// The words that are left to the command.
///
/// # Errors
/// Only where memory runs out.
pub fn left_words(alloc: Global, words: &[String]) -> Result<Vec<String>, AllocError>
    ensures { IfOk result (λ left. map string_bytes left.items ≡ left_from None (map string_bytes words.now)) }
{
    let mut left = Vec::new(alloc);
    let mut before = None;
    for word in words {
        add_left(&mut left, before, word.as_str())?;
        before = behind(before, word.as_str());
    }
    Ok(left)
}

/// How often an option of the program itself stands that stands once more, with this word behind it.
fn one_more<'a>(value: &'a str, later: Standing<'a>) -> Standing<'a>
    ensures { seen result ≡ once_more value.now (seen later.entry) }
{
    match later {
        Standing::Never => Standing::Once(value),
        Standing::Once(_) => Standing::Often,
        Standing::Often => Standing::Often,
    }
}

/// How often an option stands among words, of which the first stands behind an option of the program itself or not.
fn value_from<'a>(words: &'a [String], option: Own, before: Option<Own>) -> Standing<'a>
    ensures { seen result ≡ standing (values_from option before (map string_bytes words.now)) }
{
    match words {
        [] => {
            if is_own(option, before) {
                Standing::Once("")
            } else {
                Standing::Never
            }
        }
        [word, rest @ ..] => {
            let later = value_from(rest, option, behind(before, word.as_str()));
            if is_own(option, before) {
                one_more(word.as_str(), later)
            } else {
                later
            }
        }
    }
}

/// How often an option of the program itself stands among the words.
pub fn value_of(words: &[String], option: Own) -> Standing<'_>
    ensures { seen result ≡ standing (values_from option None (map string_bytes words.now)) }
{
    value_from(words, option, None)
}
