//! Texts in a row.
ghost use Rattle.std.specs.Prelude.{◌≡◌, ◌<◌, ◌++◌, length, string_bytes, IfOk, OnOk};
ghost use Rattle.season_misses.specs.Phrases as phrases;

use crate::label::Label;
use std::alloc::{AllocError, Global};

/// The items in a row, with a word before the last: `A, B and C`.
///
/// # Errors
/// Only where memory runs out.
pub fn listed(alloc: Global, word: &str, items: &[Label]) -> Result<String, AllocError>
    ensures { IfOk result (λ text. string_bytes text ≡ phrases.listed word.now items.now) }
{
    let mut text = String::new(alloc);
    let mut rest = items;
    while let [first, _, _, ..] = rest {
        text.push_str(first.text())?;
        text.push_str(", ")?;
        rest = &rest[1..];
    }
    push_last(&mut text, word, rest)?;
    Ok(text)
}

/// Adds at most two items, with the word between them.
fn push_last(text: &mut String, word: &str, items: &[Label]) -> Result<(), AllocError>
    requires { length items.now < 3 }
    ensures { OnOk result (string_bytes text.new ≡ string_bytes text.old ++ phrases.listed word.now items.now) }
{
    match items {
        [] => Ok(()),
        [only] => text.push_str(only.text()),
        [first, second] => {
            let first = first.text();
            let second = second.text();
            write!(text, "{first} {word} {second}")
        }
        _ => unreachable!(),
    }
}
