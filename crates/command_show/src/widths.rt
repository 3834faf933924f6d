//! Texts in columns.
ghost use Rattle.std.specs.Prelude.{◌≡◌, ◌≤◌, ◌-◌, ◌++◌, ◌==◌, OnOk, length, decimal};
ghost use Rattle.std.specs.List.{suffix_len};
ghost use Rattle.std.specs.Str.{byte};
ghost use Rattle.command_show.specs.Widths as widths;

use std::alloc::{AllocError, Global};

/// Adds so many spaces.
pub(crate) fn push_spaces(text: &mut Vec<u8>, count: usize) -> Result<(), AllocError>
    ensures { OnOk result (text.new.items ≡ text.old.items ++ widths.spaces count) }
{
    for _space in 0..count {
        text.push(b' ')?;
    }
    Ok(())
}

/// Adds an ASCII text at the right of so many places.
pub(crate) fn push_right(text: &mut Vec<u8>, places: usize, word: &[u8]) -> Result<(), AllocError>
    ensures { OnOk result (text.new.items ≡ text.old.items ++ widths.at_right places word.now) }
{
    push_spaces(text, places.saturating_sub(word.len()))?;
    text.extend_from_slice(word)
}

/// Adds a number at the right of so many places.
pub(crate) fn push_number(
    alloc: Global,
    text: &mut Vec<u8>,
    places: usize,
    number: u32,
) -> Result<(), AllocError>
    ensures { OnOk result (text.new.items ≡ text.old.items ++ widths.at_right places (decimal number)) }
{
    let word = format!(in alloc; "{number}")?;
    push_right(text, places, word.as_bytes())
}

/// How many bytes a line has without the spaces at its end.
#[tactic(auto, using(std::proofs::lemmas::List::Sums::suffix_len_is))]
fn len_without_spaces(line: &[u8]) -> usize
    ensures value { result ≡ length line.now - suffix_len (λ b. b == byte " ") line.now }
    ensures within { result ≤ length line.now }
{
    let mut len = line.len();
    while len > 0 && line[len - 1] == b' ' {
        len -= 1;
    }
    len
}

/// Adds a line, without spaces at its end.
pub(crate) fn push_line(text: &mut Vec<u8>, line: &[u8]) -> Result<(), AllocError>
    ensures { OnOk result (text.new.items ≡ text.old.items ++ widths.line line.now) }
{
    text.extend_from_slice(&line[..len_without_spaces(line)])?;
    text.push(b'\n')?;
    Ok(())
}
