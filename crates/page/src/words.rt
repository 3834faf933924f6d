//! The words of a run.
ghost use Rattle.std.specs.Prelude.{◌≡◌, ◌==◌, map, string_bytes, IfOk};
ghost use Rattle.std.specs.List.{slice_split};

use std::alloc::{AllocError, Global};

/// The lines of a text.
fn lines_of(alloc: Global, text: &str) -> Result<Vec<&str>, AllocError>
    ensures { IfOk result (λ lines. map (λ line. line.now) lines.items ≡ slice_split (λ b. b == 10) text.now) }
{
    text.split('\n').collect(alloc)
}

/// The words of a text that has one on each line: the end of a line, a byte 10, stands between two words.
///
/// # Errors
/// Only where memory runs out.
pub fn words_of(alloc: Global, text: &str) -> Result<Vec<String>, AllocError>
    ensures { IfOk result (λ words. map string_bytes words.items ≡ slice_split (λ b. b == 10) text.now) }
{
    let lines = lines_of(alloc, text)?;
    let mut words = Vec::new(alloc);
    for line in &lines {
        words.push(String::from_str(alloc, line)?)?;
    }
    Ok(words)
}
