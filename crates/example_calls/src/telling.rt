//! Texts and numbers of standard input, and bytes in words.
use std::alloc::{AllocError, Global};

/// Bytes in words.
pub fn words_of(bytes: &[u8]) -> &str {
    str::from_utf8(bytes).unwrap_or("?")
}

/// The number that words begin with, 0 where there is none, and what stands behind the space after it.
pub fn number_in(words: &str) -> (usize, &str) {
    let (number, rest) = words.split_once(' ').unwrap_or((words, ""));
    (number.parse::<usize>().unwrap_or(0), rest)
}

/// The text that words stand for.
pub fn text_of(alloc: Global, words: &str) -> Result<String, AllocError> {
    let (front, rest) = words.split_once('*').unwrap_or((words, ""));
    let (count, rest) = rest.split_once('*').unwrap_or(("", rest));
    let (piece, back) = rest.split_once('*').unwrap_or(("", ""));
    let pieces = piece.repeat(alloc, count.parse::<usize>().unwrap_or(0))?;
    let text = format!(in alloc; "{front}{pieces}{back}")?;
    text.as_str().replace(alloc, '|', "\n")
}
