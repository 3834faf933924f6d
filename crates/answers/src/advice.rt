//! Advice: sentences that are built part by part.
ghost use Rattle.std.specs.Prelude.{◌≡◌, ◌≤◌, ◌+◌, ◌<◌, true, IsTrue};
ghost use Rattle.answers.specs.Printable.{is_printable};
ghost use Rattle.answers.specs.Items.{IsItem};

use crate::items::{Item, first_item};
use std::alloc::{AllocError, Global};

/// How many items of a word or of a line are shown.
const MOST_SHOWN: usize = 60;

/// What a person is told: whatever is put into it, its text is printable.
#[derive(Drop)]
pub struct Advice {
    text: Vec<u8>,
    ghost printable: { is_printable text.items ≡ true },
}

/// The digit of a number below 16.
fn hex_digit(n: u8) -> u8
    requires { n < 16 }
    ensures low { 48 ≤ result }
    ensures high { result ≤ 102 }
{
    if n < 10 { b'0' + n } else { b'a' + (n - 10) }
}

/// Puts printable bytes behind a text.
fn put_printable(text: &mut Vec<u8>, piece: &[u8]) -> Result<(), AllocError>
    requires text { is_printable text.old.items ≡ true }
    requires piece { is_printable piece.now ≡ true }
    ensures { is_printable text.new.items ≡ true }
{
    text.extend_from_slice(piece)?;
    Ok(())
}

impl Advice {
    /// Nothing is told.
    pub fn new(alloc: Global) -> Advice {
        Advice {
            text: Vec::new(alloc),
        }
    }

    /// The text, which is printable.
    pub fn text(&self) -> &[u8]
        ensures { is_printable result.now ≡ true }
    {
        &self.text
    }

    /// Puts printable bytes behind the text.
    fn append(&mut self, piece: &[u8]) -> Result<(), AllocError>
        requires { is_printable piece.now ≡ true }
    {
        put_printable(&mut self.text, piece)
    }

    /// Puts an item behind the text: as it is, or its byte in hexadecimal digits behind `\x`; the end of a line as `\n`.
    fn put(&mut self, item: Item) -> Result<(), AllocError>
        requires { IsItem item }
    {
        match item {
            Item::Plain(byte) => self.append(&[byte]),
            Item::LineEnd => self.append(b"\\n"),
            Item::Letter(lead, tail) => self.append(&[lead, tail]),
            Item::Other(byte) => {
                self.append(&[b'\\', b'x', hex_digit(byte / 16), hex_digit(byte % 16)])
            }
        }
    }

    /// Puts words of the program behind the text, with ends of lines.
    pub fn say(&mut self, words: &str) -> Result<(), AllocError> {
        let mut rest = words.as_bytes();
        'items: while let Some((item, later)) = first_item(rest) {
            match item {
                Item::LineEnd => self.end_line()?,
                other => self.put(other)?,
            }
            rest = later;
        }
        Ok(())
    }

    /// Puts words of the program behind the text, one after another.
    pub(crate) fn say_all(&mut self, parts: &[&str]) -> Result<(), AllocError> {
        for words in parts {
            self.say(*words)?;
        }
        Ok(())
    }

    /// Puts a number behind the text.
    pub fn count(&mut self, number: u64) -> Result<(), AllocError> {
        if number >= 10 {
            self.count(number / 10)?;
        }
        self.append(&[b'0' + (number % 10) as u8])
    }

    /// Shows the front of bytes from outside: a word, or the line of a file. Where they are many, `..` says so.
    pub fn show(&mut self, bytes: &[u8]) -> Result<(), AllocError> {
        let mut rest = bytes;
        for _ in 0..MOST_SHOWN {
            match first_item(rest) {
                None => return Ok(()),
                Some((item, later)) => {
                    self.put(item)?;
                    rest = later;
                }
            }
        }
        if rest.is_empty() {
            return Ok(());
        }
        self.append(b"..")
    }

    /// Ends a line.
    pub fn end_line(&mut self) -> Result<(), AllocError> {
        self.append(b"\n")
    }
}
