// The reader of a whole file.
ghost use Rattle.std.specs.Prelude.{◌≡◌, ◌≤◌, ℕ, length};
ghost use Rattle.robinx.specs.Pieces.{Ends, pieces};
ghost use Rattle.robinx.specs.Next.{GivesNext};

use crate::bytes::line_past;
use crate::piece::next_from;
use crate::{Tag, TagFault};
use std::alloc::Global;
use std::marker::Model;

/// A reader of a file's pieces, from front to back.
///
/// A contract sees it as the pieces that are left, and how they end: with the file, or with the first fault.
#[derive(Drop)]
pub struct TagReader<'a> {
    rest: &'a [u8],
    line: u32,
}

impl<'a> Model for TagReader<'a> {
    ghost use Rattle.robinx.specs.Pieces.{Pieces};

    ghost Value = { Pieces };

    ghost use Rattle.std.specs.Prelude.{◌+◌, ◌^◌, ◌<◌, length};
    ghost use Rattle.robinx.specs.Pieces.{pieces_from};

    ghost view = { λ r. pieces_from r.line 0 r.rest.now };

    ghost invariant = { λ r. r.line + length r.rest.now < 2 ^ 32 };
}

impl<'a> TagReader<'a> {
    /// A reader at the front of a file of at most 16,777,216 bytes. A byte order mark is passed over.
    pub fn new(bytes: &'a [u8]) -> Self
        requires { length bytes.now ≤ 16777216 }
        ensures { result ≡ pieces bytes.now }
    {
        let rest = match bytes {
            [0xEF, 0xBB, 0xBF, rest @ ..] => rest,
            _ => bytes,
        };
        TagReader { rest, line: 1 }
    }

    /// The next piece, None at the file's end, or the fault of what stands next, with the line of its first byte.
    ///
    /// Each piece is the first of those that are left, and the others are left then. So calls from `new` on give the
    /// pieces of the file one by one, and then None or the fault, as often as they are made: a whole run is this
    /// clause for each of its calls.
    ///
    /// # Errors
    /// The fault of form of what stands next; or that memory ran out, only at a tag that has a ninth attribute before
    /// its end or its fault. The reader is then as it was.
    pub fn next(&mut self, alloc: Global) -> Result<Option<Tag<'a>>, TagFault>
        ensures { GivesNext self.old result self.new }
    {
        let (tag, line, rest) = next_from(alloc, self.line, self.rest)?;
        self.line = line;
        self.rest = rest;
        Ok(tag)
    }

    /// The line of the file's end, where no fault is left before it.
    pub fn end_line(&self) -> u32
        ensures { (line : ℕ) → self.now.last ≡ Ends line → result ≡ line }
    {
        line_past(self.line, self.rest)
    }
}
