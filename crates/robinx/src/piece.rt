// One piece, and the way to the next.
ghost use Rattle.std.specs.Prelude.{◌≡◌, ◌+◌, ◌<◌, ◌^◌, length, option_map, IfOk, IsErrOf};
ghost use Rattle.robinx.specs.Tags as tags;
ghost use Rattle.robinx.specs.Pieces as pieces;
ghost use Rattle.robinx.specs.SeenPieces.{Finds, Gives};
ghost use Rattle.robinx.specs.SeenTag.{view_of};
ghost use Rattle.robinx.specs.Moves.{MovesOn, PassesOver};

use crate::bytes::{line_past, text_len};
use crate::opening::{Opening, after_text, opening_at};
use crate::reading::{end_tag, start_tag};
use crate::tag_fault::Stop;
use crate::{Attrs, FormKind, Tag, TagFault, TagKind};
use std::alloc::Global;

/// What is passed over, up to and with this text.
fn passed_to<'a>(text: &[u8], bytes: &'a [u8]) -> Result<(Option<Tag<'a>>, &'a [u8]), FormKind>
    requires { 0 < length text.now }
    ensures { Finds (λ x. (option_map view_of x.0, x.1.now)) result (pieces.passed_to text.now bytes.now) }
{
    match after_text(text, bytes) {
        Some(rest) => Ok((None, rest)),
        None => Err(FormKind::Truncated),
    }
}

/// An end tag on this line, from behind its `</` on, and the bytes after it.
fn end_piece<'a>(
    alloc: Global,
    line: u32,
    bytes: &'a [u8],
) -> Result<(Option<Tag<'a>>, &'a [u8]), FormKind>
    ensures { Finds (λ x. (option_map view_of x.0, x.1.now)) result (pieces.end_piece line bytes.now) }
{
    let (name, rest) = end_tag(bytes)?;
    let tag = Tag {
        kind: TagKind::End,
        name,
        attrs: Attrs::new(alloc),
        text: &[],
        line,
    };
    Ok((Some(tag), rest))
}

/// A start tag or an empty tag on this line, from behind its `<` on, and the bytes after it.
fn start_piece<'a>(
    alloc: Global,
    line: u32,
    bytes: &'a [u8],
) -> Result<(Option<Tag<'a>>, &'a [u8]), Stop>
    ensures piece { Gives (λ x. (option_map view_of x.0, x.1.now)) result (pieces.start_piece line bytes.now) }
    ensures memory { IsErrOf result Stop.Mem → tags.without_memory < tags.tag_attributes bytes.now }
{
    let (kind, name, attrs, rest) = start_tag(alloc, bytes)?;
    let tag = Tag {
        kind,
        name,
        attrs,
        text: &[],
        line,
    };
    Ok((Some(tag), rest))
}

/// A text on this line, up to the next `<`, and the bytes from there on.
fn text_piece<'a>(alloc: Global, line: u32, bytes: &'a [u8]) -> (Tag<'a>, &'a [u8])
    ensures { pieces.text_piece line bytes.now ≡ Ok (Some (view_of result.0), result.1.now) }
{
    let (text, rest) = bytes.split_at(text_len(bytes));
    let tag = Tag {
        kind: TagKind::Text,
        name: &[],
        attrs: Attrs::new(alloc),
        text,
        line,
    };
    (tag, rest)
}

/// What stands here on this line, a piece or what is passed over, and the bytes after it.
fn piece_at<'a>(
    alloc: Global,
    line: u32,
    bytes: &'a [u8],
) -> Result<(Option<Tag<'a>>, &'a [u8]), Stop>
    ensures piece { Gives (λ x. (option_map view_of x.0, x.1.now)) result (pieces.piece_at line bytes.now) }
    ensures memory { IsErrOf result Stop.Mem → tags.without_memory < pieces.attributes_here bytes.now }
{
    let (opening, after) = opening_at(bytes);
    match opening {
        Opening::Comment => Ok(passed_to(b"-->", after)?),
        Opening::Declaration => Ok(passed_to(b"?>", after)?),
        Opening::Reserved => Err(Stop::Form(FormKind::BadTag)),
        Opening::EndTag => Ok(end_piece(alloc, line, after)?),
        Opening::StartTag => start_piece(alloc, line, after),
        Opening::Content => {
            let (tag, rest) = text_piece(alloc, line, after);
            Ok((Some(tag), rest))
        }
    }
}

/// One step at a place where a byte stands: what stands there, and the line and the bytes after it.
fn step<'a>(
    alloc: Global,
    line: u32,
    bytes: &'a [u8],
) -> Result<(Option<Tag<'a>>, u32, &'a [u8]), TagFault>
    requires some { 0 < length bytes.now }
    requires fits { line + length bytes.now < 2 ^ 32 }
    ensures pieces { PassesOver (pieces.pieces_from line 0 bytes.now) result }
    ensures shorter { IfOk result (λ x. length x.2.now < length bytes.now) }
    ensures fits { IfOk result (λ x. x.1 + length x.2.now < 2 ^ 32) }
{
    match piece_at(alloc, line, bytes) {
        Ok((found, after)) => {
            // Each step passes at least one byte.
            let passed = bytes.len().saturating_sub(after.len()).max(1);
            let (front, rest) = bytes.split_at(passed);
            Ok((found, line_past(line, front), rest))
        }
        Err(stop) => Err(stop.on_line(line)),
    }
}

/// The next piece from here, where comments and declarations are passed over, and the line and the bytes after it.
pub(crate) fn next_from<'a>(
    alloc: Global,
    line: u32,
    bytes: &'a [u8],
) -> Result<(Option<Tag<'a>>, u32, &'a [u8]), TagFault>
    requires { line + length bytes.now < 2 ^ 32 }
    ensures pieces { MovesOn (pieces.pieces_from line 0 bytes.now) result }
    ensures fits { IfOk result (λ x. x.1 + length x.2.now < 2 ^ 32) }
{
    let mut line = line;
    let mut rest = bytes;
    while !rest.is_empty() {
        let (found, line_behind, behind) = step(alloc, line, rest)?;
        line = line_behind;
        rest = behind;
        if found.is_some() {
            return Ok((found, line, rest));
        }
    }
    Ok((None, line, rest))
}
