// What stands in tags: names, attributes and ends.
ghost use Rattle.std.specs.Prelude.{◌≡◌, ◌+◌, ◌<◌, length, not, IsErrOf};
ghost use Rattle.std.specs.List.{list_any};
ghost use Rattle.robinx.specs.Bytes as letters;
ghost use Rattle.robinx.specs.Fronts as fronts;
ghost use Rattle.robinx.specs.Tags as tags;
ghost use Rattle.robinx.specs.declared.tag_fault.FormKind.TheVariants as kinds;
ghost use Rattle.robinx.specs.SeenPieces.{Finds, Gives};
ghost use Rattle.robinx.specs.SeenAttr.{attribute_of};

use crate::bytes::{is_name_start, name_len, starts_white, value_len};
use crate::fronts::{after_byte, after_mark, after_white, quote_at};
use crate::tag_fault::Stop;
use crate::turn::Turn;
use crate::{Attr, Attrs, FormKind, TagKind};
use std::alloc::Global;

/// The most attributes that a tag may have.
const MOST_ATTRIBUTES: u8 = 64;

/// A name, and the bytes after it.
fn name_at(bytes: &[u8]) -> Result<(&[u8], &[u8]), FormKind>
    ensures { Finds (λ x. (x.0.now, x.1.now)) result (tags.name_at bytes.now) }
{
    match bytes {
        [] => Err(FormKind::Truncated),
        [first, ..] if is_name_start(*first) => Ok(bytes.split_at(name_len(bytes))),
        [_, ..] => Err(FormKind::BadTag),
    }
}

/// The name of an end tag, and the bytes after the tag.
pub(crate) fn end_tag(bytes: &[u8]) -> Result<(&[u8], &[u8]), FormKind>
    ensures { Finds (λ x. (x.0.now, x.1.now)) result (tags.end_tag bytes.now) }
{
    let (name, after) = name_at(bytes)?;
    let rest = after_mark(after, b'>', FormKind::BadTag)?;
    Ok((name, rest))
}

/// A value that this quote closes, and the bytes after the quote.
fn value_to(quote: u8, bytes: &[u8]) -> Result<(&[u8], &[u8]), FormKind>
    ensures { Finds (λ x. (x.0.now, x.1.now)) result (tags.value_to quote bytes.now) }
{
    let (value, after) = bytes.split_at(value_len(quote, bytes));
    let rest = after_byte(after, quote, FormKind::BadAttribute)?;
    Ok((value, rest))
}

/// A fault where an earlier attribute has this name.
fn check_new(name: &[u8], earlier: &Attrs) -> Result<(), FormKind>
    ensures { Finds (λ _. tt) result
        (fronts.check (not (list_any (tags.has_name name.now) earlier.now)) kinds.RepeatedAttribute) }
{
    if earlier.contains(name) {
        return Err(FormKind::RepeatedAttribute);
    }
    Ok(())
}

/// An attribute that has the name of no earlier one, and the bytes after it.
fn attribute_at<'a>(earlier: &Attrs, bytes: &'a [u8]) -> Result<(Attr<'a>, &'a [u8]), FormKind>
    ensures { Finds (λ x. (attribute_of x.0, x.1.now)) result (tags.attribute_at earlier.now bytes.now) }
{
    let (name, after_name) = name_at(bytes)?;
    let after_equals = after_mark(after_name, b'=', FormKind::BadAttribute)?;
    let (quote, after_quote) = quote_at(after_equals)?;
    let (value, rest) = value_to(quote, after_quote)?;
    check_new(name, earlier)?;
    Ok((Attr { name, value }, rest))
}

/// What this byte does, white bytes standing before it or not.
fn turn_of(white: bool, byte: u8) -> Turn
    ensures { result ≡ tags.turn_of white byte }
{
    if byte == b'>' {
        Turn::Closes
    } else if byte == b'/' {
        Turn::Slash
    } else if white && is_name_start(byte) {
        Turn::Begins
    } else {
        Turn::Wrong
    }
}

/// What the next byte after white bytes does, and the bytes after it.
fn turn_at(bytes: &[u8]) -> Result<(Turn, &[u8]), FormKind>
    ensures { Finds (λ x. (x.0, x.1.now)) result (tags.turn_at bytes.now) }
{
    match after_white(bytes) {
        [] => Err(FormKind::Truncated),
        [byte, rest @ ..] => Ok((turn_of(starts_white(bytes), *byte), rest)),
    }
}

/// How the tag ends and the bytes after it, or None where an attribute begins, with the bytes from there on.
fn end_at(bytes: &[u8]) -> Result<(Option<TagKind>, &[u8]), FormKind>
    ensures { Finds (λ x. (x.0, x.1.now)) result (tags.end_at bytes.now) }
{
    let (turn, after) = turn_at(bytes)?;
    match turn {
        Turn::Closes => Ok((Some(TagKind::Start), after)),
        Turn::Slash => {
            let rest = after_byte(after, b'>', FormKind::BadTag)?;
            Ok((Some(TagKind::Empty), rest))
        }
        Turn::Begins => Ok((None, after_white(bytes))),
        Turn::Wrong => Err(FormKind::BadTag),
    }
}

/// How a tag ends after its name, and the bytes after it. Its attributes are put behind those that are there.
fn attributes_at<'a>(attrs: &mut Attrs<'a>, bytes: &'a [u8]) -> Result<(TagKind, &'a [u8]), Stop>
    ensures tag { Gives (λ x. ((x.0, attrs.new), x.1.now)) result (tags.attributes_at 64 attrs.old bytes.now) }
    ensures memory { IsErrOf result Stop.Mem
        → tags.without_memory < length attrs.old + tags.more_attributes 64 attrs.old bytes.now }
{
    let mut rest = bytes;
    let mut left = MOST_ATTRIBUTES;
    'attributes: loop {
        let (end, begin) = end_at(rest)?;
        match end {
            Some(kind) => return Ok((kind, begin)),
            None if left == 0 => return Err(Stop::Form(FormKind::TooManyAttributes)),
            None => {
                let (attr, after) = attribute_at(attrs, begin)?;
                attrs.push(attr)?;
                rest = after;
                left -= 1;
            }
        }
    }
}

/// The kind, the name and the attributes of a start tag or an empty tag, and the bytes after it.
pub(crate) fn start_tag<'a>(
    alloc: Global,
    bytes: &'a [u8],
) -> Result<(TagKind, &'a [u8], Attrs<'a>, &'a [u8]), Stop>
    ensures tag { Gives (λ x. ((x.0, x.1.now, x.2), x.3.now)) result (tags.start_tag bytes.now) }
    ensures memory { IsErrOf result Stop.Mem → tags.without_memory < tags.tag_attributes bytes.now }
{
    let (name, after) = name_at(bytes)?;
    let mut attrs = Attrs::new(alloc);
    let (kind, rest) = attributes_at(&mut attrs, after)?;
    Ok((kind, name, attrs, rest))
}
