// The walk over the pieces of a file, the same for all elements.
ghost use Rattle.std.specs.Prelude.{◌≡◌, ◌<◌, ◌∷◌, length, None};
ghost use Rattle.robinx.specs.SeenTag.{view_of};
ghost use Rattle.robinx.specs.Walk as walk;
ghost use Rattle.robinx.specs.SeenPosition.{position_of};
ghost use Rattle.robinx.specs.declared.fault.ReadFault.TheVariants as faults;
ghost use Rattle.robinx.specs.Answers.{Changes, Walks, answer_on};

use crate::element::Element;
use crate::fault::{FormFault, ReadFault};
use crate::position::{Open, Position};
use crate::reader::TagReader;
use crate::reads::Reads;
use crate::tag::{Tag, TagKind};
use crate::tag_fault::{FormKind, Stop};
use std::alloc::Global;
use std::mem::replace;

fn fault(kind: FormKind, line: u32) -> ReadFault
    ensures { result ≡ faults.Form (record { kind = kind; line = line }) }
{
    ReadFault::Form(FormFault { kind, line })
}

/// A Start in an element that is read.
fn begin<'a, R: Reads>(
    alloc: Global,
    position: &mut Position<'a>,
    read: &mut R,
    tag: &Tag<'a>,
) -> Result<(), Stop>
    requires { position.old.passing ≡ None }
    ensures { Changes (walk.begun R.meaning (view_of tag.now) (position_of position.old read.old))
        result (position_of position.new read.new) }
{
    match position.inner.begins(tag.name)? {
        None => {
            position.passing = Some(tag.name);
            Ok(())
        }
        Some(row) => {
            read.started(alloc, row.element, &tag.attrs)?;
            position.inner.note(row.times, tag.name)?;
            let within = Open::new(alloc, row.element, tag.line);
            let around = replace(&mut position.inner, within);
            position.outer.insert(0, around)?;
            Ok(())
        }
    }
}

/// A Start: nothing to an element that is passed over.
fn at_start<'a, R: Reads>(
    alloc: Global,
    position: &mut Position<'a>,
    read: &mut R,
    tag: &Tag<'a>,
) -> Result<(), Stop>
    ensures { Changes (walk.at_start R.meaning (view_of tag.now) (position_of position.old read.old))
        result (position_of position.new read.new) }
{
    match position.passing {
        Some(_) => Ok(()),
        None => begin(alloc, position, read, tag),
    }
}

/// The End of this element: it is its own, and all that has to stand in it was read.
fn close<R: Reads>(inner: &Open, read: &mut R, tag: &Tag) -> Result<(), ReadFault>
    ensures { Walks (walk.closed R.meaning inner.now (view_of tag.now) read.old) result read.new }
{
    let element = inner.element();
    if element.name() != tag.name {
        return Err(fault(FormKind::BadNesting, tag.line));
    }
    if !inner.is_complete() {
        return Err(fault(FormKind::MissingElement, tag.line));
    }
    match read.ended(element, inner.value()) {
        Ok(()) => Ok(()),
        Err(stop) => Err(ReadFault::from(stop.on_line(end_line(inner, tag.line)))),
    }
}

/// Goes back to the element around the innermost.
fn leave(position: &mut Position)
    requires { 0 < length position.old.outer.items }
    ensures around { position.old.outer.items ≡ position.new.inner ∷ position.new.outer.items }
    ensures passing { position.new.passing ≡ position.old.passing }
{
    let around = position.outer.remove(0);
    let _inner = replace(&mut position.inner, around);
}

/// The End of an element that is read.
fn ended<'a, R: Reads>(
    position: &mut Position<'a>,
    read: &mut R,
    tag: &Tag<'a>,
) -> Result<(), ReadFault>
    requires { position.old.passing ≡ None }
    ensures { Walks
        (walk.ended R.meaning position.old.outer.items (view_of tag.now) (position_of position.old read.old))
        result (position_of position.new read.new) }
{
    if position.outer.is_empty() {
        return Err(fault(FormKind::BadNesting, tag.line));
    }
    close(&position.inner, read, tag)?;
    leave(position);
    Ok(())
}

/// The line of what is wrong with an element at its End: a value's is that of its Start.
fn end_line(element: &Open, line: u32) -> u32
    ensures { result ≡ walk.end_line element.now line }
{
    if element.element().has_value() {
        element.line()
    } else {
        line
    }
}

/// An End: the first of its own name ends an element that is passed over.
fn at_end<'a, R: Reads>(
    position: &mut Position<'a>,
    read: &mut R,
    tag: &Tag<'a>,
) -> Result<(), ReadFault>
    ensures { Walks (walk.at_end R.meaning (view_of tag.now) (position_of position.old read.old))
        result (position_of position.new read.new) }
{
    match position.passing {
        Some(name) => {
            if name == tag.name {
                position.passing = None;
            }
            Ok(())
        }
        None => ended(position, read, tag),
    }
}

/// A piece. An `Empty` is its Start and then its End.
fn at_piece<'a, R: Reads>(
    alloc: Global,
    position: &mut Position<'a>,
    read: &mut R,
    tag: &Tag<'a>,
) -> Result<(), ReadFault>
    ensures { Walks (walk.at_piece R.meaning tag.now.kind (view_of tag.now) (position_of position.old read.old))
        result (position_of position.new read.new) }
{
    match tag.kind {
        TagKind::Start => on_line(at_start(alloc, position, read, tag), tag.line),
        TagKind::End => at_end(position, read, tag),
        TagKind::Empty => {
            on_line(at_start(alloc, position, read, tag), tag.line)?;
            at_end(position, read, tag)
        }
        TagKind::Text => {
            if position.passing.is_none() && position.inner.element().has_value() {
                on_line(position.inner.add_text(tag.text), tag.line)?;
            }
            Ok(())
        }
    }
}

/// The fault on this line, if there is one.
fn on_line(done: Result<(), Stop>, line: u32) -> Result<(), ReadFault>
    ensures { result ≡ answer_on line done }
{
    match done {
        Ok(()) => Ok(()),
        Err(stop) => Err(ReadFault::from(stop.on_line(line))),
    }
}

/// Reads the pieces that are left into `read`, from this position on.
fn read_pieces<'a, R: Reads>(
    alloc: Global,
    tags: &mut TagReader<'a>,
    position: &mut Position<'a>,
    read: &mut R,
) -> Result<(), ReadFault>
    ensures { Walks
        (walk.walk R.meaning tags.old.items tags.old.last (position_of position.old read.old))
        result read.new }
{
    'pieces: while let Some(tag) = tags.next(alloc)? {
        at_piece(alloc, position, read, &tag)?;
    }
    if !position.outer.is_empty() || !position.inner.is_complete() {
        return Err(fault(FormKind::Truncated, tags.end_line()));
    }
    Ok(())
}

/// Reads a whole file of this kind, `InstanceFile` or `SolutionFile`, piece by piece into `read`.
///
/// # Errors
/// `Form` exactly where the file has a fault: its first one, of a piece or of the reading, with its line. `Mem` where
/// memory runs out. What `read` then holds isn't said.
pub fn read_file<'a, R: Reads>(
    alloc: Global,
    tags: TagReader<'a>,
    file: Element,
    read: &mut R,
) -> Result<(), ReadFault>
    ensures { Walks (walk.reading R.meaning file read.old tags.entry) result read.new }
{
    let mut tags = tags;
    let mut position = Position {
        inner: Open::new(alloc, file, 0),
        outer: Vec::new(alloc),
        passing: None,
    };
    read_pieces(alloc, &mut tags, &mut position, read)
}
