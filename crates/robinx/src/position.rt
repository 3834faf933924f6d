// How far a walk over a file has come: the elements that are open there.
ghost use Rattle.std.specs.Prelude.{◌≡◌, ◌++◌, [], bytes_eq, Ok};
ghost use Rattle.std.specs.List.{list_any};
ghost use Rattle.robinx.specs.Fronts as fronts;
ghost use Rattle.robinx.specs.Walk as walk;
ghost use Rattle.robinx.specs.Answers.{Changes};

use crate::element::{Element, Row, Times};
use crate::fronts::trimmed;
use crate::tag_fault::{FormKind, Stop};
use std::alloc::Global;
use std::marker::Model;

/// An element whose End is still to come.
#[derive(Drop)]
pub(crate) struct Open<'a> {
    element: Element,
    line: u32,
    seen: Vec<&'a [u8]>,
    text: Vec<u8>,
}

impl<'a> Model for Open<'a> {
    ghost use Rattle.robinx.specs.Walk as walk;
    ghost use Rattle.robinx.specs.Seen.{names_of};

    ghost Value = { walk.Open };

    ghost view = { λ o. record {
      element = o.element;
      line = o.line;
      seen = names_of o.seen.items;
      text = o.text.items;
    } };
}

/// The innermost open element and those around it, the nearest first, and the name of what is passed over there.
#[derive(Drop)]
pub(crate) struct Position<'a> {
    pub inner: Open<'a>,
    pub outer: Vec<Open<'a>>,
    pub passing: Option<&'a [u8]>,
}

/// Whether one more may come.
fn may_come(times: Times, seen: bool) -> bool
    ensures { result ≡ walk.may_come times seen }
{
    match times {
        Times::Once | Times::AtMostOnce => !seen,
        Times::Any => true,
    }
}

/// Whether an element needn't come any more.
fn is_met(times: Times, seen: bool) -> bool
    ensures { result ≡ walk.is_met times seen }
{
    match times {
        Times::Once => seen,
        Times::AtMostOnce | Times::Any => true,
    }
}

fn has_name(names: &[&[u8]], name: &[u8]) -> bool
    ensures { result ≡ list_any (λ n. bytes_eq name.now n.now) names.now }
{
    names.iter().any(|known| name == *known)
}

impl<'a> Open<'a> {
    /// An element that begins on this line. Nothing was read in it. No memory is taken.
    pub(crate) fn new(alloc: Global, element: Element, line: u32) -> Self
        ensures { result ≡ record { element = element; line = line; seen = []; text = [] } }
    {
        Open {
            element,
            line,
            seen: Vec::new(alloc),
            text: Vec::new(alloc),
        }
    }

    /// Which element it is.
    pub(crate) fn element(&self) -> Element
        ensures { result ≡ self.now.element }
    {
        self.element
    }

    /// The line of its Start, from 1. A file's is 0.
    pub(crate) fn line(&self) -> u32
        ensures { result ≡ self.now.line }
    {
        self.line
    }

    /// The element's text, all pieces of it joined, freed of white bytes (space, tab, CR, LF) at both ends.
    pub(crate) fn value(&self) -> &[u8]
        ensures { result.now ≡ fronts.trimmed self.now.text }
    {
        trimmed(&self.text)
    }

    /// Whether an element of this name, which may stand in it once, was read in it.
    #[tactic(auto, using(crate::proofs::PositionLemmas::seen_in))]
    fn is_seen(&self, name: &[u8]) -> bool
        ensures { result ≡ walk.is_seen self.now name.now }
    {
        has_name(&self.seen, name)
    }

    /// What begins in it by a Start of this name: an element that is read, or None where it is passed over.
    ///
    /// # Errors
    /// `BadNesting` or `UnsupportedClass` where no such element may stand in it (`Element::unlisted`), and
    /// `RepeatedElement`, in a file `BadNesting`, where it may stand once and was read before.
    pub(crate) fn begins(&self, name: &[u8]) -> Result<Option<Row>, FormKind>
        ensures { result ≡ walk.begins self.now name.now }
    {
        match self.element.row_of(name) {
            Some(row) if may_come(row.times, self.is_seen(name)) => Ok(Some(row)),
            Some(_) => Err(self.element.repeated()),
            None => match self.element.unlisted() {
                Some(kind) => Err(kind),
                None => Ok(None),
            },
        }
    }

    /// Whether all that has to stand in it was read: each row of `Times::Once` was noted.
    pub(crate) fn is_complete(&self) -> bool
        ensures { result ≡ walk.is_complete self.now }
    {
        self.element
            .inside()
            .iter()
            .all(|row| is_met(row.times, self.is_seen(row.element.name())))
    }

    /// Remembers that an element of this name was read in it, where it may not come again.
    ///
    /// # Errors
    /// `Mem` where memory runs out.
    pub(crate) fn note(&mut self, times: Times, name: &'a [u8]) -> Result<(), Stop>
        ensures { Changes (Ok (record self.old { seen = walk.with_seen times name.now self.old.seen }))
            result self.new }
    {
        match times {
            Times::Once | Times::AtMostOnce => self.seen.push(name)?,
            Times::Any => {}
        }
        Ok(())
    }

    /// Joins a text to those before it.
    ///
    /// # Errors
    /// `Mem` where memory runs out.
    pub(crate) fn add_text(&mut self, text: &[u8]) -> Result<(), Stop>
        ensures { Changes (Ok (record self.old { text = self.old.text ++ text.now })) result self.new }
    {
        self.text.extend_from_slice(text)?;
        Ok(())
    }
}
