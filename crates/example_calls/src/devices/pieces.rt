//! The pieces of small files: each with its line, and then the line of the end, or the first fault.
use crate::telling::words_of;
use robinx::{Attr, Tag, TagFault, TagKind, TagReader};
use std::io;

/// The most bytes of a file.
const MOST: usize = 16_777_216;

/// Shows the pieces of a file, then the line of its end or its first fault, which is asked for twice.
pub fn show(rt: &HostRuntime, bytes: &[u8]) -> io::Result<()> {
    let mut reader = TagReader::new(&bytes[..bytes.len().min(MOST)]);
    for _ in 0..bytes.len() + 1 {
        let next = reader.next(rt.alloc());
        let is_piece = matches!(&next, Ok(Some(_)));
        show_next(rt, &mut reader, next)?;
        if !is_piece {
            break;
        }
    }
    Ok(())
}

/// Shows what a reader gave: a piece, the line of the end, or a fault.
fn show_next(
    rt: &HostRuntime,
    reader: &mut TagReader,
    next: Result<Option<Tag>, TagFault>,
) -> io::Result<()> {
    match next {
        Ok(Some(tag)) => show_tag(rt, &tag),
        Ok(None) => println!(rt; "end {}", reader.end_line()),
        Err(fault) => show_twice(rt, &fault, &reader.next(rt.alloc()).err()),
    }
}

/// Shows a fault, and where another is said then.
fn show_twice(rt: &HostRuntime, fault: &TagFault, again: &Option<TagFault>) -> io::Result<()> {
    let end = match again {
        Some(other) if other == fault => "",
        _ => ", and then not",
    };
    match fault {
        TagFault::Form { kind, line } => println!(rt; "{kind:?} {line}{end}"),
        TagFault::Mem => println!(rt; "out of memory{end}"),
    }
}

/// Shows a piece as its line, its kind and its name or text, and its attributes.
fn show_tag(rt: &HostRuntime, tag: &Tag) -> io::Result<()> {
    let (line, name) = (tag.line, words_of(tag.name));
    let sign = match tag.kind {
        TagKind::Start => "<",
        TagKind::End => "</",
        TagKind::Empty => "/",
        TagKind::Text => return print!(rt; "{line}:{:?}|", words_of(tag.text)),
    };
    print!(rt; "{line}:{sign}{name}")?;
    for attr in tag.attrs.as_slice() {
        let (name, value) = (words_of(attr.name), words_of(attr.value));
        print!(rt; " {name}={value}")?;
    }
    rt.print("|")
}

/// Shows an attribute of the first tag of a text, or the one that has neither name nor value where there is no tag.
pub fn show_attribute(rt: &HostRuntime, asked: &str) -> io::Result<()> {
    let (name, text) = asked.split_once(' ').unwrap_or((asked, ""));
    let text = text.as_bytes();
    match TagReader::new(&text[..text.len().min(MOST)]).next(rt.alloc()) {
        Ok(Some(tag)) => show_value(rt, &tag, name),
        Ok(None) => show_default(rt),
        Err(fault) => println!(rt; "{fault}"),
    }
}

/// Shows how many attributes a tag has, and the value of one of them.
fn show_value(rt: &HostRuntime, tag: &Tag, name: &str) -> io::Result<()> {
    let count = tag.attrs.as_slice().len();
    let value = words_of(tag.attrs.get(name.as_bytes()).unwrap_or(b"none"));
    let there = tag.attrs.contains(name.as_bytes());
    println!(rt; "attributes: {count}, {name}: {value}, there: {there}")
}

/// Shows the attribute that has neither name nor value.
fn show_default(rt: &HostRuntime) -> io::Result<()> {
    let attr = Attr::default();
    let (name, value) = (words_of(attr.name), words_of(attr.value));
    println!(rt; "name '{name}', value '{value}'")
}
