use crate::Attrs;

/// What a piece is.
#[derive(Clone, Copy, Debug, PartialEq, Eq)]
pub enum TagKind {
    /// `<name ..>`
    Start,
    /// `</name>`
    End,
    /// `<name ../>`, which means its `Start` and then its `End`.
    Empty,
    /// What stands between tags, up to the next `<`.
    Text,
}

/// A piece of a file, whose parts are raw bytes of the file.
#[derive(Drop)]
pub struct Tag<'a> {
    pub kind: TagKind,
    /// The name of a tag. A text has none.
    pub name: &'a [u8],
    /// The attributes of a `Start` or an `Empty`. Other pieces have none.
    pub attrs: Attrs<'a>,
    /// The bytes of a `Text`. Other pieces have none.
    pub text: &'a [u8],
    /// The line of the piece's first byte, from 1.
    pub line: u32,
}
