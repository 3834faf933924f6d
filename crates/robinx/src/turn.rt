/// What a byte does after a tag's name or an attribute.
#[derive(Clone, Copy)]
pub(crate) enum Turn {
    /// The byte ends the tag, as `>` does.
    Closes,
    /// The byte ends an empty tag, if `>` follows.
    Slash,
    /// The byte begins an attribute.
    Begins,
    /// The byte may not stand there.
    Wrong,
}
