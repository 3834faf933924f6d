//! Bytes cut into items, each of which is told as it is or escaped.
ghost use Rattle.std.specs.Prelude.{◌≡◌, ◌<◌, ◌≤◌, true, length, IfNone, IfSome, MatchOption};
ghost use Rattle.answers.specs.Printable.{is_letter, is_plain};
ghost use Rattle.answers.specs.Items.{IsItem};

/// What stands at the front of some bytes.
pub(crate) enum Item {
    /// A printable ASCII character.
    Plain(u8),
    /// The end of a line.
    LineEnd,
    /// A letter of two bytes.
    Letter(u8, u8),
    /// A byte that isn't told as it is.
    Other(u8),
}

/// The item at the front, and the bytes behind it.
pub(crate) fn first_item(bytes: &[u8]) -> Option<(Item, &[u8])>
    ensures item { IfSome result (λ cut. IsItem cut.0) }
    ensures shorter { IfSome result (λ cut. length cut.1.now < length bytes.now) }
{
    match bytes {
        [] => None,
        [b'\n', rest @ ..] => Some((Item::LineEnd, rest)),
        [byte @ 32..=126, rest @ ..] => Some((Item::Plain(*byte), rest)),
        [lead @ 195..=212, tail @ 128..=191, rest @ ..] => Some((Item::Letter(*lead, *tail), rest)),
        [byte, rest @ ..] => Some((Item::Other(*byte), rest)),
    }
}
