// Single bytes at the front of what is left, and white bytes before them.
ghost use Rattle.std.specs.Prelude.{◌≡◌, ◌==◌, codes};
ghost use Rattle.robinx.specs.Bytes.{is_one_of};
ghost use Rattle.robinx.specs.Fronts as fronts;
ghost use Rattle.robinx.specs.declared.tag_fault.FormKind.TheVariants as kinds;
ghost use Rattle.robinx.specs.SeenPieces.{Finds};

use crate::FormKind;
use crate::bytes::{len_without_white, white_len};

/// The bytes after white bytes.
pub(crate) fn after_white(bytes: &[u8]) -> &[u8]
    ensures { result.now ≡ fronts.after_white bytes.now }
{
    &bytes[white_len(bytes)..]
}

/// A text without white bytes (space, tab, CR, LF) at both ends.
pub fn trimmed(text: &[u8]) -> &[u8]
    ensures { result.now ≡ fronts.trimmed text.now }
{
    let rest = after_white(text);
    &rest[..len_without_white(rest)]
}

/// The bytes after this byte, which has to come next.
pub(crate) fn after_byte(bytes: &[u8], byte: u8, kind: FormKind) -> Result<&[u8], FormKind>
    ensures { Finds (λ rest. (byte, rest.now)) result (fronts.next kind (λ b. b == byte) bytes.now) }
{
    match bytes {
        [] => Err(FormKind::Truncated),
        [first, rest @ ..] if *first == byte => Ok(rest),
        [_, ..] => Err(kind),
    }
}

/// The bytes after white bytes and this byte.
pub(crate) fn after_mark(bytes: &[u8], byte: u8, kind: FormKind) -> Result<&[u8], FormKind>
    ensures { Finds (λ rest. (byte, rest.now)) result (fronts.mark kind (λ b. b == byte) bytes.now) }
{
    after_byte(after_white(bytes), byte, kind)
}

/// The quote after white bytes, and the bytes after it.
pub(crate) fn quote_at(bytes: &[u8]) -> Result<(u8, &[u8]), FormKind>
    ensures { Finds (λ x. (x.0, x.1.now)) result (fronts.mark kinds.BadAttribute (is_one_of (codes "\"'")) bytes.now) }
{
    match after_white(bytes) {
        [] => Err(FormKind::Truncated),
        [quote @ (b'"' | b'\''), rest @ ..] => Ok((*quote, rest)),
        [_, ..] => Err(FormKind::BadAttribute),
    }
}
