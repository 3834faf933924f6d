// What begins at a place, and where comments and declarations end.
ghost use Rattle.std.specs.Prelude.{◌≡◌, ◌<◌, length, option_map};
ghost use Rattle.robinx.specs.Pieces as pieces;

use memchr::memmem;

/// What begins at a place.
#[derive(Clone, Copy)]
pub(crate) enum Opening {
    /// `<!--`
    Comment,
    /// `<?`
    Declaration,
    /// Any other `<!`, which no file may have.
    Reserved,
    /// `</`
    EndTag,
    /// Any other `<`.
    StartTag,
    /// Text.
    Content,
}

/// What begins here, and the bytes after its mark.
pub(crate) fn opening_at(bytes: &[u8]) -> (Opening, &[u8])
    ensures { (result.0, result.1.now) ≡ pieces.opening_at bytes.now }
{
    match bytes {
        [b'<', b'!', b'-', b'-', rest @ ..] => (Opening::Comment, rest),
        [b'<', b'?', rest @ ..] => (Opening::Declaration, rest),
        [b'<', b'!', rest @ ..] => (Opening::Reserved, rest),
        [b'<', b'/', rest @ ..] => (Opening::EndTag, rest),
        [b'<', rest @ ..] => (Opening::StartTag, rest),
        _ => (Opening::Content, bytes),
    }
}

/// The bytes after the first place at which this text stands.
#[tactic(auto, using(crate::proofs::PieceTexts::after_text_is))]
pub(crate) fn after_text<'a>(text: &[u8], bytes: &'a [u8]) -> Option<&'a [u8]>
    requires { 0 < length text.now }
    ensures { option_map (λ rest. rest.now) result ≡ pieces.after_text text.now bytes.now }
{
    let at = memmem::find(bytes, text)?;
    Some(&bytes[at + text.len()..])
}
