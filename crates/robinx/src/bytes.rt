// The bytes that tags are made of, and how far runs of them go.
ghost use Rattle.std.specs.Prelude.{◌≡◌, ◌+◌, ◌-◌, ◌==◌, ◌||◌, ◌<◌, ◌≤◌, ◌^◌, not, length, count_by};
ghost use Rattle.std.specs.List.{position_or_len, suffix_len};
ghost use Rattle.std.specs.Str.{byte};
ghost use Rattle.robinx.specs.Bytes as letters;
ghost use Rattle.robinx.specs.Fronts as fronts;

use memchr::{memchr, memchr_iter, memchr2};

/// How many bytes of a value are looked at one by one. Most values end within these, sooner than a search by vectors
/// would begin.
const NEAR: usize = 8;

/// Whether this byte is a space, a tab, a CR or an LF. Most bytes are above all four.
fn is_white(byte: u8) -> bool
    ensures { result ≡ letters.is_white byte }
{
    byte <= b' ' && matches!(byte, b' ' | b'\t' | b'\r' | b'\n')
}

/// Whether this byte may stand in a name: an ASCII letter or digit, `_`, `-`, `.`, `:`, or any byte from 128 up.
fn is_name_byte(byte: u8) -> bool
    ensures { result ≡ letters.is_name_byte byte }
{
    byte.is_ascii_alphabetic()
        || byte.is_ascii_digit()
        || matches!(byte, b'_' | b'-' | b'.' | b':')
        || byte >= 128
}

/// Whether a name may begin with this byte: a name byte other than a digit, `-`, `.` and `:`.
pub(crate) fn is_name_start(byte: u8) -> bool
    ensures { result ≡ letters.is_name_start byte }
{
    is_name_byte(byte) && !(byte.is_ascii_digit() || matches!(byte, b'-' | b'.' | b':'))
}

/// Whether the next byte is white.
pub(crate) fn starts_white(bytes: &[u8]) -> bool
    ensures { result ≡ fronts.starts_white bytes.now }
{
    match bytes {
        [first, ..] => is_white(*first),
        [] => false,
    }
}

/// How many white bytes these begin with.
#[tactic(auto, using(std::proofs::lemmas::List::Sums::position_or_len_is))]
pub(crate) fn white_len(bytes: &[u8]) -> usize
    ensures value { result ≡ position_or_len (λ b. not (letters.is_white b)) bytes.now }
    ensures within { result ≤ length bytes.now }
{
    let mut len = 0;
    while len < bytes.len() && is_white(bytes[len]) {
        len += 1;
    }
    len
}

/// How many bytes are left without the white bytes at the end.
#[tactic(auto, using(std::proofs::lemmas::List::Sums::suffix_len_is))]
pub(crate) fn len_without_white(bytes: &[u8]) -> usize
    ensures value { result ≡ length bytes.now - suffix_len letters.is_white bytes.now }
    ensures within { result ≤ length bytes.now }
{
    let mut len = bytes.len();
    while len > 0 && is_white(bytes[len - 1]) {
        len -= 1;
    }
    len
}

/// How many name bytes these begin with. It stands by itself, since its loop is slower within a larger function.
#[inline(never)]
#[tactic(auto, using(std::proofs::lemmas::List::Sums::position_or_len_is))]
pub(crate) fn name_len(bytes: &[u8]) -> usize
    ensures value { result ≡ position_or_len (λ b. not (letters.is_name_byte b)) bytes.now }
    ensures within { result ≤ length bytes.now }
{
    let mut len = 0;
    while len < bytes.len() && is_name_byte(bytes[len]) {
        len += 1;
    }
    len
}

/// How many bytes stand before the quote or a `<`, where most likely many do.
#[tactic(auto, using(crate::proofs::ByteSearch::first_or_len, crate::proofs::ByteSearch::found_within))]
fn long_value_len(quote: u8, bytes: &[u8]) -> usize
    ensures value { result ≡ position_or_len (λ b. b == quote || b == byte "<") bytes.now }
    ensures within { result ≤ length bytes.now }
{
    memchr2(quote, b'<', bytes).unwrap_or(bytes.len())
}

/// How many bytes stand before the quote or a `<`.
#[tactic(auto, using(std::proofs::lemmas::List::Sums::position_or_len_is))]
pub(crate) fn value_len(quote: u8, bytes: &[u8]) -> usize
    ensures value { result ≡ position_or_len (λ b. b == quote || b == byte "<") bytes.now }
    ensures within { result ≤ length bytes.now }
{
    let mut len = 0;
    while len < bytes.len() && len < NEAR {
        if bytes[len] == quote || bytes[len] == b'<' {
            return len;
        }
        len += 1;
    }
    len + long_value_len(quote, &bytes[len..])
}

/// How many bytes stand before a `<`.
#[tactic(auto, using(crate::proofs::ByteSearch::first_or_len, crate::proofs::ByteSearch::found_within))]
pub(crate) fn text_len(bytes: &[u8]) -> usize
    ensures value { result ≡ position_or_len (λ b. b == byte "<") bytes.now }
    ensures within { result ≤ length bytes.now }
{
    memchr(b'<', bytes).unwrap_or(bytes.len())
}

/// The line behind these bytes, where they begin on this line.
#[tactic(auto, using(crate::proofs::ByteSearch::length_places))]
pub(crate) fn line_past(line: u32, bytes: &[u8]) -> u32
    requires { line + length bytes.now < 2 ^ 32 }
    ensures { result ≡ line + count_by (λ b. b == letters.line_feed) bytes.now }
{
    line + memchr_iter(b'\n', bytes).count() as u32
}
