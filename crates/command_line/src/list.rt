//! The list of `part` and of `show`: numbers that rise, joined by `;`.
ghost use Rattle.std.specs.Prelude.{◌≡◌, ◌<◌, [], ◌∷◌, length, is_some, vec_items, option_map};
ghost use Rattle.std.specs.Prelude.{IfOk, IfSome, MatchOption};
ghost use Rattle.std.specs.Ordering.{nat_cmp};
ghost use Rattle.league.specs.Sets.{IsAscending};
ghost use Rattle.command_line.specs.Words as options;
ghost use Rattle.command_line.specs.Words.{members_in, members_of, words_of};

use crate::values::number_of;
use std::alloc::{AllocError, Global};

/// The word before the first `;`, and what stands behind it, where there is one.
fn first_word(list: &[u8]) -> Option<(&[u8], &[u8])>
    ensures words { MatchOption result (words_of list.now ≡ list.now ∷ [])
        (λ cut. words_of list.now ≡ cut.0.now ∷ words_of cut.1.now) }
    ensures shorter { IfSome result (λ cut. length cut.1.now < length list.now) }
{
    match list.iter().position(|byte| *byte == b';') {
        Some(end) => Some((&list[..end], &list[end + 1..])),
        None => None,
    }
}

/// The number that a word writes, where it is above another and at most 4,294,967,295.
fn number_above(before: u32, word: &[u8]) -> Option<u32>
    ensures { result ≡ options.number_above before word.now }
{
    let k = number_of(word)?;
    if u64::from(before) < k && k < 4_294_967_296 {
        Some(k as u32)
    } else {
        None
    }
}

/// Whether a text is such a list.
pub(crate) fn is_list(list: &str) -> bool
    ensures { result ≡ is_some (members_in list.now) }
{
    let mut before = 0;
    let mut rest = list.as_bytes();
    'words: while let Some((word, later)) = first_word(rest) {
        let Some(k) = number_above(before, word) else {
            return false;
        };
        before = k;
        rest = later;
    }
    number_above(before, rest).is_some()
}

/// The numbers of a list, where a text is one.
fn collected(alloc: Global, list: &str) -> Result<Option<Vec<u32>>, AllocError>
    ensures { IfOk result (λ found. option_map vec_items found ≡ members_in list.now) }
{
    let mut members = Vec::new(alloc);
    let mut before = 0;
    let mut rest = list.as_bytes();
    'words: while let Some((word, later)) = first_word(rest) {
        let Some(k) = number_above(before, word) else {
            return Ok(None);
        };
        members.push(k)?;
        before = k;
        rest = later;
    }
    let Some(last) = number_above(before, rest) else {
        return Ok(None);
    };
    members.push(last)?;
    Ok(Some(members))
}

/// The numbers of a list, in order, and none where the text is no such list: `read_words` gives a `Part` or
/// `Demands` with a list only where it is one.
///
/// # Errors
/// Only where memory runs out.
pub fn members(alloc: Global, list: &str) -> Result<Vec<u32>, AllocError>
    ensures members { IfOk result (λ members. members.items ≡ members_of list.now) }
    ensures ascending { IfOk result (λ members. IsAscending nat_cmp members.items) }
{
    match collected(alloc, list)? {
        Some(members) => Ok(members),
        None => Ok(Vec::new(alloc)),
    }
}
