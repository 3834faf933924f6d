//! What single words stand for.
ghost use Rattle.std.specs.Prelude.{◌≡◌};
ghost use Rattle.command_line.specs.Words.{bound_in, budget_in, is_file_name, limit_in, number_in};
ghost use Rattle.command_line.specs.Words.{form_in, most_in, small_in, team_count_in, tries_in};

use crate::goal::Goal;
use league::is_team_count;
use robin_io::decimal;

/// The budget that a word writes: a number of conflicts, or `all`, which is none.
pub(crate) fn budget(word: &str) -> Option<Option<u64>>
    ensures { result ≡ budget_in word.now }
{
    if word == "all" {
        return Some(None);
    }
    let conflicts = number(word)?;
    Some(Some(conflicts))
}

/// What is asked for with the bound that a word writes.
pub(crate) fn bound(word: &str) -> Option<Goal>
    ensures { result ≡ bound_in word.now }
{
    let bound = number(word)?;
    Some(Goal::AtMost { bound })
}

/// Whether the form that a word names is that of a spreadsheet.
pub(crate) fn form(word: &str) -> Option<bool>
    ensures { result ≡ form_in word.now }
{
    match word {
        "text" => Some(false),
        "csv" => Some(true),
        _ => None,
    }
}

/// How many lines of a list a word asks for: a number, or `all`.
pub(crate) fn most(word: &str) -> Option<u32>
    ensures { result ≡ most_in word.now }
{
    if word == "all" {
        return Some(u32::MAX);
    }
    small(word)
}

/// The number below 4,294,967,296 that a word writes.
pub(crate) fn small(word: &str) -> Option<u32>
    ensures { result ≡ small_in word.now }
{
    let k = number(word)?;
    if k < 4_294_967_296 {
        Some(k as u32)
    } else {
        None
    }
}

/// The limit that a word writes.
pub(crate) fn limit(word: &str) -> Option<Option<u64>>
    ensures { result ≡ limit_in word.now }
{
    let seconds = number(word)?;
    Some(Some(seconds))
}

/// Whether a word is a file's name: a word that begins with `-` is none.
pub(crate) fn is_name(word: &str) -> bool
    ensures { result ≡ is_file_name word.now }
{
    !matches!(word.as_bytes(), [b'-', ..])
}

/// The number that a word writes.
pub(crate) fn number(word: &str) -> Option<u64>
    ensures { result ≡ number_in word.now }
{
    number_of(word.as_bytes())
}

/// The number that bytes write in decimal digits: a number with a leading zero, or past 64 bits, is none.
pub(crate) fn number_of(bytes: &[u8]) -> Option<u64>
    ensures { result ≡ number_in bytes.now }
{
    match bytes {
        [b'0', _, ..] => None,
        digits => decimal(digits).ok(),
    }
}

/// The number of tries that a word writes: from 1 to 100.
pub(crate) fn tries(word: &str) -> Option<u64>
    ensures { result ≡ tries_in word.now }
{
    let n = number(word)?;
    if 1 <= n && n <= 100 { Some(n) } else { None }
}

/// The number of teams that a word writes: an even number from 2 to 40.
pub(crate) fn team_count(word: &str) -> Option<u16>
    ensures { result ≡ team_count_in word.now }
{
    let n = number(word)?;
    if is_team_count(n) {
        Some(n as u16)
    } else {
        None
    }
}
