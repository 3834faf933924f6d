//! The words of commands that check logs.
ghost use Rattle.std.specs.Prelude.{◌≡◌, map, string_bytes, option_map};
ghost use Rattle.command_line.specs.Words.{auditing, bounded_by, checking};
ghost use Rattle.command_line.specs.SeenWords.{command_of};

use crate::arguments::{files_with_log, two_files};
use crate::option_names::{Options, has_options};
use crate::option_values::room_said;
use crate::words::Words;

/// `check` over two files, with its option.
pub(crate) fn read_check(words: &[String]) -> Option<Words<'_>>
    ensures { option_map command_of result ≡ checking (map string_bytes words.now) }
{
    if !has_options(Options::Log, words) {
        return None;
    }
    let (instance, log) = two_files(words)?;
    let _room = room_said(words)?;
    Some(Words::Check { instance, log })
}

/// `bound` over two files, with its option.
pub(crate) fn read_bound(words: &[String]) -> Option<Words<'_>>
    ensures { option_map command_of result ≡ bounded_by (map string_bytes words.now) }
{
    if !has_options(Options::Log, words) {
        return None;
    }
    let (instance, log) = two_files(words)?;
    let _room = room_said(words)?;
    Some(Words::Bound { instance, log })
}

/// `audit` over two files, with a number of slots, a log and its option.
pub(crate) fn read_audit(words: &[String]) -> Option<Words<'_>>
    ensures { option_map command_of result ≡ auditing (map string_bytes words.now) }
{
    if !has_options(Options::Log, words) {
        return None;
    }
    let (instance, solution, k, log) = files_with_log(words)?;
    let _room = room_said(words)?;
    Some(Words::Audit {
        instance,
        solution,
        k,
        log,
    })
}
