//! The words of `rows`.
ghost use Rattle.std.specs.Prelude.{◌≡◌, [], ◌∷◌, map, string_bytes, option_map};
ghost use Rattle.command_line.specs.Words.{bounding, costing, lowering, rowing};
ghost use Rattle.command_line.specs.SeenWords.{command_of};

use crate::arguments::one_file;
use crate::goal::Goal;
use crate::option_names::{Options, has_options};
use crate::option_values::goal_said;
use crate::values::is_name;
use crate::words::Words;

/// `rows` over one file, with one of its options.
pub(crate) fn read_rows(words: &[String]) -> Option<Words<'_>>
    ensures { option_map command_of result ≡ rowing (map string_bytes words.now) }
{
    match read_least(words) {
        Some(least) => Some(least),
        None => read_bounded(words),
    }
}

/// `rows` over one file, where the objective is to be least.
fn read_least(words: &[String]) -> Option<Words<'_>>
    ensures { option_map command_of result ≡ lowering (map string_bytes words.now) }
{
    match words {
        [first, second] => least_of_two(first.as_str(), second.as_str()),
        _ => None,
    }
}

/// `rows` where the objective is to be least: one of two words is `--objective`, and the other one is the file.
fn least_of_two<'a>(first: &'a str, second: &'a str) -> Option<Words<'a>>
    ensures { option_map command_of result ≡ lowering (first.now ∷ second.now ∷ []) }
{
    if second == "--objective" {
        least_of(first)
    } else if first == "--objective" {
        least_of(second)
    } else {
        None
    }
}

/// `rows` over a file, where the objective is to be least.
fn least_of(instance: &str) -> Option<Words<'_>>
    ensures { option_map command_of result ≡ costing instance.now }
{
    if is_name(instance) {
        Some(Words::Rows {
            instance,
            goal: Goal::Least,
        })
    } else {
        None
    }
}

/// `rows` over one file, with a bound or without.
fn read_bounded(words: &[String]) -> Option<Words<'_>>
    ensures { option_map command_of result ≡ bounding (map string_bytes words.now) }
{
    if !has_options(Options::Rows, words) {
        return None;
    }
    let instance = one_file(words)?;
    let goal = goal_said(words)?;
    Some(Words::Rows { instance, goal })
}
