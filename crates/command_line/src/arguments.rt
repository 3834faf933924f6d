//! Arguments one after another, among words with options.
ghost use Rattle.std.specs.Prelude.{◌≡◌, ◌==◌, ◌&&◌, false, [], ◌∷◌, map, length, string_bytes};
ghost use Rattle.std.specs.Prelude.{option_and_then, option_map, MatchOption};
ghost use Rattle.std.specs.Option.{option_copied};
ghost use Rattle.command_line.specs.Words as options;
ghost use Rattle.command_line.specs.Standing.{is_near_alone};
ghost use Rattle.command_line.specs.Words.{arguments_of};

use crate::option_names::{has_value, is_near};
use crate::values::{is_name, number};

/// The first argument, and the words behind it, where there is one.
fn first_argument(words: &[String]) -> Option<(&str, &[String])>
    ensures { MatchOption result (arguments_of (map string_bytes words.now) ≡ [])
        (λ cut. arguments_of (map string_bytes words.now)
        ≡ cut.0.now ∷ arguments_of (map string_bytes cut.1.now)) }
{
    match words {
        [] => None,
        [first, _, rest @ ..] if has_value(first.as_str()) => first_argument(rest),
        [first, rest @ ..] => Some((first.as_str(), rest)),
    }
}

/// The two files among the arguments.
pub(crate) fn two_files(words: &[String]) -> Option<(&str, &str)>
    ensures { option_map (λ files. (files.0.now, files.1.now)) result
        ≡ options.two_files (arguments_of (map string_bytes words.now)) }
{
    let Some((first, rest)) = first_argument(words) else {
        return None;
    };
    if !is_name(first) {
        return None;
    }
    let second = one_file(rest)?;
    Some((first, second))
}

/// Whether two words are files' names.
pub(crate) fn are_names(first: &str, second: &str) -> bool
    ensures { result ≡ (options.is_file_name first.now && options.is_file_name second.now) }
{
    is_name(first) && is_name(second)
}

/// The two files and the number among the arguments.
pub(crate) fn files_and_number(words: &[String]) -> Option<(&str, &str, u64)>
    ensures { option_map (λ found. (found.0.now, found.1.now, found.2)) result
        ≡ options.files_and_number (arguments_of (map string_bytes words.now)) }
{
    let Some((first, rest)) = first_argument(words) else {
        return None;
    };
    file_and_number_behind(first, rest)
}

/// A file, with the second one and the number among the arguments behind it.
fn file_and_number_behind<'a>(
    first: &'a str,
    words: &'a [String],
) -> Option<(&'a str, &'a str, u64)>
    ensures { option_map (λ found. (found.0.now, found.1.now, found.2)) result
        ≡ options.files_and_number (first.now ∷ arguments_of (map string_bytes words.now)) }
{
    let Some((second, rest)) = first_argument(words) else {
        return None;
    };
    if !are_names(first, second) {
        return None;
    }
    let number = one_number(rest)?;
    Some((first, second, number))
}

/// The two files, the number and the log among the arguments.
pub(crate) fn files_with_log(words: &[String]) -> Option<(&str, &str, u64, &str)>
    ensures { option_map (λ found. (found.0.now, found.1.now, found.2, found.3.now)) result
        ≡ options.files_with_log (arguments_of (map string_bytes words.now)) }
{
    let Some((first, rest)) = first_argument(words) else {
        return None;
    };
    file_and_log_behind(first, rest)
}

/// A file, with the second one, the number and the log among the arguments behind it.
fn file_and_log_behind<'a>(
    first: &'a str,
    words: &'a [String],
) -> Option<(&'a str, &'a str, u64, &'a str)>
    ensures { option_map (λ found. (found.0.now, found.1.now, found.2, found.3.now)) result
        ≡ options.files_with_log (first.now ∷ arguments_of (map string_bytes words.now)) }
{
    let Some((second, rest)) = first_argument(words) else {
        return None;
    };
    if !are_names(first, second) {
        return None;
    }
    let (number, log) = number_and_file(rest)?;
    Some((first, second, number, log))
}

/// The number and the file among the arguments.
fn number_and_file(words: &[String]) -> Option<(u64, &str)>
    ensures { option_map (λ found. (found.0, found.1.now)) result
        ≡ options.number_and_file (arguments_of (map string_bytes words.now)) }
{
    let Some((word, rest)) = first_argument(words) else {
        return None;
    };
    let number = number(word)?;
    let file = one_file(rest)?;
    Some((number, file))
}

/// The two files and the number among the arguments, among which `--near` stands too.
pub(crate) fn near_files_and_number(words: &[String]) -> Option<(&str, &str, u64)>
    ensures { option_map (λ found. (found.0.now, found.1.now, found.2)) result
        ≡ options.near_files_and_number (arguments_of (map string_bytes words.now)) }
{
    let Some((first, rest)) = first_argument(words) else {
        return None;
    };
    if is_near(first) {
        return files_and_number(rest);
    }
    near_behind(first, rest)
}

/// A file, with the second one and the number among the arguments behind it, among which `--near` stands too.
#[tactic(auto, using(crate::proofs::StandingLemmas::near_files_behind))]
fn near_behind<'a>(first: &'a str, words: &'a [String]) -> Option<(&'a str, &'a str, u64)>
    requires { options.is_near first.now ≡ false }
    ensures { option_map (λ found. (found.0.now, found.1.now, found.2)) result
        ≡ options.near_files_and_number (first.now ∷ arguments_of (map string_bytes words.now)) }
{
    let Some((second, rest)) = first_argument(words) else {
        return None;
    };
    if is_near(second) {
        return file_and_number_behind(first, rest);
    }
    if !are_names(first, second) {
        return None;
    }
    let number = near_number(rest)?;
    Some((first, second, number))
}

/// The number among the arguments, among which `--near` stands too.
#[tactic(auto, using(crate::proofs::StandingLemmas::near_number_behind))]
fn near_number(words: &[String]) -> Option<u64>
    ensures { result ≡ option_and_then options.one_number
        (options.without_near (arguments_of (map string_bytes words.now))) }
{
    let Some((first, rest)) = first_argument(words) else {
        return None;
    };
    if is_near(first) {
        return one_number(rest);
    }
    if has_near_alone(rest) {
        number(first)
    } else {
        None
    }
}

/// Whether `--near` is the one argument.
#[tactic(auto, using(crate::proofs::StandingLemmas::near_alone_first))]
fn has_near_alone(words: &[String]) -> bool
    ensures { result ≡ is_near_alone (arguments_of (map string_bytes words.now)) }
{
    match first_argument(words) {
        Some((first, rest)) => is_near(first) && has_no_argument(rest),
        None => false,
    }
}

/// The one number among the arguments.
pub(crate) fn one_number(words: &[String]) -> Option<u64>
    ensures { result ≡ options.one_number (arguments_of (map string_bytes words.now)) }
{
    match words {
        [] => None,
        [first, _, rest @ ..] if has_value(first.as_str()) => one_number(rest),
        [first, rest @ ..] => number_alone(first.as_str(), rest),
    }
}

/// A number, where no argument comes behind it.
fn number_alone(word: &str, rest: &[String]) -> Option<u64>
    ensures { result ≡ options.one_number (word.now ∷ arguments_of (map string_bytes rest.now)) }
{
    if has_no_argument(rest) {
        number(word)
    } else {
        None
    }
}

/// The one file among the arguments.
pub(crate) fn one_file(words: &[String]) -> Option<&str>
    ensures { option_copied result ≡ options.one_file (arguments_of (map string_bytes words.now)) }
{
    match words {
        [] => None,
        [first, _, rest @ ..] if has_value(first.as_str()) => one_file(rest),
        [first, rest @ ..] => file_alone(first.as_str(), rest),
    }
}

/// A file, where no argument comes behind it.
fn file_alone<'a>(file: &'a str, rest: &[String]) -> Option<&'a str>
    ensures { option_copied result ≡ options.one_file (file.now ∷ arguments_of (map string_bytes rest.now)) }
{
    if is_name(file) && has_no_argument(rest) {
        Some(file)
    } else {
        None
    }
}

/// Whether there is no argument.
pub(crate) fn has_no_argument(words: &[String]) -> bool
    ensures { result ≡ (length (arguments_of (map string_bytes words.now)) == 0) }
{
    match words {
        [first, _, rest @ ..] => has_value(first.as_str()) && has_no_argument(rest),
        _ => words.is_empty(),
    }
}
