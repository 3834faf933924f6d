//! Why words are refused.
ghost use Rattle.std.specs.Prelude.{◌≡◌, ◌≤◌, true, false, None, map, string_bytes, is_some, is_none, IfSome};
ghost use Rattle.command_line.specs.Words as options;
ghost use Rattle.command_line.specs.Words.{reading};
ghost use Rattle.command_line.specs.Faults as faults;
ghost use Rattle.command_line.specs.Faults.{IsSo};

use crate::option_names::is_option;
use crate::option_values::{Standing, value_of};
use crate::role::{Role, fits, is_flag, option_role, role_at};
use crate::topic::{Topic, topic_of};
use crate::words::read_words;

/// Why words are refused.
#[derive(Clone, Copy)]
pub enum WordFault<'a> {
    /// There is no word.
    NoWord,
    /// The first word names no command.
    NoCommand { word: &'a str },
    /// Help or the version is asked for, beside words that it doesn't take.
    NotAlone { word: &'a str },
    /// The command has no such option.
    NoOption { command: Topic, word: &'a str },
    /// No value comes behind an option.
    NoValue { word: &'a str },
    /// An option stands more than once.
    Twice { word: &'a str },
    /// A word stands beside an option that takes no such word.
    Beside { command: Topic, word: &'a str },
    /// A word is not what it is to be.
    Unfit { role: Role, word: &'a str },
    /// A word is missing.
    Missing { command: Topic, role: Role },
    /// The command takes no further word.
    Surplus { command: Topic, word: &'a str },
    /// The words are no command of this name.
    Other { command: Topic },
}

/// Why words are refused: None exactly where they are a command. It takes no memory.
pub fn why_refused(words: &[String]) -> Option<WordFault<'_>>
    ensures refused { is_some result ≡ is_none (reading (map string_bytes words.now)) }
    ensures so { IfSome result IsSo }
{
    match read_words(words) {
        Some(_) => None,
        None => Some(fault_of(words)),
    }
}

/// What is wrong with words.
fn fault_of(words: &[String]) -> WordFault<'_>
    ensures { IsSo result }
{
    match words {
        [] => WordFault::NoWord,
        [first, rest @ ..] => fault_with(first.as_str(), rest),
    }
}

/// What is wrong with a first word and those behind it.
fn fault_with<'a>(first: &'a str, words: &'a [String]) -> WordFault<'a>
    ensures { IsSo result }
{
    match topic_of(first) {
        Some(command) => fault_behind(command, words),
        None if is_question(first) => WordFault::NotAlone { word: first },
        None => WordFault::NoCommand { word: first },
    }
}

/// Whether a word asks for help or for the version.
fn is_question(word: &str) -> bool
    ensures { result ≡ faults.is_question word.now }
{
    word == "--help" || word == "--version"
}

/// What is wrong with the words behind a command's name.
fn fault_behind(command: Topic, words: &[String]) -> WordFault<'_>
    ensures { IsSo result }
{
    if let Some(fault) = wrong_option(command, words) {
        return fault;
    }
    if let Some(fault) = wrong_demands(command, words) {
        return fault;
    }
    if let Some(fault) = wrong_argument(command, 0, words) {
        return fault;
    }
    match misplaced(command, words) {
        Some(fault) => fault,
        None => WordFault::Other { command },
    }
}

/// What is wrong with `--demands` of `show`, or with the list behind it.
fn wrong_demands(command: Topic, words: &[String]) -> Option<WordFault<'_>>
    ensures { IfSome result IsSo }
{
    match (command, words) {
        (Topic::Show, [_, option]) if option.as_str() == "--demands" => None,
        (Topic::Show, [_, option, list]) if option.as_str() == "--demands" => {
            unfit(Role::Members, list.as_str())
        }
        (Topic::Show, _) => misplaced(command, words),
        _ => None,
    }
}

/// An option without a value that stands where it may not. `--near` of `resume` may stand anywhere, but once.
#[tactic(auto, using(crate::proofs::StandingLemmas::near_option))]
fn misplaced(command: Topic, words: &[String]) -> Option<WordFault<'_>>
    ensures { IfSome result IsSo }
{
    let word = flag_among(command, words)?;
    match command {
        Topic::Resume => Some(WordFault::Twice { word }),
        _ => Some(WordFault::Beside { command, word }),
    }
}

/// A word that is not what it is to be.
fn unfit(role: Role, word: &str) -> Option<WordFault<'_>>
    ensures { IfSome result IsSo }
{
    if fits(role, word) {
        return None;
    }
    Some(WordFault::Unfit { role, word })
}

/// The first option without a value among words.
fn flag_among(command: Topic, words: &[String]) -> Option<&str>
    ensures { IfSome result (λ word. faults.is_flag command word.now ≡ true) }
{
    match words {
        [first, ..] if is_flag(command, first.as_str()) => Some(first.as_str()),
        [_, rest @ ..] => flag_among(command, rest),
        [] => None,
    }
}

/// The first thing that is wrong with an option. It is a loop, since words may be many.
fn wrong_option(command: Topic, words: &[String]) -> Option<WordFault<'_>>
    ensures { IfSome result IsSo }
{
    let mut rest = words;
    'words: while let [first, later @ ..] = rest {
        rest = match later {
            _ if is_flag(command, first.as_str()) => later,
            [value, left @ ..] if is_option(first.as_str()) => {
                if let Some(fault) = wrong_value(command, first.as_str(), value.as_str(), left) {
                    return Some(fault);
                }
                left
            }
            [] if is_option(first.as_str()) => {
                return Some(without_value(command, first.as_str()));
            }
            _ => later,
        };
    }
    None
}

/// What is wrong with an option that is the last word.
fn without_value(command: Topic, option: &str) -> WordFault<'_>
    requires option { options.is_option option.now ≡ true }
    requires valued { faults.is_flag command option.now ≡ false }
    ensures { IsSo result }
{
    match option_role(command, option) {
        Some(_) => WordFault::NoValue { word: option },
        None => no_option(command, option),
    }
}

/// An option that the command doesn't have.
fn no_option(command: Topic, option: &str) -> WordFault<'_>
    requires option { options.is_option option.now ≡ true }
    requires valued { faults.is_flag command option.now ≡ false }
    requires unknown { faults.option_role command option.now ≡ None }
    ensures { IsSo result }
{
    if is_question(option) {
        WordFault::NotAlone { word: option }
    } else {
        WordFault::NoOption {
            command,
            word: option,
        }
    }
}

/// What is wrong with an option and its value, before these words.
fn wrong_value<'a>(
    command: Topic,
    option: &'a str,
    value: &'a str,
    rest: &[String],
) -> Option<WordFault<'a>>
    requires option { options.is_option option.now ≡ true }
    requires valued { faults.is_flag command option.now ≡ false }
    ensures { IfSome result IsSo }
{
    match option_role(command, option) {
        None => Some(no_option(command, option)),
        Some(role) if !fits(role, value) => Some(WordFault::Unfit { role, word: value }),
        Some(_) if stands_again(option, rest) => Some(WordFault::Twice { word: option }),
        Some(_) => None,
    }
}

/// Whether an option stands among words.
fn stands_again(option: &str, words: &[String]) -> bool {
    match value_of(words, option) {
        Standing::Never => false,
        Standing::Once(_) | Standing::Often => true,
    }
}

/// The first thing that is wrong with an argument, so many of which stand before these words.
fn wrong_argument(command: Topic, before: usize, words: &[String]) -> Option<WordFault<'_>>
    requires { before ≤ 4 }
    ensures { IfSome result IsSo }
{
    match words {
        [first, rest @ ..] if is_flag(command, first.as_str()) => {
            wrong_argument(command, before, rest)
        }
        [first, _, rest @ ..] if is_option(first.as_str()) => {
            wrong_argument(command, before, rest)
        }
        [first, rest @ ..] => match role_at(command, before) {
            None => Some(WordFault::Surplus {
                command,
                word: first.as_str(),
            }),
            Some(role) if !fits(role, first.as_str()) => Some(WordFault::Unfit {
                role,
                word: first.as_str(),
            }),
            Some(_) => wrong_argument(command, before + 1, rest),
        },
        [] => match role_at(command, before) {
            Some(role) => Some(WordFault::Missing { command, role }),
            None => None,
        },
    }
}
