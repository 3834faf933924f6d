//! Words that stand for standard input.
ghost use Rattle.std.specs.Prelude.{◌≡◌, map, string_bytes, option_map, IfOk};
ghost use Rattle.answers.specs.Input as inputs;
ghost use Rattle.answers.specs.Input.{named_from};
ghost use Rattle.answers.specs.declared.input.Place.TheVariants.{Argument};

use command_line::Topic;
use std::alloc::{AllocError, Global};

/// The name of the file that is standard input.
const INPUT: &str = "/dev/stdin";

/// What a word behind a command is.
#[derive(Clone, Copy)]
enum Place {
    /// An option, or an argument, before which so many stand.
    Argument(u64),
    /// The value of an option, before which so many arguments stand.
    Value(u64),
    /// The value of an option that is a file's name.
    File(u64),
}

/// Whether an argument of a command is a file's name, by how many stand before it.
fn takes_file(command: Option<Topic>, before: u64) -> bool
    ensures { result ≡ inputs.takes_file command before }
{
    match command {
        None | Some(Topic::Circle | Topic::Make | Topic::Trial) => false,
        Some(Topic::Part) => before == 0,
        Some(Topic::Resume | Topic::Audit) => before != 2,
        Some(_) => true,
    }
}

/// Whether a file's name stands here.
fn takes_name(command: Option<Topic>, place: Place) -> bool
    ensures { result ≡ inputs.takes_name command place }
{
    match place {
        Place::Argument(before) => takes_file(command, before),
        Place::Value(_) => false,
        Place::File(_) => true,
    }
}

/// What the word behind this one is.
fn next(place: Place, word: &str) -> Place
    ensures { result ≡ inputs.next place word.now }
{
    match place {
        Place::Value(before) | Place::File(before) => Place::Argument(before),
        Place::Argument(before) => {
            if word == "--from" {
                Place::File(before)
            } else if is_flag(word) {
                Place::Argument(before)
            } else if is_option(word) {
                Place::Value(before)
            } else {
                Place::Argument(before.saturating_add(1))
            }
        }
    }
}

/// Whether a word is an option that has no value.
fn is_flag(word: &str) -> bool
    ensures { result ≡ inputs.is_flag word.now }
{
    word == "--objective" || word == "--near"
}

/// Whether a word names an option: it begins with `--`.
fn is_option(word: &str) -> bool
    ensures { result ≡ inputs.is_option word.now }
{
    matches!(word.as_bytes(), [b'-', b'-', ..])
}

/// The word as the command is to read it: the name of standard input in place of a `-` where a file's name stands.
fn named<'a>(command: Option<Topic>, place: Place, word: &'a str) -> &'a str
    ensures { result.now ≡ inputs.named command place word.now }
{
    if word == "-" && takes_name(command, place) {
        INPUT
    } else {
        word
    }
}

/// The words behind a command, as it is to read them.
///
/// # Errors
/// Only where memory runs out.
pub fn with_input(
    alloc: Global,
    command: Option<Topic>,
    words: &[String],
) -> Result<Vec<String>, AllocError>
    ensures { IfOk result (λ read. map string_bytes read.items
        ≡ named_from command (Argument 0) (map string_bytes words.now)) }
{
    let mut read = Vec::new(alloc);
    let mut place = Place::Argument(0);
    for word in words {
        let text = named(command, place, word.as_str());
        read.push(String::from_str(alloc, text)?)?;
        place = next(place, word.as_str());
    }
    Ok(read)
}

/// The words behind the first one that names standard input.
fn behind_input(words: &[String]) -> Option<&[String]>
    ensures { option_map (λ rest. map string_bytes rest.now) result
        ≡ inputs.behind_input (map string_bytes words.now) }
{
    match words {
        [] => None,
        [word, rest @ ..] => {
            if word.as_str() == INPUT {
                Some(rest)
            } else {
                behind_input(rest)
            }
        }
    }
}

/// Whether standard input is named more than once.
pub fn is_twice(words: &[String]) -> bool
    ensures { result ≡ inputs.is_twice (map string_bytes words.now) }
{
    match behind_input(words) {
        Some(rest) => behind_input(rest).is_some(),
        None => false,
    }
}
