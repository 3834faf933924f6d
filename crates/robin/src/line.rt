//! The words of the command line: those of the program itself, and those of the command.

use answers::{Own, Standing, is_name, is_quiet, is_twice, left_words, value_of, with_input};
use command_line::{Topic, topic_of};
use std::alloc::{AllocError, Global};

/// The words of the command line.
#[derive(Drop)]
pub(crate) struct Line<'a> {
    /// The command's words.
    pub(crate) words: Vec<String>,
    /// The command that they name.
    pub(crate) command: Option<Topic>,
    /// Whether nothing is to be told of how the run goes.
    pub(crate) quiet: bool,
    /// The file that gets what was asked for.
    pub(crate) out: Option<&'a str>,
    /// The file that gets the log of a search that found nothing.
    pub(crate) log: Option<&'a str>,
}

/// Why there are no such words.
#[derive(Clone, Copy)]
pub(crate) enum WordsFault {
    /// This is wrong with a word that the program itself takes.
    Wrong {
        option: &'static str,
        fault: &'static str,
    },
    /// Memory ran out.
    Memory,
}

impl From<AllocError> for WordsFault {
    fn from(_: AllocError) -> Self {
        WordsFault::Memory
    }
}

/// The file that an option of the program itself names.
fn file_of(arguments: &[String], option: Own) -> Result<Option<&str>, WordsFault> {
    let fault = match value_of(arguments, option) {
        Standing::Never => return Ok(None),
        Standing::Once(name) if is_name(name) => return Ok(Some(name)),
        Standing::Once(_) => " wants the name of a file behind it, which doesn't begin with -",
        Standing::Often => " stands more than once",
    };
    Err(WordsFault::Wrong {
        option: option.word(),
        fault,
    })
}

/// Whether nothing is to be told of how the run goes.
fn quiet_of(arguments: &[String]) -> Result<bool, WordsFault> {
    match arguments
        .iter()
        .filter(|word| is_quiet(word.as_str()))
        .count()
    {
        0 => Ok(false),
        1 => Ok(true),
        _ => Err(WordsFault::Wrong {
            option: "--quiet",
            fault: " stands more than once",
        }),
    }
}

/// A word, and others behind it.
fn joined(alloc: Global, first: &str, mut rest: Vec<String>) -> Result<Vec<String>, AllocError> {
    let mut words = Vec::new(alloc);
    words.push(String::from_str(alloc, first)?)?;
    words.append(&mut rest)?;
    Ok(words)
}

/// The words of a command, as it is to read them.
fn command_words(
    alloc: Global,
    left: &[String],
) -> Result<(Vec<String>, Option<Topic>), WordsFault> {
    let [first, rest @ ..] = left else {
        return Ok((Vec::new(alloc), None));
    };
    let command = topic_of(first.as_str());
    let read = with_input(alloc, command, rest)?;
    if is_twice(&read) {
        return Err(WordsFault::Wrong {
            option: "standard input",
            fault: " is read once, and - and /dev/stdin stand for it",
        });
    }
    let words = joined(alloc, first.as_str(), read)?;
    Ok((words, command))
}

/// The words of the command line.
///
/// # Errors
/// Where a word that the program itself takes is wrong, and where memory runs out.
pub(crate) fn line_of(alloc: Global, arguments: &[String]) -> Result<Line<'_>, WordsFault> {
    let out = file_of(arguments, Own::Out)?;
    let log = file_of(arguments, Own::Log)?;
    let quiet = quiet_of(arguments)?;
    let left = left_words(alloc, arguments)?;
    let (words, command) = command_words(alloc, &left)?;
    Ok(Line {
        words,
        command,
        quiet,
        out,
        log,
    })
}
