//! What a person is told of words that are refused.
ghost use Rattle.std.specs.Prelude.{◌≡◌, IfOk};
ghost use Rattle.answers.specs.Reply.{refused_words};
ghost use Rattle.answers.specs.SeenRefusal.{refused_with};

use crate::advice::Advice;
use crate::pages;
use crate::refusal::Refusal;
use crate::reply::words_refused;
use command_line::{Role, Topic, WordFault, name_of, why_refused};
use std::alloc::{AllocError, Global};

/// Refuses words, and tells which one is wrong and what was expected.
///
/// # Errors
/// Only where memory runs out.
pub fn refuse_words(alloc: Global, words: &[String]) -> Result<Refusal, AllocError>
    ensures { IfOk result (refused_with refused_words) }
{
    let reply = words_refused(alloc)?;
    Ok(Refusal::new(alloc, reply, advice_on(alloc, words)))
}

/// What is told of words.
fn advice_on(alloc: Global, words: &[String]) -> Result<Advice, AllocError> {
    let mut advice = Advice::new(alloc);
    if let Some(fault) = why_refused(words) {
        tell(&mut advice, fault)?;
    }
    Ok(advice)
}

/// Tells of a fault, and where more is said.
fn tell(advice: &mut Advice, fault: WordFault) -> Result<(), AllocError> {
    match fault {
        WordFault::NoWord => advice.say(pages::ALL),
        WordFault::NoCommand { word } => {
            advice.say("robin: there is no command ")?;
            advice.show(word.as_bytes())?;
            advice.end_line()?;
            advice.say(pages::NAMES)
        }
        WordFault::NotAlone { word } => tell_option(advice, word, " takes no such words"),
        WordFault::NoValue { word } => tell_option(advice, word, " wants a value behind it"),
        WordFault::Twice { word } => tell_option(advice, word, " stands more than once"),
        WordFault::Beside { command, word } => tell_more(advice, command, beside(command), word),
        WordFault::Unfit { role, word } => tell_unfit(advice, role, word),
        WordFault::NoOption { command, word } => tell_more(
            advice,
            command,
            " has no option ",
            word,
        ),
        WordFault::Surplus { command, word } => {
            tell_more(advice, command, " takes no further word, and not ", word)
        }
        WordFault::Missing { command, role } => tell_missing(advice, command, role),
        WordFault::Other { command } => tell_more(advice, command, other(command), ""),
    }
}

/// Tells of an option, or of a word like one.
fn tell_option(advice: &mut Advice, word: &str, fault: &str) -> Result<(), AllocError> {
    advice.say("robin: ")?;
    advice.show(word.as_bytes())?;
    advice.say(fault)?;
    advice.say("\nrobin: robin --help lists the commands and their options\n")
}

/// Tells of a word that isn't what it is to be.
fn tell_unfit(advice: &mut Advice, role: Role, word: &str) -> Result<(), AllocError> {
    advice.say("robin: ")?;
    advice.say(wanted(role))?;
    advice.say(", not ")?;
    advice.show(word.as_bytes())?;
    advice.say("\nrobin: robin --help lists the commands and their options\n")
}

/// Tells of a word that a command doesn't take.
fn tell_more(
    advice: &mut Advice,
    command: Topic,
    fault: &str,
    word: &str,
) -> Result<(), AllocError> {
    advice.say("robin: ")?;
    advice.say(name_of(command))?;
    advice.say(fault)?;
    advice.show(word.as_bytes())?;
    advice.end_line()?;
    point_to_page(advice, command)
}

/// Tells of a word that is missing.
fn tell_missing(advice: &mut Advice, command: Topic, role: Role) -> Result<(), AllocError> {
    advice.say("robin: a word is missing behind ")?;
    advice.say(name_of(command))?;
    advice.say(": ")?;
    advice.say(wanted(role))?;
    advice.end_line()?;
    point_to_page(advice, command)
}

/// What stands wrong beside an option that a command takes without a value.
fn beside(command: Topic) -> &'static str {
    match command {
        Topic::Show => " takes one file before, and LIST or nothing behind, ",
        _ => " takes no other option beside ",
    }
}

/// What is wrong with words that have no other fault.
fn other(command: Topic) -> &'static str {
    match command {
        Topic::Resume => " takes --moves, --tries, --patterns and --seed only with --near",
        _ => " doesn't take these words",
    }
}

/// Says where more is said of a command.
fn point_to_page(advice: &mut Advice, command: Topic) -> Result<(), AllocError> {
    advice.say("robin: robin ")?;
    advice.say(name_of(command))?;
    advice.say(" --help says what it takes\n")
}

/// What a word is to be.
fn wanted(role: Role) -> &'static str {
    match role {
        Role::Instance => "INSTANCE is the name of a league's file, which doesn't begin with -",
        Role::Solution => "SOLUTION is the name of a season's file, which doesn't begin with -",
        Role::Log => "LOG is the name of a log's file, which doesn't begin with -",
        Role::Values => "VALUES is the name of a file of values, which doesn't begin with -",
        Role::Slots => "K is a number from 0 to 18446744073709551615",
        Role::Teams => "N is an even number of teams from 2 to 40",
        Role::Seed => "SEED is a number from 0 to 18446744073709551615",
        Role::Members => {
            "LIST is numbers from 1 to 4294967295, each above the one before it, joined by ;"
        }
        Role::Conflicts => "--conflicts takes a number from 0 to 18446744073709551615, or all",
        Role::Moves => "--moves takes a number from 0 to 18446744073709551615",
        Role::Tries => "--tries takes a number from 1 to 100",
        Role::Patterns => "--patterns takes a number from 0 to 18446744073709551615",
        Role::Draws => "--seed takes a number from 0 to 18446744073709551615",
        Role::Seconds => "--seconds takes a number from 0 to 18446744073709551615",
        Role::Room => "--room takes a number of megabytes from 0 to 18446744073709551615",
        Role::Bound => "--bound takes a number from 0 to 18446744073709551615",
        Role::Floor => "--floor takes a number from 0 to 18446744073709551615",
        Role::Form => "--form takes text or csv",
        Role::Most => "--most takes a number from 0 to 4294967295, or all",
        Role::Width => "--width takes a number from 0 to 4294967295",
    }
}
