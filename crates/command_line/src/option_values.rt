//! What the options among words say.
ghost use Rattle.std.specs.Prelude.{◌≡◌, map, codes, false, None, string_bytes};
ghost use Rattle.command_line.specs.Words as options;
ghost use Rattle.command_line.specs.Words.{bound_in, budgets_in, conflicts_in, floor_in, number_in, said, form_in, most_in};
ghost use Rattle.command_line.specs.Words.{limit_in, room_in, room_limit, small_in, tries_in, seconds_in, time_limit};
ghost use Rattle.command_line.specs.Words.{timed_conflicts_in, values_of};
ghost use Rattle.command_line.specs.declared.goal.Goal.TheVariants.{Accepted};
ghost use Rattle.command_line.specs.Standing.{once_more, standing};
ghost use Rattle.command_line.specs.SeenStanding.{seen};

use crate::goal::Goal;
use crate::option_names::has_value;
use crate::values::{bound, budget, form, limit, most, number, small, tries};
use robin_watch::Budgets;

/// How many clauses a search may learn where the words don't say it.
const USUAL_CONFLICTS: u64 = 2000;

/// How many moves a descent may make where the words don't say it.
const USUAL_MOVES: u64 = 40_000;

/// How many clauses the search for patterns may learn where the words don't say it.
const USUAL_PATTERNS: u64 = 500;

/// How many lines of a list `show` tells where the words don't say it.
const USUAL_MOST: u32 = 20;

/// After how many seconds the run of these words, without the program's name, is to end: None where they don't say it.
pub fn seconds_of(words: &[String]) -> Option<u64>
    ensures { result ≡ time_limit (map string_bytes words.now) }
{
    match words {
        [] => None,
        [_, rest @ ..] => seconds_said(rest).unwrap_or(None),
    }
}

/// How many megabytes the steps of a log may take by these words, without the program's name: None where they don't say
/// it.
pub fn room_of(words: &[String]) -> Option<u64>
    ensures { result ≡ room_limit (map string_bytes words.now) }
{
    match words {
        [] => None,
        [_, rest @ ..] => room_said(rest).unwrap_or(None),
    }
}

/// What the words say of how far `solve` goes.
pub(crate) fn budgets(words: &[String]) -> Option<Budgets>
    ensures { result ≡ budgets_in (map string_bytes words.now) }
{
    let conflicts = conflicts_said(words)?;
    let moves = number_said(words, "--moves", USUAL_MOVES)?;
    let seconds = seconds_said(words)?;
    let tries = tries_said(words, usual_tries(seconds))?;
    let patterns = number_said(words, "--patterns", USUAL_PATTERNS)?;
    let seed = number_said(words, "--seed", 0)?;
    Some(Budgets {
        conflicts,
        moves,
        tries,
        patterns,
        seed,
    })
}

/// How many clauses a search may learn.
pub(crate) fn conflicts_said(words: &[String]) -> Option<Option<u64>>
    ensures { result ≡ conflicts_in (map string_bytes words.now) }
{
    match value_of(words, "--conflicts") {
        Standing::Never => Some(Some(USUAL_CONFLICTS)),
        Standing::Once(word) => budget(word),
        Standing::Often => None,
    }
}

/// How many clauses a search may learn, where a time limit may be said too.
pub(crate) fn timed_conflicts_said(words: &[String]) -> Option<Option<u64>>
    ensures { result ≡ timed_conflicts_in (map string_bytes words.now) }
{
    let _seconds = seconds_said(words)?;
    conflicts_said(words)
}

/// What is asked for, with the bound that the words say, if any.
pub(crate) fn goal_said(words: &[String]) -> Option<Goal>
    ensures { result ≡ said Accepted bound_in (values_of (codes "--bound") (map string_bytes words.now)) }
{
    match value_of(words, "--bound") {
        Standing::Never => Some(Goal::Accepted),
        Standing::Once(word) => bound(word),
        Standing::Often => None,
    }
}

/// Whether the form that the words say is that of a spreadsheet.
pub(crate) fn form_said(words: &[String]) -> Option<bool>
    ensures { result ≡ said false form_in (values_of (codes "--form") (map string_bytes words.now)) }
{
    match value_of(words, "--form") {
        Standing::Never => Some(false),
        Standing::Once(word) => form(word),
        Standing::Often => None,
    }
}

/// After how many seconds the run is to end, if the words say it.
fn seconds_said(words: &[String]) -> Option<Option<u64>>
    ensures { result ≡ seconds_in (map string_bytes words.now) }
{
    limit_said(words, "--seconds")
}

/// The number that no season is to cost less than, if the words say it.
pub(crate) fn floor_said(words: &[String]) -> Option<Option<u64>>
    ensures { result ≡ floor_in (map string_bytes words.now) }
{
    limit_said(words, "--floor")
}

/// How many megabytes the steps of a log may take, if the words say it.
pub(crate) fn room_said(words: &[String]) -> Option<Option<u64>>
    ensures { result ≡ room_in (map string_bytes words.now) }
{
    limit_said(words, "--room")
}

/// The limit that an option says, if it stands.
fn limit_said(words: &[String], name: &str) -> Option<Option<u64>>
    ensures { result ≡ said None limit_in (values_of name.now (map string_bytes words.now)) }
{
    match value_of(words, name) {
        Standing::Never => Some(None),
        Standing::Once(word) => limit(word),
        Standing::Often => None,
    }
}

/// The number that an option says, below 4,294,967,296, or the usual one where it doesn't stand.
pub(crate) fn small_said(words: &[String], name: &str, usual: u32) -> Option<u32>
    ensures { result ≡ said usual small_in (values_of name.now (map string_bytes words.now)) }
{
    match value_of(words, name) {
        Standing::Never => Some(usual),
        Standing::Once(word) => small(word),
        Standing::Often => None,
    }
}

/// How many lines of a list `show` tells; the usual number where the words don't say it.
pub(crate) fn most_said(words: &[String]) -> Option<u32>
    ensures { result ≡ said 20 most_in (values_of (codes "--most") (map string_bytes words.now)) }
{
    match value_of(words, "--most") {
        Standing::Never => Some(USUAL_MOST),
        Standing::Once(word) => most(word),
        Standing::Often => None,
    }
}

/// How many tries there are where the words don't say it: with a time limit as many as it leaves time for.
fn usual_tries(seconds: Option<u64>) -> u64
    ensures { result ≡ options.usual_tries seconds }
{
    match seconds {
        None => 1,
        Some(_) => u64::MAX,
    }
}

/// How many tries there are; the usual number where the words don't say it.
fn tries_said(words: &[String], usual: u64) -> Option<u64>
    ensures { result ≡ said usual tries_in (values_of (codes "--tries") (map string_bytes words.now)) }
{
    match value_of(words, "--tries") {
        Standing::Never => Some(usual),
        Standing::Once(word) => tries(word),
        Standing::Often => None,
    }
}

/// The number that an option says, or the usual one where it doesn't stand.
fn number_said(words: &[String], name: &str, usual: u64) -> Option<u64>
    ensures { result ≡ said usual number_in (values_of name.now (map string_bytes words.now)) }
{
    match value_of(words, name) {
        Standing::Never => Some(usual),
        Standing::Once(word) => number(word),
        Standing::Often => None,
    }
}

/// How often an option stands, and its value where that is once.
#[derive(Clone, Copy)]
pub(crate) enum Standing<'a> {
    Never,
    Once(&'a str),
    Often,
}

/// How often the option of a name stands among the words.
pub(crate) fn value_of<'a>(words: &'a [String], name: &str) -> Standing<'a>
    ensures { seen result ≡ standing (values_of name.now (map string_bytes words.now)) }
{
    match words {
        [first, value, rest @ ..] if has_value(first.as_str()) => {
            let later = value_of(rest, name);
            if first.as_str() == name {
                one_more(value.as_str(), later)
            } else {
                later
            }
        }
        [_, rest @ ..] => value_of(rest, name),
        [] => Standing::Never,
    }
}

/// How often an option stands that stands once more, with this value.
fn one_more<'a>(value: &'a str, later: Standing<'a>) -> Standing<'a>
    ensures { seen result ≡ once_more value.now (seen later.entry) }
{
    match later {
        Standing::Never => Standing::Once(value),
        Standing::Once(_) => Standing::Often,
        Standing::Often => Standing::Often,
    }
}
