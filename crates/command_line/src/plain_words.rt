//! The words of commands that have no options.
ghost use Rattle.std.specs.Prelude.{◌≡◌, [], ◌∷◌, map, string_bytes, option_map};
ghost use Rattle.command_line.specs.Words as options;
ghost use Rattle.command_line.specs.Words.{making, parting, plain};
ghost use Rattle.command_line.specs.SeenWords.{command_of};

use crate::arguments::are_names;
use crate::list::is_list;
use crate::values::{is_name, number, team_count};
use crate::words::Words;

/// The command of this name that has no options.
pub(crate) fn read_plain<'a>(command: &str, words: &'a [String]) -> Option<Words<'a>>
    ensures { option_map command_of result ≡ plain command.now (map string_bytes words.now) }
{
    match words {
        [argument] => with_one(command, argument.as_str()),
        [first, second] => with_two(command, first.as_str(), second.as_str()),
        _ => None,
    }
}

/// The command of this name with two arguments.
fn with_two<'a>(command: &str, first: &'a str, second: &'a str) -> Option<Words<'a>>
    ensures { option_map command_of result ≡ plain command.now (first.now ∷ second.now ∷ []) }
{
    match command {
        "make" => make_of(first, second),
        "part" => part_of(first, second),
        _ if are_names(first, second) => over_files(command, first, second),
        _ => None,
    }
}

/// The command of this name over two files.
fn over_files<'a>(command: &str, first: &'a str, second: &'a str) -> Option<Words<'a>>
    ensures { option_map command_of result ≡ options.over_files command.now first.now second.now }
{
    match command {
        "validate" => Some(Words::Validate {
            instance: first,
            solution: second,
        }),
        "values" => Some(Words::Values {
            instance: first,
            values: second,
        }),
        _ => None,
    }
}

/// `part` over a file, with a list.
fn part_of<'a>(file: &'a str, list: &'a str) -> Option<Words<'a>>
    ensures { option_map command_of result ≡ parting file.now list.now }
{
    if !is_name(file) || !is_list(list) {
        return None;
    }
    Some(Words::Part {
        instance: file,
        list,
    })
}

/// `make` with a number of teams and a seed.
fn make_of<'a>(teams: &str, seed: &str) -> Option<Words<'a>>
    ensures { option_map command_of result ≡ making teams.now seed.now }
{
    let n = team_count(teams)?;
    let seed = number(seed)?;
    Some(Words::Make { n, seed })
}

/// The command of this name with one argument.
fn with_one<'a>(command: &str, argument: &'a str) -> Option<Words<'a>>
    ensures { option_map command_of result ≡ plain command.now (argument.now ∷ []) }
{
    if command != "circle" {
        return None;
    }
    let n = team_count(argument)?;
    Some(Words::Circle { n })
}
