//! The words of commands that search.
ghost use Rattle.std.specs.Prelude.{◌≡◌, ◌∷◌, map, codes, string_bytes, option_map};
ghost use Rattle.command_line.specs.Words as options;
ghost use Rattle.command_line.specs.Words.{arguments_of, explaining};
ghost use Rattle.command_line.specs.Words.{patterning, proving, resuming, resuming_kept, resuming_near};
ghost use Rattle.command_line.specs.Words.{said, solving, starting, trying, values_of};
ghost use Rattle.command_line.specs.Words.Command.{Solve};
ghost use Rattle.command_line.specs.SeenWords.{command_of};

use crate::arguments::{files_and_number, near_files_and_number, one_file, one_number, two_files};
use crate::option_names::{Options, has_options, has_value};
use crate::option_values::{
    Standing, budgets, conflicts_said, floor_said, timed_conflicts_said, value_of,
};
use crate::values::{is_name, team_count};
use crate::words::Words;
use robin_watch::Budgets;

/// `solve` over one file, with its options.
pub(crate) fn read_solve(words: &[String]) -> Option<Words<'_>>
    ensures { option_map command_of result ≡ solving (map string_bytes words.now) }
{
    if !has_options(Options::Start, words) {
        return None;
    }
    let instance = one_file(words)?;
    let budgets = budgets(words)?;
    solve_said(words, instance, budgets)
}

/// `solve` of a file within budgets, from the season that the words name, if any.
fn solve_said<'a>(words: &'a [String], instance: &'a str, budgets: Budgets) -> Option<Words<'a>>
    ensures { option_map command_of result ≡ said (Solve instance.now budgets) (starting instance.now budgets)
        (values_of (codes "--from") (map string_bytes words.now)) }
{
    match value_of(words, "--from") {
        Standing::Never => Some(Words::Solve { instance, budgets }),
        Standing::Once(solution) => solve_from(instance, solution, budgets),
        Standing::Often => None,
    }
}

/// `solve` of a file within budgets, from the season of another file.
fn solve_from<'a>(instance: &'a str, solution: &'a str, budgets: Budgets) -> Option<Words<'a>>
    ensures { option_map command_of result ≡ starting instance.now budgets solution.now }
{
    if !is_name(solution) {
        return None;
    }
    Some(Words::SolveFrom {
        instance,
        solution,
        budgets,
    })
}

/// `patterns` over one file, with its option.
pub(crate) fn read_patterns(words: &[String]) -> Option<Words<'_>>
    ensures { option_map command_of result ≡ patterning (map string_bytes words.now) }
{
    if !has_options(Options::Search, words) {
        return None;
    }
    let instance = one_file(words)?;
    let conflicts = conflicts_said(words)?;
    Some(Words::Patterns {
        instance,
        conflicts,
    })
}

/// `explain` over one file, with its options.
pub(crate) fn read_explain(words: &[String]) -> Option<Words<'_>>
    ensures { option_map command_of result ≡ explaining (map string_bytes words.now) }
{
    if !has_options(Options::Timed, words) {
        return None;
    }
    let instance = one_file(words)?;
    let conflicts = timed_conflicts_said(words)?;
    Some(Words::Explain {
        instance,
        conflicts,
    })
}

/// `prove` over two files, with its options.
pub(crate) fn read_prove(words: &[String]) -> Option<Words<'_>>
    ensures { option_map command_of result ≡ proving (map string_bytes words.now) }
{
    if !has_options(Options::Prove, words) {
        return None;
    }
    let (instance, solution) = two_files(words)?;
    let floor = floor_said(words)?;
    let conflicts = timed_conflicts_said(words)?;
    Some(Words::Prove {
        instance,
        solution,
        floor,
        conflicts,
    })
}

/// `resume`, near the old plan or not.
pub(crate) fn read_resume(words: &[String]) -> Option<Words<'_>>
    ensures { option_map command_of result ≡ resuming (map string_bytes words.now) }
{
    match read_near(words) {
        Some(near) => Some(near),
        None => read_kept(words),
    }
}

/// `resume` over two files, with a number of slots, `--near` and its options.
fn read_near(words: &[String]) -> Option<Words<'_>>
    ensures { option_map command_of result ≡ resuming_near (map string_bytes words.now) }
{
    if !has_options(Options::Solve, words) {
        return None;
    }
    let (instance, solution, k) = near_files_and_number(words)?;
    let budgets = budgets(words)?;
    Some(Words::ResumeNear {
        instance,
        solution,
        k,
        budgets,
    })
}

/// `resume` over two files, with a number of slots and its options.
fn read_kept(words: &[String]) -> Option<Words<'_>>
    ensures { option_map command_of result ≡ resuming_kept (map string_bytes words.now) }
{
    if !has_options(Options::Timed, words) {
        return None;
    }
    let (instance, solution, k) = files_and_number(words)?;
    let conflicts = timed_conflicts_said(words)?;
    Some(Words::Resume {
        instance,
        solution,
        k,
        conflicts,
    })
}

/// `trial` with a number of teams and a seed, and the options of `solve`.
pub(crate) fn read_trial(words: &[String]) -> Option<Words<'_>>
    ensures { option_map command_of result ≡ trying (map string_bytes words.now) }
{
    if !has_options(Options::Solve, words) {
        return None;
    }
    let (n, seed) = teams_and_seed(words)?;
    let budgets = budgets(words)?;
    Some(Words::Trial { n, seed, budgets })
}

/// The number of teams and the seed among the arguments.
fn teams_and_seed(words: &[String]) -> Option<(u16, u64)>
    ensures { result ≡ options.teams_and_seed (arguments_of (map string_bytes words.now)) }
{
    match words {
        [] => None,
        [first, _, rest @ ..] if has_value(first.as_str()) => teams_and_seed(rest),
        [first, rest @ ..] => with_seed(first.as_str(), rest),
    }
}

/// A number of teams, with the seed among the arguments behind it.
#[tactic(auto, unfolding(crate::specs::Words::teams_and_seed))]
fn with_seed(teams: &str, words: &[String]) -> Option<(u16, u64)>
    ensures { result ≡ options.teams_and_seed (teams.now ∷ arguments_of (map string_bytes words.now)) }
{
    let n = team_count(teams)?;
    let seed = one_number(words)?;
    Some((n, seed))
}
