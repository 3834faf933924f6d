//! The words of the command line.
ghost use Rattle.std.specs.Prelude.{◌≡◌, [], ◌∷◌, Some, map, string_bytes, option_map, IfSome};
ghost use Rattle.command_line.specs.Words.{asking, following, HasTeams, reading};
ghost use Rattle.command_line.specs.Words.Command.{Help};
ghost use Rattle.command_line.specs.SeenWords.{command_of};
ghost use Rattle.command_line.specs.Later.{following_files, following_season};

use crate::goal::Goal;
use crate::log_words::{read_audit, read_bound, read_check};
use crate::plain_words::read_plain;
use crate::row_words::read_rows;
use crate::search_words::{
    read_explain, read_patterns, read_prove, read_resume, read_solve, read_trial,
};
use crate::show_words::read_show;
use crate::topic::{Topic, topic_of};
use robin_watch::Budgets;

/// What the words ask for.
#[derive(Clone, Copy)]
pub enum Words<'a> {
    /// Judge the schedule of a solution file by the league of an instance file.
    Validate {
        instance: &'a str,
        solution: &'a str,
    },
    /// Show the schedule of a solution file as a grid on a page of so many characters, and in words what it misses: so
    /// many constraints, and so many lines of each.
    Show {
        instance: &'a str,
        solution: &'a str,
        most: u32,
        width: u32,
    },
    /// Say in words what the constraints of the league of an instance file demand: those with the numbers of a list, as
    /// for a part, or all.
    Demands {
        instance: &'a str,
        list: Option<&'a str>,
    },
    /// Write the schedule of a solution file for a spreadsheet.
    Sheet {
        instance: &'a str,
        solution: &'a str,
    },
    /// Check the refutation log of one file over the rows of the league of an instance file.
    Check {
        instance: &'a str,
        log: &'a str,
    },
    /// Search a schedule that the league of an instance file accepts, or a log that refutes the league, within these
    /// budgets.
    Solve {
        instance: &'a str,
        budgets: Budgets,
    },
    /// Search such a schedule or such a log from the double round robin of a solution file.
    SolveFrom {
        instance: &'a str,
        solution: &'a str,
        budgets: Budgets,
    },
    /// Search patterns that the pattern rows of the league of an instance file allow, or a log that refutes them. The
    /// search may learn so many clauses, or any number of them.
    Patterns {
        instance: &'a str,
        conflicts: Option<u64>,
    },
    /// Name hard constraints of the league of an instance file that contradict each other, or search a schedule that it
    /// accepts. Each search may learn so many clauses, or any number of them.
    Explain {
        instance: &'a str,
        conflicts: Option<u64>,
    },
    /// Write the league of the hard constraints of an instance file that have the numbers of a list: numbers from 1 to
    /// 4,294,967,295, each above the one before it, joined by `;`. `members` gives them.
    Part {
        instance: &'a str,
        list: &'a str,
    },
    /// Search a schedule of the league of an instance file that is better than the accepted one of a solution file, or
    /// a certificate that none is; with a floor one that costs less than this number, or a certificate that none does.
    /// The search may learn so many clauses, or any number of them.
    Prove {
        instance: &'a str,
        solution: &'a str,
        floor: Option<u64>,
        conflicts: Option<u64>,
    },
    /// Check the certificate of one file that no schedule that the league of an instance file accepts is better than
    /// its bound.
    Bound {
        instance: &'a str,
        log: &'a str,
    },
    /// Search a schedule that the league of an instance file accepts and that has, in the first k slots, the games of a
    /// solution file; or a log that none has. The search may learn so many clauses, or any number of them.
    Resume {
        instance: &'a str,
        solution: &'a str,
        k: u64,
        conflicts: Option<u64>,
    },
    /// Search such a schedule that changes few of the games of the solution file that are still to come, within these
    /// budgets; or such a log.
    ResumeNear {
        instance: &'a str,
        solution: &'a str,
        k: u64,
        budgets: Budgets,
    },
    /// Check the log of a third file that no schedule that the league of an instance file accepts has, in the first k
    /// slots, the games of a solution file.
    Audit {
        instance: &'a str,
        solution: &'a str,
        k: u64,
        log: &'a str,
    },
    /// Write the rows of the league of an instance file that ask for such a schedule.
    Rows {
        instance: &'a str,
        goal: Goal,
    },
    /// Write the schedule that the values of one file stand for, where they satisfy the rows of the league of an
    /// instance file.
    Values {
        instance: &'a str,
        values: &'a str,
    },
    /// Write the double round robin of the circle method for n teams, n even and from 2 to 40.
    Circle {
        n: u16,
    },
    /// Write the league that a seed makes for n teams, n even and from 2 to 40.
    Make {
        n: u16,
        seed: u64,
    },
    /// Make such a league and search a schedule that it accepts, within these budgets.
    Trial {
        n: u16,
        seed: u64,
        budgets: Budgets,
    },
    /// Say what the program does, or what one command does.
    Help {
        topic: Option<Topic>,
    },
    /// Say which version of the program this is.
    Version,
}

/// What the arguments, without the program's name, ask for: None exactly where they are no command. It takes no
/// memory.
pub fn read_words(words: &[String]) -> Option<Words<'_>>
    ensures reading { option_map command_of result ≡ reading (map string_bytes words.now) }
    ensures teams { IfSome result (λ command. HasTeams (command_of command)) }
{
    match asked(words) {
        Some(question) => Some(question),
        None => command(words),
    }
}

/// Help or the version, where the words ask for it.
fn asked(words: &[String]) -> Option<Words<'_>>
    ensures { option_map command_of result ≡ asking (map string_bytes words.now) }
{
    match words {
        [word] => asked_alone(word.as_str()),
        [first, second] => {
            let topic = help_with(first.as_str(), second.as_str())?;
            Some(Words::Help { topic: Some(topic) })
        }
        _ => None,
    }
}

/// Help or the version, where this one word asks for it.
fn asked_alone<'a>(word: &str) -> Option<Words<'a>>
    ensures { option_map command_of result ≡ asking (word.now ∷ []) }
{
    match word {
        "--help" => Some(Words::Help { topic: None }),
        "--version" => Some(Words::Version),
        _ => None,
    }
}

/// The command on which help is asked for, where one of two words is `--help` and the other one the command's name.
fn help_with(first: &str, second: &str) -> Option<Topic>
    ensures { option_map (λ topic. Help (Some topic)) result ≡ asking (first.now ∷ second.now ∷ []) }
{
    if second == "--help" {
        topic_of(first)
    } else if first == "--help" {
        topic_of(second)
    } else {
        None
    }
}

/// The command that the first word names, with the words behind it.
fn command(words: &[String]) -> Option<Words<'_>>
    ensures { option_map command_of result ≡ following (map string_bytes words.now) }
{
    match words {
        [] => None,
        [command, rest @ ..] => follow(command.as_str(), rest),
    }
}

/// The command of this name with its words.
fn follow<'a>(command: &str, words: &'a [String]) -> Option<Words<'a>>
    ensures { option_map command_of result ≡ following (command.now ∷ map string_bytes words.now) }
{
    match command {
        "solve" => read_solve(words),
        "patterns" => read_patterns(words),
        "explain" => read_explain(words),
        "prove" => read_prove(words),
        _ => follow_season(command, words),
    }
}

/// The command of this name with its words, where it is none of the four that `follow` knows.
fn follow_season<'a>(command: &str, words: &'a [String]) -> Option<Words<'a>>
    ensures { option_map command_of result ≡ following_season command.now (map string_bytes words.now) }
{
    match command {
        "resume" => read_resume(words),
        "audit" => read_audit(words),
        "trial" => read_trial(words),
        "rows" => read_rows(words),
        _ => follow_files(command, words),
    }
}

/// The command of this name with its words, where it is none that `follow` and `follow_season` know.
fn follow_files<'a>(command: &str, words: &'a [String]) -> Option<Words<'a>>
    ensures { option_map command_of result ≡ following_files command.now (map string_bytes words.now) }
{
    if command == "show" {
        read_show(words)
    } else if command == "check" {
        read_check(words)
    } else if command == "bound" {
        read_bound(words)
    } else {
        read_plain(command, words)
    }
}
