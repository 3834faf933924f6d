//! What a word behind a command is to be.
ghost use Rattle.std.specs.Prelude.{◌≡◌, ◌<◌, OnSome};
ghost use Rattle.command_line.specs.Faults as faults;
ghost use Rattle.command_line.specs.Later as later;
ghost use Rattle.command_line.specs.SeenOptions as seen;

use crate::list::is_list;
use crate::option_names::Options;
use crate::topic::Topic;
use crate::values::{budget, form, is_name, most, number, small, team_count, tries};

/// What a word behind a command, or behind an option, is to be.
#[derive(Clone, Copy)]
pub enum Role {
    /// The name of a league's file.
    Instance,
    /// The name of a season's file.
    Solution,
    /// The name of a log's file, or of a certificate's.
    Log,
    /// The name of a file of values.
    Values,
    /// A number of slots.
    Slots,
    /// A number of teams.
    Teams,
    /// The seed of a made league.
    Seed,
    /// The numbers of constraints.
    Members,
    /// The value of `--conflicts`.
    Conflicts,
    /// The value of `--moves`.
    Moves,
    /// The value of `--tries`.
    Tries,
    /// The value of `--patterns`.
    Patterns,
    /// The value of `--seed`.
    Draws,
    /// The value of `--seconds`.
    Seconds,
    /// The value of `--room`.
    Room,
    /// The value of `--bound`.
    Bound,
    /// The value of `--floor`.
    Floor,
    /// The value of `--form`.
    Form,
    /// The value of `--most`.
    Most,
    /// The value of `--width`.
    Width,
}

/// Whether a word is such.
pub(crate) fn fits(role: Role, word: &str) -> bool
    ensures { result ≡ faults.fits role word.now }
{
    match role {
        Role::Instance | Role::Solution | Role::Log | Role::Values => is_name(word),
        Role::Slots
        | Role::Seed
        | Role::Moves
        | Role::Patterns
        | Role::Draws
        | Role::Seconds
        | Role::Room
        | Role::Bound
        | Role::Floor => number(word).is_some(),
        Role::Teams => team_count(word).is_some(),
        Role::Members => is_list(word),
        Role::Conflicts => budget(word).is_some(),
        Role::Tries => tries(word).is_some(),
        Role::Form => form(word).is_some(),
        Role::Most => most(word).is_some(),
        Role::Width => small(word).is_some(),
    }
}

/// Whether a word is an option of a command that has no value, or none that it must have.
pub(crate) fn is_flag(command: Topic, word: &str) -> bool
    ensures { result ≡ faults.is_flag command word.now }
{
    match command {
        Topic::Rows => word == "--objective",
        Topic::Resume => word == "--near",
        Topic::Show => word == "--demands",
        _ => false,
    }
}

/// What the value of an option of a command is to be, where the command has this option with a value.
pub(crate) fn option_role(command: Topic, word: &str) -> Option<Role>
    ensures { result ≡ faults.option_role command word.now }
{
    match options_of(command) {
        Some(options) => role_among(options, word),
        None => None,
    }
}

/// The options with values that a command has, if any.
fn options_of(command: Topic) -> Option<Options>
    ensures { result ≡ seen.options_of command }
{
    match command {
        Topic::Solve => Some(Options::Start),
        Topic::Trial | Topic::Resume => Some(Options::Solve),
        Topic::Patterns => Some(Options::Search),
        Topic::Explain => Some(Options::Timed),
        Topic::Prove => Some(Options::Prove),
        Topic::Rows => Some(Options::Rows),
        Topic::Show => Some(Options::Show),
        Topic::Check | Topic::Bound | Topic::Audit => Some(Options::Log),
        _ => None,
    }
}

/// What the value of an option is to be, where it is one of these.
pub(crate) fn role_among(options: Options, word: &str) -> Option<Role>
    ensures { result ≡ seen.role_among options word.now }
{
    match options {
        Options::Search => search_option(word),
        Options::Timed => timed_option(word),
        Options::Solve => solve_option(word),
        Options::Start => start_option(word),
        Options::Prove => prove_option(word),
        Options::Log => log_option(word),
        Options::Rows => row_option(word),
        Options::Show => show_option(word),
    }
}

/// What the value of an option of a command that searches is to be.
fn search_option(word: &str) -> Option<Role>
    ensures { result ≡ faults.search_option word.now }
{
    match word {
        "--conflicts" => Some(Role::Conflicts),
        _ => None,
    }
}

/// What the value of an option of a command that searches is to be, if a time limit is one too.
fn timed_option(word: &str) -> Option<Role>
    ensures { result ≡ faults.timed_option word.now }
{
    match word {
        "--conflicts" => Some(Role::Conflicts),
        "--seconds" => Some(Role::Seconds),
        _ => None,
    }
}

/// What the value of an option of `prove` is to be.
fn prove_option(word: &str) -> Option<Role>
    ensures { result ≡ faults.prove_option word.now }
{
    match word {
        "--floor" => Some(Role::Floor),
        _ => timed_option(word),
    }
}

/// What the value of an option of a command that checks logs is to be.
fn log_option(word: &str) -> Option<Role>
    ensures { result ≡ faults.log_option word.now }
{
    match word {
        "--room" => Some(Role::Room),
        _ => None,
    }
}

/// What the value of an option of `rows` is to be.
fn row_option(word: &str) -> Option<Role>
    ensures { result ≡ faults.row_option word.now }
{
    match word {
        "--bound" => Some(Role::Bound),
        _ => None,
    }
}

/// What the value of an option of `show` is to be.
fn show_option(word: &str) -> Option<Role>
    ensures { result ≡ faults.show_option word.now }
{
    match word {
        "--form" => Some(Role::Form),
        "--most" => Some(Role::Most),
        "--width" => Some(Role::Width),
        _ => None,
    }
}

/// What the value of an option of `solve` is to be.
fn start_option(word: &str) -> Option<Role>
    ensures { result ≡ faults.start_option word.now }
{
    match word {
        "--from" => Some(Role::Solution),
        _ => solve_option(word),
    }
}

/// What the value of an option of `trial`, or of `resume` with `--near`, is to be.
fn solve_option(word: &str) -> Option<Role>
    ensures { result ≡ faults.solve_option word.now }
{
    match word {
        "--conflicts" => Some(Role::Conflicts),
        "--moves" => Some(Role::Moves),
        "--tries" => Some(Role::Tries),
        _ => later_option(word),
    }
}

/// What the value of `--patterns`, `--seed` or `--seconds` is to be.
fn later_option(word: &str) -> Option<Role>
    ensures { result ≡ later.later_option word.now }
{
    match word {
        "--patterns" => Some(Role::Patterns),
        "--seed" => Some(Role::Draws),
        "--seconds" => Some(Role::Seconds),
        _ => None,
    }
}

/// What an argument of a command is to be, by how many stand before it; there are four at most.
pub(crate) fn role_at(command: Topic, before: usize) -> Option<Role>
    ensures { OnSome result (before < 4) }
{
    match before {
        0 => Some(first_role(command)),
        1 => second_role(command),
        2 => third_role(command),
        3 => fourth_role(command),
        _ => None,
    }
}

/// What the first argument of a command is to be.
fn first_role(command: Topic) -> Role {
    match command {
        Topic::Circle | Topic::Make | Topic::Trial => Role::Teams,
        _ => Role::Instance,
    }
}

/// What the second argument of a command is to be.
fn second_role(command: Topic) -> Option<Role> {
    match command {
        Topic::Part => Some(Role::Members),
        Topic::Make | Topic::Trial => Some(Role::Seed),
        Topic::Check | Topic::Bound => Some(Role::Log),
        Topic::Values => Some(Role::Values),
        Topic::Validate | Topic::Show | Topic::Prove | Topic::Resume | Topic::Audit => Some(
            Role::Solution,
        ),
        _ => None,
    }
}

/// What the third argument of a command is to be.
fn third_role(command: Topic) -> Option<Role> {
    match command {
        Topic::Resume | Topic::Audit => Some(Role::Slots),
        _ => None,
    }
}

/// What the fourth argument of a command is to be.
fn fourth_role(command: Topic) -> Option<Role> {
    match command {
        Topic::Audit => Some(Role::Log),
        _ => None,
    }
}
