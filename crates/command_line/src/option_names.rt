//! Which options stand among words.
ghost use Rattle.std.specs.Prelude.{◌≡◌, map, string_bytes, bytes_eq};
ghost use Rattle.std.specs.List.{list_any};
ghost use Rattle.command_line.specs.Words as options;
ghost use Rattle.command_line.specs.SeenOptions.{names_of};

use crate::role::role_among;

/// Which options with values a command has.
#[derive(Clone, Copy)]
pub(crate) enum Options {
    /// The option of `patterns`, which says how far a search goes.
    Search,
    /// The options that say how far a search goes, or for how long.
    Timed,
    /// The options of `trial`, and of `resume` with `--near`.
    Solve,
    /// The options of `solve`.
    Start,
    /// The options of `prove`.
    Prove,
    /// The option of the commands that check logs.
    Log,
    /// The option of `rows`.
    Rows,
    /// The options of `show`.
    Show,
}

/// Whether each option that has a value is one of these, and has it.
pub(crate) fn has_options(allowed: Options, words: &[String]) -> bool
    ensures { result ≡ options.has_options (names_of allowed) (map string_bytes words.now) }
{
    match words {
        [first, _, rest @ ..] if has_value(first.as_str()) => {
            is_among(allowed, first.as_str()) && has_options(allowed, rest)
        }
        [first, rest @ ..] => !has_value(first.as_str()) && has_options(allowed, rest),
        [] => true,
    }
}

/// Whether a word is the name of one of these options.
fn is_among(allowed: Options, word: &str) -> bool
    ensures { result ≡ list_any (λ name. bytes_eq word.now name) (names_of allowed) }
{
    role_among(allowed, word).is_some()
}

/// Whether a word names an option: it begins with `--`.
pub(crate) fn is_option(word: &str) -> bool
    ensures { result ≡ options.is_option word.now }
{
    matches!(word.as_bytes(), [b'-', b'-', ..])
}

/// Whether a word is `--near` of `resume`, which has no value.
pub(crate) fn is_near(word: &str) -> bool
    ensures { result ≡ options.is_near word.now }
{
    word == "--near"
}

/// Whether a word names an option that has a value.
pub(crate) fn has_value(word: &str) -> bool
    ensures { result ≡ options.has_value word.now }
{
    is_option(word) && !is_near(word)
}
