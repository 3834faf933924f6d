//! The words of `show`.
ghost use Rattle.std.specs.Prelude.{◌≡◌, [], ◌∷◌, map, string_bytes, option_map};
ghost use Rattle.command_line.specs.Words.{demanding};
ghost use Rattle.command_line.specs.Words.{showing, showing_season};
ghost use Rattle.command_line.specs.SeenWords.{command_of};

use crate::arguments::two_files;
use crate::list::is_list;
use crate::option_names::{Options, has_options};
use crate::option_values::{form_said, most_said, small_said};
use crate::values::is_name;
use crate::words::Words;

/// How wide the page of `show` is where the words don't say it.
const USUAL_WIDTH: u32 = 80;

/// `show`: what a league demands, or a season.
pub(crate) fn read_show(words: &[String]) -> Option<Words<'_>>
    ensures { option_map command_of result ≡ showing (map string_bytes words.now) }
{
    match read_demands(words) {
        Some(demands) => Some(demands),
        None => read_season(words),
    }
}

/// `show` over one file with `--demands` behind it, and a list or none behind that.
fn read_demands(words: &[String]) -> Option<Words<'_>>
    ensures { option_map command_of result ≡ demanding (map string_bytes words.now) }
{
    match words {
        [file, option] => all_demands(file.as_str(), option.as_str()),
        [file, option, list] => some_demands(file.as_str(), option.as_str(), list.as_str()),
        _ => None,
    }
}

/// What all constraints of a file demand, where the option behind it asks for that.
fn all_demands<'a>(file: &'a str, option: &str) -> Option<Words<'a>>
    ensures { option_map command_of result ≡ demanding (file.now ∷ option.now ∷ []) }
{
    if option != "--demands" || !is_name(file) {
        return None;
    }
    Some(Words::Demands {
        instance: file,
        list: None,
    })
}

/// What the constraints of a file demand that have the numbers of a list, where the option before it asks for that.
fn some_demands<'a>(file: &'a str, option: &str, list: &'a str) -> Option<Words<'a>>
    ensures { option_map command_of result ≡ demanding (file.now ∷ option.now ∷ list.now ∷ []) }
{
    if option != "--demands" || !is_name(file) || !is_list(list) {
        return None;
    }
    Some(Words::Demands {
        instance: file,
        list: Some(list),
    })
}

/// `show` over two files, with its options.
fn read_season(words: &[String]) -> Option<Words<'_>>
    ensures { option_map command_of result ≡ showing_season (map string_bytes words.now) }
{
    if !has_options(Options::Show, words) {
        return None;
    }
    let (instance, solution) = two_files(words)?;
    let sheet = form_said(words)?;
    let most = most_said(words)?;
    let width = small_said(words, "--width", USUAL_WIDTH)?;
    if sheet {
        return Some(Words::Sheet { instance, solution });
    }
    Some(Words::Show {
        instance,
        solution,
        most,
        width,
    })
}
