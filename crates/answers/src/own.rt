//! The options that the program itself takes.
ghost use Rattle.std.specs.Prelude.{◌≡◌};
ghost use Rattle.answers.specs.Own as options;

/// An option of the program itself that names a file.
#[derive(Clone, Copy)]
pub enum Own {
    /// `--out`: the file that gets what was asked for.
    Out,
    /// `--log`: the file that gets the log of a search that found nothing.
    Log,
}

impl Own {
    /// The option as it is written.
    pub fn word(self) -> &'static str
        ensures { result.now ≡ options.own_word self }
    {
        match self {
            Own::Out => "--out",
            Own::Log => "--log",
        }
    }
}

/// The option that a word is, if any.
pub(crate) fn own_of(word: &str) -> Option<Own>
    ensures { result ≡ options.own_of word.now }
{
    match word {
        "--out" => Some(Own::Out),
        "--log" => Some(Own::Log),
        _ => None,
    }
}

/// The option whose value the next word is, where this word stands behind such an option or not.
pub(crate) fn behind(before: Option<Own>, word: &str) -> Option<Own>
    ensures { result ≡ options.behind before word.now }
{
    match before {
        Some(_) => None,
        None => own_of(word),
    }
}

/// Whether an option is the one before a word.
pub(crate) fn is_own(option: Own, before: Option<Own>) -> bool
    ensures { result ≡ options.is_own option before }
{
    matches!(
        (option, before),
        (Own::Out, Some(Own::Out)) | (Own::Log, Some(Own::Log))
    )
}
