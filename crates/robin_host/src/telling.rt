//! Who is told how a run goes, and how often.

/// Who is told how a run goes.
#[derive(Clone, Copy)]
pub enum Telling {
    /// Nobody.
    Nobody,
    /// A file or a pipe: a line each ten seconds.
    File,
    /// A terminal: one line that is written over and over, twice a second.
    Terminal,
}

impl Telling {
    /// At least so many milliseconds lie between two lines, where anybody is told.
    pub(crate) fn pause(self) -> Option<u128> {
        match self {
            Telling::Nobody => None,
            Telling::File => Some(10_000),
            Telling::Terminal => Some(500),
        }
    }

    /// What stands before a line, and what behind it. A terminal is told to go to the line's front, to cut off what is
    /// wider than it is, and to wipe out the rest of the line.
    pub(crate) fn frame(self) -> (&'static str, &'static str) {
        match self {
            Telling::Nobody => ("", ""),
            Telling::File => ("", "\n"),
            Telling::Terminal => ("\r\x1b[?7l", "\x1b[K\x1b[?7h"),
        }
    }
}
