//! Versions of a log's text.

/// The version of a log's text, which its first line names.
#[derive(Clone, Copy, Debug, PartialEq, Eq)]
pub enum Version {
    /// Each step is a clause with its hints.
    One,
    /// Each step is marked as a clause step or a linear step.
    Two,
}
