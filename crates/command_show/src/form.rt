//! How a season is shown.

/// How a season is shown.
#[derive(Clone, Copy)]
pub enum Form {
    /// As a grid on a page of a width, and in words: `most` constraints, and `most` lines of each.
    Text { most: u32, width: u32 },
    /// As comma-separated values.
    Csv,
}
