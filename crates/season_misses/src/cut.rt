//! Lists that are cut.
ghost use Rattle.std.specs.Prelude.{◌≡◌, ◌++◌, take, OnOk, string_bytes};
ghost use Rattle.std.specs.List.{flat_map};
ghost use Rattle.season_misses.specs.Misses as misses;

use crate::label::Label;
use std::alloc::AllocError;

/// At most so many of a list, from its front.
pub(crate) fn front_of<T>(items: &[T], most: usize) -> &[T]
    ensures { result.now ≡ take most items.now }
{
    if most < items.len() {
        return &items[..most];
    }
    items
}

/// Adds how many more than `most` there are, where there are more.
pub(crate) fn push_more(
    text: &mut String,
    front: &str,
    back: &str,
    most: usize,
    count: usize,
) -> Result<(), AllocError>
    ensures { OnOk result (string_bytes text.new
        ≡ string_bytes text.old ++ misses.more_text front.now back.now most count) }
{
    if count <= most {
        return Ok(());
    }
    let more = count - most;
    write!(text, "{front}and {more}{back}\n")
}

/// Adds a line of a list.
pub(crate) fn push_line(text: &mut String, front: &str, line: &str) -> Result<(), AllocError>
    ensures { OnOk result (string_bytes text.new ≡ string_bytes text.old ++ misses.list_line front.now line.now) }
{
    write!(text, "{front}{line}\n")
}

/// Adds the lines of a list.
fn push_lines(text: &mut String, front: &str, lines: &[Label]) -> Result<(), AllocError>
    ensures { OnOk result (string_bytes text.new
        ≡ string_bytes text.old ++ flat_map (misses.list_line front.now) lines.now) }
{
    for line in lines {
        push_line(text, front, line.text())?;
    }
    Ok(())
}

/// Adds the lines of a list, `most` of them, and how many more there are.
pub(crate) fn push_cut(
    text: &mut String,
    front: &str,
    back: &str,
    most: usize,
    lines: &[Label],
) -> Result<(), AllocError>
    ensures { OnOk result (string_bytes text.new
        ≡ string_bytes text.old ++ misses.cut_lines front.now back.now most lines.now) }
{
    push_lines(text, front, front_of(lines, most))?;
    push_more(text, front, back, most, lines.len())
}
