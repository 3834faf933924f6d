//! The lines of patterns.
ghost use Rattle.std.specs.Prelude.{◌≡◌, ◌++◌, IfOk, OnOk};
ghost use Rattle.std.specs.List.{flat_map};
ghost use Rattle.command_solve.specs.Patterns as texts;
ghost use Rattle.command_solve.specs.Patterns.{pattern_line};

use league::{Side, TeamId};
use patterns::{Pattern, PatternSet};
use robin_io::put_decimal;
use std::alloc::{AllocError, Global};

/// Adds where a team plays in a slot.
fn put_letter(text: &mut Vec<u8>, side: Side) -> Result<(), AllocError>
    ensures { OnOk result (text.new.items ≡ text.old.items ++ texts.letter side) }
{
    match side {
        Side::H => text.extend_from_slice(b"H"),
        Side::A => text.extend_from_slice(b"A"),
        Side::Both => Ok(()),
    }
}

/// Adds the letters of a pattern.
fn put_letters(text: &mut Vec<u8>, pattern: &Pattern) -> Result<(), AllocError>
    ensures { OnOk result (text.new.items ≡ text.old.items ++ flat_map texts.letter pattern.now) }
{
    for slot in 0..pattern.len() {
        put_letter(text, pattern.side(slot))?;
    }
    Ok(())
}

/// Adds the line of a team.
fn put_pattern(text: &mut Vec<u8>, team: u16, pattern: &Pattern) -> Result<(), AllocError>
    ensures { OnOk result (text.new.items ≡ text.old.items ++ pattern_line team pattern.now) }
{
    put_decimal(text, u128::from(team))?;
    text.extend_from_slice(b" ")?;
    put_letters(text, pattern)?;
    text.extend_from_slice(b"\n")
}

/// The text of patterns: a line for each team.
///
/// # Errors
/// Only where memory runs out.
pub(crate) fn patterns_text(alloc: Global, patterns: &PatternSet) -> Result<Vec<u8>, AllocError>
    ensures { IfOk result (λ text. text.items ≡ texts.patterns_text patterns.now) }
{
    let mut text = Vec::new(alloc);
    for team in 0..patterns.len() as u16 {
        put_pattern(&mut text, team, patterns.pattern(TeamId(team)))?;
    }
    Ok(text)
}
