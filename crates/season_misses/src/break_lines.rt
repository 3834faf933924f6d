//! The lines of BR1 and BR2.
ghost use Rattle.std.specs.Prelude.{◌≡◌, ◌++◌, IfOk, OnOk, map, string_bytes};
ghost use Rattle.std.specs.List.{flat_map};
ghost use Rattle.season_misses.specs.Lines as lines;

use crate::amounts::There;
use crate::game_words::{games_text, name_at};
use crate::label::Label;
use crate::reason::{Break, Cause};
use league::Side;
use std::alloc::{AllocError, Global};

/// The breaks that are counted; none of another cause.
pub(crate) fn breaks_told(cause: &Cause) -> &[Break]
    ensures { result.now ≡ lines.breaks_told cause.now }
{
    match cause {
        Cause::Breaks(breaks) => breaks.breaks(),
        _ => &[],
    }
}

/// Where a break is.
fn venue_text(side: Side) -> &'static str
    ensures { result.now ≡ lines.venue_text side }
{
    match side {
        Side::H => "at home",
        Side::A => "away",
        Side::Both => "",
    }
}

/// A break with its games.
fn break_text(alloc: Global, names: &[Label], found: &Break) -> Result<String, AllocError>
    ensures { IfOk result (λ text. string_bytes text ≡ lines.break_text names.now found.now) }
{
    let venue = venue_text(found.side);
    let games = games_text(alloc, names, found.games.games())?;
    format!(in alloc; "{venue} {games}")
}

/// Adds a break after another.
fn push_next(
    alloc: Global,
    text: &mut String,
    names: &[Label],
    found: &Break,
) -> Result<(), AllocError>
    ensures { OnOk result (string_bytes text.new ≡ string_bytes text.old ++ lines.next_break names.now found.now) }
{
    let venue = venue_text(found.side);
    let games = games_text(alloc, names, found.games.games())?;
    write!(text, "; {venue} {games}")
}

/// Adds breaks, each after another.
fn push_others(
    alloc: Global,
    text: &mut String,
    names: &[Label],
    others: &[Break],
) -> Result<(), AllocError>
    ensures { OnOk result (string_bytes text.new
        ≡ string_bytes text.old ++ flat_map (lines.next_break names.now) others.now) }
{
    for found in others {
        push_next(alloc, text, names, found)?;
    }
    Ok(())
}

/// Breaks in a row.
fn breaks_text(alloc: Global, names: &[Label], breaks: &[Break]) -> Result<String, AllocError>
    ensures { IfOk result (λ text. string_bytes text ≡ lines.breaks_text names.now breaks.now) }
{
    match breaks {
        [] => Ok(String::new(alloc)),
        [first, others @ ..] => {
            let mut text = break_text(alloc, names, first)?;
            push_others(alloc, &mut text, names, others)?;
            Ok(text)
        }
    }
}

/// A team has too many breaks.
pub(crate) fn breaks_line(
    alloc: Global,
    names: &[Label],
    who: &str,
    intp: u32,
    breaks: &[Break],
) -> Result<String, AllocError>
    ensures { IfOk result (λ text. string_bytes text ≡ lines.breaks_line names.now who.now intp breaks.now) }
{
    let count = breaks.len() as u64;
    let much = count.saturating_sub(u64::from(intp));
    let list = breaks_text(alloc, names, breaks)?;
    format!(in alloc; "{who} has {count}, {much} too many: {list}")
}

/// There are too many breaks.
pub(crate) fn all_breaks_line(
    alloc: Global,
    intp: u32,
    breaks: &[Break],
) -> Result<String, AllocError>
    ensures { IfOk result (λ text. string_bytes text ≡ lines.all_breaks_line intp breaks.now) }
{
    let count = breaks.len() as u64;
    let much = count.saturating_sub(u64::from(intp));
    let there = There(count);
    format!(in alloc; "{there}, {much} too many")
}

/// Adds a break by its later slot, after another.
fn push_slot(text: &mut String, found: &Break) -> Result<(), AllocError>
    ensures { OnOk result (string_bytes text.new ≡ string_bytes text.old ++ lines.next_break_slot found.now) }
{
    let venue = venue_text(found.side);
    let slot = found.slot.0;
    write!(text, ", {venue} ({slot})")
}

/// Adds breaks by their later slots, each after another, of a team alone.
fn push_slots(text: &mut String, others: &[&Break]) -> Result<(), AllocError>
    ensures { OnOk result (string_bytes text.new
        ≡ string_bytes text.old ++ flat_map lines.next_break_slot (map (λ b. b.now) others.now)) }
{
    for found in others {
        push_slot(text, found)?;
    }
    Ok(())
}

/// Adds the line of a team with its breaks, if it has any.
fn push_team(
    alloc: Global,
    found: &mut Vec<Label>,
    who: &str,
    breaks: &[&Break],
) -> Result<(), AllocError>
    ensures { OnOk result (found.new.items
        ≡ found.old.items ++ lines.team_breaks who.now (map (λ b. b.now) breaks.now)) }
{
    match breaks {
        [] => Ok(()),
        [first, others @ ..] => {
            let venue = venue_text(first.side);
            let slot = first.slot.0;
            let mut text = format!(in alloc; "{who} {venue} ({slot})")?;
            push_slots(&mut text, others)?;
            found.push(Label::new(text))?;
            Ok(())
        }
    }
}

/// The breaks of a team.
fn breaks_by<'a>(
    alloc: Global,
    breaks: &'a [Break],
    team: u16,
) -> Result<Vec<&'a Break>, AllocError>
    ensures { IfOk result (λ found. map (λ b. b.now) found.items ≡ lines.breaks_by breaks.now team) }
{
    breaks
        .iter()
        .filter(|found| found.team.0 == team)
        .collect(alloc)
}

/// Each team that has breaks, with these.
pub(crate) fn breaks_by_team(
    alloc: Global,
    names: &[Label],
    breaks: &[Break],
    teams: &[u16],
) -> Result<Vec<Label>, AllocError>
    ensures { IfOk result (λ found. found.items ≡ lines.breaks_by_team names.now breaks.now teams.now) }
{
    let mut found = Vec::new(alloc);
    for team in teams {
        let its = breaks_by(alloc, breaks, *team)?;
        push_team(alloc, &mut found, name_at(names, *team), &its)?;
    }
    Ok(found)
}
