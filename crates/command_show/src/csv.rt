//! The lines of games as comma-separated values.
ghost use Rattle.std.specs.Prelude.{◌≡◌, ◌<◌, ◌++◌, IfOk, OnOk, length, codes, decimal};
ghost use Rattle.std.specs.List.{All, flat_map};
ghost use Rattle.league.specs.Instance.{IsGame};
ghost use Rattle.robinx.specs.Names.{IsNames, team_name};
ghost use Rattle.command_show.specs.Csv as csv;

use league::{Game, TeamId};
use robinx::Names;
use std::alloc::{AllocError, Global};

/// The line of the fields' names.
const HEADER: &[u8] = b"slot,slot_name,home,home_name,away,away_name\r\n";

/// A name that a spreadsheet would take for a formula, with an apostrophe before it.
fn defused(alloc: Global, name: &[u8]) -> Result<Vec<u8>, AllocError>
    ensures { IfOk result (λ field. field.items ≡ csv.defused name.now) }
{
    let mut field = Vec::new(alloc);
    if let [b'=' | b'+' | b'-' | b'@', ..] = name {
        field.push(b'\'')?;
    }
    field.extend_from_slice(name)?;
    Ok(field)
}

/// Whether a field is put into quotes.
fn needs_quotes(field: &[u8]) -> bool
    ensures { result ≡ csv.needs_quotes field.now }
{
    field.iter().any(|byte| *byte == b',' || *byte == b'"' || *byte == b'\r' || *byte == b'\n')
}

/// Adds a field's bytes with each quote doubled.
fn push_doubled(text: &mut Vec<u8>, field: &[u8]) -> Result<(), AllocError>
    ensures { OnOk result (text.new.items ≡ text.old.items ++ flat_map csv.doubled field.now) }
{
    for byte in field {
        if *byte == b'"' {
            text.push(b'"')?;
        }
        text.push(*byte)?;
    }
    Ok(())
}

/// Adds a field.
fn push_field(text: &mut Vec<u8>, field: &[u8]) -> Result<(), AllocError>
    ensures { OnOk result (text.new.items ≡ text.old.items ++ csv.field_text field.now) }
{
    if !needs_quotes(field) {
        text.extend_from_slice(field)?;
        return Ok(());
    }
    text.push(b'"')?;
    push_doubled(text, field)?;
    text.push(b'"')?;
    Ok(())
}

/// Adds a number and the name of what it numbers.
fn push_numbered(
    alloc: Global,
    text: &mut Vec<u8>,
    number: u16,
    name: &str,
) -> Result<(), AllocError>
    ensures { OnOk result (text.new.items ≡ text.old.items ++ csv.numbered number name.now) }
{
    let front = format!(in alloc; "{number},")?;
    text.extend_from_slice(front.as_bytes())?;
    let field = defused(alloc, name.as_bytes())?;
    push_field(text, &field)
}

/// Adds a team's number and its name.
fn push_team(
    alloc: Global,
    text: &mut Vec<u8>,
    names: &Names,
    team: TeamId,
) -> Result<(), AllocError>
    requires { team.0 < length names.now.teams }
    ensures { OnOk result (text.new.items
        ≡ text.old.items ++ csv.numbered team.0 (team_name names.now team.0)) }
{
    push_numbered(alloc, text, team.0, names.team(team))
}

/// Adds the line of a game.
fn push_game(
    alloc: Global,
    text: &mut Vec<u8>,
    names: &Names,
    game: &Game,
) -> Result<(), AllocError>
    requires names { IsNames (length names.now.teams) names.now }
    requires game { IsGame (length names.now.teams) game.now }
    ensures { OnOk result (text.new.items ≡ text.old.items ++ csv.game_line names.now game.now) }
{
    push_numbered(alloc, text, game.slot.0, names.slot(game.slot))?;
    text.push(b',')?;
    push_team(alloc, text, names, game.home)?;
    text.push(b',')?;
    push_team(alloc, text, names, game.away)?;
    text.extend_from_slice(b"\r\n")
}

/// A season as comma-separated values (RFC 4180): a line of the fields' names, and a line for each of these games of the
/// league whose names these are, in the order given. A name that a spreadsheet would take for a formula has an apostrophe
/// before it.
///
/// # Errors
/// Only where memory runs out.
pub fn season_csv(alloc: Global, names: &Names, games: &[Game]) -> Result<Vec<u8>, AllocError>
    requires names { IsNames (length names.now.teams) names.now }
    requires games { All (IsGame (length names.now.teams)) games.now }
    ensures { IfOk result (λ text. text.items ≡ csv.csv_text names.now games.now) }
{
    let mut text = Vec::from_slice(alloc, HEADER)?;
    for game in games {
        push_game(alloc, &mut text, names, game)?;
    }
    Ok(text)
}
