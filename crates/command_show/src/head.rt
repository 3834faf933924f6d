//! Teams in front of the cells of a grid, by their numbers and names.
ghost use Rattle.std.specs.Prelude.{◌≡◌, ◌<◌, ◌≤◌, ◌^◌, ◌++◌, IfOk, OnOk, length, string_bytes};
ghost use Rattle.std.specs.Str.{chars};
ghost use Rattle.robinx.specs.Names.{IsNames, team_name};
ghost use Rattle.command_show.specs.Widths as widths;
ghost use Rattle.command_show.specs.Grid as grid;
ghost use Rattle.command_show.specs.SeenSeason.{season_of};

use crate::columns::Columns;
use crate::season::Season;
use crate::widths::{push_number, push_spaces};
use league::TeamId;
use std::alloc::{AllocError, Global};

/// The most characters of a name in the grid.
const MOST_CHARACTERS: usize = 20;

/// How many characters a text has.
fn width_of(text: &str) -> usize
    ensures value { result ≡ widths.width_of text.now }
    ensures short { result < 2 ^ 63 }
{
    text.chars().count()
}

/// The first characters of a text, so many at most.
fn front_of(alloc: Global, most: usize, text: &str) -> Result<String, AllocError>
    ensures { IfOk result (λ front. string_bytes front ≡ widths.front_of most text.now) }
{
    text.chars().take(most).collect(alloc)
}

/// The name of a team in the grid.
fn grid_name(alloc: Global, season: &Season, team: TeamId) -> Result<String, AllocError>
    requires { team.0 < length season.now.names.now.teams }
    ensures { IfOk result (λ name. string_bytes name ≡ grid.grid_name season.now.names.now team.0) }
{
    front_of(alloc, MOST_CHARACTERS, season.names.team(team))
}

/// How many digits a team's number below n has at most.
fn digits_of(n: u16) -> usize
    requires low { 0 < n }
    requires high { n ≤ 100 }
    ensures value { result ≡ grid.digits_of n }
    ensures few { result ≤ 2 }
{
    if n <= 10 { 1 } else { 2 }
}

/// The width of the widest name in the grid.
fn name_width(alloc: Global, season: &Season) -> Result<usize, AllocError>
    requires { IsNames season.now.cells.now.n season.now.names.now }
    ensures value { IfOk result (λ width. width ≡ grid.name_width season.now.cells.now.n season.now.names.now) }
    ensures short { IfOk result (λ width. width < 2 ^ 63) }
{
    let mut widest = 0;
    for number in 0..season.cells.n() {
        let name = grid_name(alloc, season, TeamId(number))?;
        widest = width_of(&name).max(widest);
    }
    Ok(widest)
}

/// The columns of a season's grid.
pub(crate) fn columns_of(alloc: Global, season: &Season) -> Result<Columns, AllocError>
    requires { IsNames season.now.cells.now.n season.now.names.now }
    ensures value { IfOk result (λ columns. columns ≡ grid.columns_of (season_of season.now)) }
    ensures digits { IfOk result (λ columns. columns.digits ≤ 2) }
{
    let digits = digits_of(season.cells.n());
    let names = name_width(alloc, season)?;
    let shown = if names == 0 { 0 } else { 1 + names };
    Ok(Columns {
        digits,
        front: (digits + shown).max(4) + 1,
    })
}

/// Adds a team's number and name, in the width in front of the cells.
pub(crate) fn push_head(
    alloc: Global,
    text: &mut Vec<u8>,
    columns: Columns,
    season: &Season,
    team: TeamId,
) -> Result<(), AllocError>
    requires digits { columns.digits ≤ 2 }
    requires team { team.0 < length season.now.names.now.teams }
    ensures { OnOk result (text.new.items
        ≡ text.old.items ++ grid.head columns team.0 (grid.grid_name season.now.names.now team.0)) }
{
    let name = grid_name(alloc, season, team)?;
    push_number(alloc, text, columns.digits, u32::from(team.0))?;
    text.push(b' ')?;
    text.extend_from_slice(name.as_bytes())?;
    let left = columns.front.saturating_sub(columns.digits + 1);
    push_spaces(text, left.saturating_sub(width_of(&name)))
}
