//! The grid of a season.
ghost use Rattle.std.specs.Prelude.{◌≡◌, ◌<◌, ◌≤◌, ◌+◌, ◌++◌, codes, min, IfOk, OnOk, length};
ghost use Rattle.std.specs.List.{All, flat_map};
ghost use Rattle.league.specs.Counts.{slot_count};
ghost use Rattle.robinx.specs.Names.{IsNames};
ghost use Rattle.command_show.specs.Grid as grid;
ghost use Rattle.command_show.specs.SeenSeason.{season_of};

use crate::blocks::{Block, blocks_of};
use crate::cell::{games_text, has_break, is_misphased, mark};
use crate::columns::Columns;
use crate::head::{columns_of, push_head};
use crate::season::Season;
use crate::tallies::{away_run, breaks_in_all, home_first, home_run, home_second};
use crate::widths::{push_line, push_number, push_right, push_spaces};
use league::{SlotId, TeamId};
use std::alloc::{AllocError, Global};

/// Adds the cell of a team and a slot.
fn push_cell(
    alloc: Global,
    line: &mut Vec<u8>,
    columns: Columns,
    season: &Season,
    team: TeamId,
    slot: SlotId,
) -> Result<(), AllocError>
    requires digits { columns.digits ≤ 2 }
    requires team { team.0 < season.now.cells.now.n }
    requires slot { slot.0 < slot_count season.now.cells.now.n }
    ensures { OnOk result (line.new.items
        ≡ line.old.items ++ grid.cell columns (season_of season.now) team.0 slot.0) }
{
    let games = games_text(alloc, season.cells, team, slot)?;
    push_right(line, columns.digits + 1, games.as_bytes())?;
    let misphased = season.phased && is_misphased(season.cells, team, slot);
    line.extend_from_slice(mark(has_break(season.cells, team, slot), misphased))
}

/// Adds the line above a block.
fn push_slots(
    alloc: Global,
    text: &mut Vec<u8>,
    columns: Columns,
    block: Block,
) -> Result<(), AllocError>
    requires digits { columns.digits ≤ 2 }
    requires slots { block.first + block.slots ≤ 78 }
    ensures { OnOk result (text.new.items ≡ text.old.items ++ grid.slots_line columns block) }
{
    let mut line = Vec::from_slice(alloc, b"slot")?;
    push_spaces(&mut line, columns.front.saturating_sub(4))?;
    for place in 0..block.slots {
        push_number(
            alloc,
            &mut line,
            columns.digits + 1,
            u32::from(block.first + place),
        )?;
        line.push(b' ')?;
    }
    push_line(text, &line)
}

/// Adds the line of a team in a block.
fn push_team(
    alloc: Global,
    text: &mut Vec<u8>,
    columns: Columns,
    season: &Season,
    block: Block,
    team: TeamId,
) -> Result<(), AllocError>
    requires digits { columns.digits ≤ 2 }
    requires names { IsNames season.now.cells.now.n season.now.names.now }
    requires team { team.0 < season.now.cells.now.n }
    requires slots { block.first + block.slots ≤ slot_count season.now.cells.now.n }
    requires short { block.first + block.slots ≤ 78 }
    ensures { OnOk result (text.new.items
        ≡ text.old.items ++ grid.team_line columns (season_of season.now) block team.0) }
{
    let mut line = Vec::new(alloc);
    push_head(alloc, &mut line, columns, season, team)?;
    for place in 0..block.slots {
        let slot = SlotId(block.first + place);
        push_cell(alloc, &mut line, columns, season, team, slot)?;
    }
    push_line(text, &line)
}

/// Adds a block.
fn push_block(
    alloc: Global,
    text: &mut Vec<u8>,
    columns: Columns,
    season: &Season,
    block: Block,
) -> Result<(), AllocError>
    requires digits { columns.digits ≤ 2 }
    requires names { IsNames season.now.cells.now.n season.now.names.now }
    requires slots { block.first + block.slots ≤ slot_count season.now.cells.now.n }
    requires short { block.first + block.slots ≤ 78 }
    ensures { OnOk result (text.new.items
        ≡ text.old.items ++ grid.block_text columns (season_of season.now) block) }
{
    push_slots(alloc, text, columns, block)?;
    for number in 0..season.cells.n() {
        push_team(alloc, text, columns, season, block, TeamId(number))?;
    }
    text.push(b'\n')?;
    Ok(())
}

/// Adds what the signs of the cells mean.
fn push_legend(text: &mut Vec<u8>, phased: bool) -> Result<(), AllocError>
    ensures { OnOk result (text.new.items ≡ text.old.items ++ grid.legend phased) }
{
    text.extend_from_slice(
        b"@ away   * break: at home, or away, twice in a row   - no game   #2 two games\n",
    )?;
    if phased {
        text.extend_from_slice(
            b"! a pair that doesn't meet just once in the first half   % such a pair and a break\n",
        )?;
    }
    Ok(())
}

/// Whether a slot's name says no more than its number.
fn is_number_alone(alloc: Global, slot: SlotId, name: &str) -> Result<bool, AllocError>
    ensures { IfOk result (λ alone. alone ≡ grid.is_number_alone slot.0 name.now) }
{
    let number = slot.0;
    let bare = format!(in alloc; "{number}")?;
    let word = format!(in alloc; "Slot {number}")?;
    Ok(name.is_empty() || name == bare.as_str() || name == word.as_str())
}

/// Adds the name of a slot, if it says more than its number.
fn push_slot_name(
    alloc: Global,
    text: &mut Vec<u8>,
    season: &Season,
    slot: SlotId,
) -> Result<(), AllocError>
    requires { slot.0 < length season.now.names.now.slots }
    ensures { OnOk result (text.new.items ≡ text.old.items ++ grid.slot_line season.now.names.now slot.0) }
{
    let name = season.names.slot(slot);
    if is_number_alone(alloc, slot, name)? {
        return Ok(());
    }
    let number = slot.0;
    let line = format!(in alloc; "slot {number} is {name}\n")?;
    text.extend_from_slice(line.as_bytes())
}

/// Adds what is counted of a team.
fn push_tally(
    alloc: Global,
    text: &mut Vec<u8>,
    columns: Columns,
    season: &Season,
    team: TeamId,
) -> Result<(), AllocError>
    requires digits { columns.digits ≤ 2 }
    requires names { IsNames season.now.cells.now.n season.now.names.now }
    requires team { team.0 < season.now.cells.now.n }
    ensures { OnOk result (text.new.items
        ≡ text.old.items ++ grid.tally columns (season_of season.now) team.0) }
{
    let cells = season.cells;
    let mut line = Vec::new(alloc);
    push_head(alloc, &mut line, columns, season, team)?;
    push_number(alloc, &mut line, 9, home_first(cells, team))?;
    push_number(alloc, &mut line, 10, home_second(cells, team))?;
    push_number(alloc, &mut line, 8, breaks_in_all(cells, team))?;
    push_number(alloc, &mut line, 10, home_run(cells, team))?;
    push_number(alloc, &mut line, 10, away_run(cells, team))?;
    push_line(text, &line)
}

/// Adds the table below the grid.
fn push_tallies(
    alloc: Global,
    text: &mut Vec<u8>,
    columns: Columns,
    season: &Season,
) -> Result<(), AllocError>
    requires digits { columns.digits ≤ 2 }
    requires names { IsNames season.now.cells.now.n season.now.names.now }
    ensures { OnOk result (text.new.items
        ≡ text.old.items ++ grid.tallies columns (season_of season.now)) }
{
    text.extend_from_slice(b"team")?;
    push_spaces(text, columns.front.saturating_sub(4))?;
    text.extend_from_slice(b" home 1st  home 2nd  breaks  run home  run away\n")?;
    for number in 0..season.cells.n() {
        push_tally(alloc, text, columns, season, TeamId(number))?;
    }
    Ok(())
}

/// How many cells have room beside each other on a page of this width: at least one, and no more than a season has
/// slots.
fn room(columns: Columns, width: u32) -> u16
    requires digits { columns.digits ≤ 2 }
    ensures some { 0 < result }
    ensures most { result ≤ 78 }
    ensures value { result ≡ min (grid.room columns width) 78 }
{
    let left = (width as usize).saturating_sub(columns.front);
    (left / (columns.digits + 2)).max(1).min(78) as u16
}

/// Adds some blocks, one after another.
fn push_each_block(
    alloc: Global,
    text: &mut Vec<u8>,
    columns: Columns,
    season: &Season,
    blocks: &[Block],
) -> Result<(), AllocError>
    requires digits { columns.digits ≤ 2 }
    requires names { IsNames season.now.cells.now.n season.now.names.now }
    requires slots { All (λ block. block.first + block.slots ≤ slot_count season.now.cells.now.n) blocks.now }
    requires short { slot_count season.now.cells.now.n ≤ 78 }
    ensures { OnOk result (text.new.items
        ≡ text.old.items ++ flat_map (grid.block_text columns (season_of season.now)) blocks.now) }
{
    for block in blocks {
        push_block(alloc, text, columns, season, *block)?;
    }
    Ok(())
}

/// Adds the blocks of the grid.
fn push_blocks(
    alloc: Global,
    text: &mut Vec<u8>,
    columns: Columns,
    season: &Season,
    width: u32,
) -> Result<(), AllocError>
    requires digits { columns.digits ≤ 2 }
    requires names { IsNames season.now.cells.now.n season.now.names.now }
    ensures { OnOk result (text.new.items
        ≡ text.old.items ++ grid.blocks_text columns (season_of season.now) width) }
{
    let room = room(columns, width);
    let blocks = blocks_of(alloc, season.cells.n(), room)?;
    push_each_block(alloc, text, columns, season, &blocks)
}

/// Adds the names of slots that say more than their numbers.
fn push_slot_names(alloc: Global, text: &mut Vec<u8>, season: &Season) -> Result<(), AllocError>
    requires { IsNames season.now.cells.now.n season.now.names.now }
    ensures { OnOk result (text.new.items ≡ text.old.items ++ grid.slot_lines (season_of season.now)) }
{
    for number in 0..season.cells.slots() {
        push_slot_name(alloc, text, season, SlotId(number))?;
    }
    Ok(())
}

/// Adds the grid of a season in its columns, for a page of this width.
fn push_grid(
    alloc: Global,
    text: &mut Vec<u8>,
    columns: Columns,
    season: &Season,
    width: u32,
) -> Result<(), AllocError>
    requires digits { columns.digits ≤ 2 }
    requires names { IsNames season.now.cells.now.n season.now.names.now }
    ensures { OnOk result (text.new.items ≡ text.old.items
        ++ (grid.blocks_text columns (season_of season.now) width ++ (grid.legend season.now.phased
        ++ (grid.slot_lines (season_of season.now) ++ (codes "\n" ++ grid.tallies columns (season_of season.now)))))) }
{
    push_blocks(alloc, text, columns, season, width)?;
    push_legend(text, season.phased)?;
    push_slot_names(alloc, text, season)?;
    text.push(b'\n')?;
    push_tallies(alloc, text, columns, season)
}

/// A season as a grid for a page of this width: a line a team and a column a slot, in blocks of slots where not all have
/// room, then what its signs mean, the names of slots, and counts of each team.
///
/// # Errors
/// Only where memory runs out.
pub fn season_grid(alloc: Global, season: &Season, width: u32) -> Result<Vec<u8>, AllocError>
    requires { IsNames season.now.cells.now.n season.now.names.now }
    ensures { IfOk result (λ text. text.items ≡ grid.grid_text (season_of season.now) width) }
{
    let columns = columns_of(alloc, season)?;
    let mut text = Vec::new(alloc);
    push_grid(alloc, &mut text, columns, season, width)?;
    Ok(text)
}
