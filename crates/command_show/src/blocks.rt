//! The slots of a season cut into blocks.
ghost use Rattle.std.specs.Prelude.{◌≡◌, ◌<◌, ◌≤◌, ◌+◌, ◌^◌, ◌++◌, IfOk, OnOk};
ghost use Rattle.league.specs.Instance.{IsTeamCount};
ghost use Rattle.command_show.specs.Blocks as blocks;

use league::slot_count;
use std::alloc::{AllocError, Global};

/// A block: a number of slots in a row, from one on.
#[derive(Clone, Copy)]
pub(crate) struct Block {
    pub first: u16,
    pub slots: u16,
}

/// How many parts of at most so many make up the whole.
fn parts_of(whole: u16, most: u16) -> u16
    requires some { 0 < most }
    requires small { whole + most < 2 ^ 16 }
    ensures { result ≡ blocks.parts_of whole most }
{
    (whole + most - 1) / most
}

/// Adds as few blocks of one width as it takes, of which the last may be narrower.
fn push_cut(found: &mut Vec<Block>, first: u16, slots: u16, room: u16) -> Result<(), AllocError>
    requires first { first ≤ 39 }
    requires slots { slots ≤ 39 }
    requires some { 0 < slots }
    requires room { 0 < room }
    requires less { room ≤ 78 }
    ensures { OnOk result (found.new.items ≡ found.old.items ++ blocks.cut first slots room) }
{
    let count = parts_of(slots, room);
    let width = parts_of(slots, count);
    for place in 0..count {
        let before = place * width;
        let left = slots - before;
        found.push(Block {
            first: first + before,
            slots: width.min(left),
        })?;
    }
    Ok(())
}

/// The blocks of a season of n teams, where so many slots have room beside each other.
pub(crate) fn blocks_of(alloc: Global, n: u16, room: u16) -> Result<Vec<Block>, AllocError>
    requires teams { IsTeamCount n }
    requires room { 0 < room }
    ensures { IfOk result (λ found. found.items ≡ blocks.blocks_of n room) }
{
    let mut found = Vec::new(alloc);
    let slots = slot_count(n);
    if slots <= room {
        found.push(Block { first: 0, slots })?;
        return Ok(found);
    }
    push_cut(&mut found, 0, n - 1, room)?;
    push_cut(&mut found, n - 1, n - 1, room)?;
    Ok(found)
}
