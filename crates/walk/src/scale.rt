//! By how much a usual move changes the objective: the scale of temperatures and weights.
ghost use Rattle.std.specs.Prelude.{◌≡◌};

use crate::draws::home_swap;
use crate::lists::middle_of;
use crate::weighed::WeighedParts;
use moves::{Board, Edit, edit_of};
use rand_pcg::Pcg32;
use std::alloc::{AllocError, Global};

/// So many moves are looked at.
const LOOKS: usize = 256;

/// The median of how much the parts weigh more or less after drawn moves of two teams' venues, of those that change it; 1
/// where none does. No move is made.
///
/// # Errors
/// Only where memory runs out.
pub(crate) fn usual_change(
    alloc: Global,
    random: &mut Pcg32,
    board: &Board,
    parts: &mut WeighedParts,
) -> Result<u64, AllocError> {
    let mut edit = Edit::new(alloc, board.n())?;
    let mut changes = Vec::new(alloc);
    draw_changes(random, board, &mut edit, parts, &mut changes)?;
    Ok(middle_of(&mut changes).unwrap_or(1))
}

/// Adds how much more or less the parts weigh after each drawn move that changes it.
///
/// # Errors
/// Only where memory runs out.
fn draw_changes(
    random: &mut Pcg32,
    board: &Board,
    edit: &mut Edit,
    parts: &mut WeighedParts,
    changes: &mut Vec<u64>,
) -> Result<(), AllocError>
    requires edit { edit.old.n ≡ board.now.n }
{
    'looks: for _look in 0..LOOKS {
        let change = change_of_move(random, board, edit, parts);
        if change > 0 {
            changes.push(change)?;
        }
    }
    Ok(())
}

/// How much more or less the parts would weigh after a drawn move of two teams' venues.
fn change_of_move(
    random: &mut Pcg32,
    board: &Board,
    edit: &mut Edit,
    parts: &mut WeighedParts,
) -> u64
    requires edit { edit.old.n ≡ board.now.n }
    ensures edit { edit.new.n ≡ edit.old.n }
{
    let step = home_swap(random, board.n());
    if !edit_of(&step, board, edit) {
        return 0;
    }
    let before = parts.sum();
    before.abs_diff(parts.weigh_edit(edit))
}
