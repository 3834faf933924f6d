//! The law of the fewest breaks: in a stretch in which each two of some teams meet, all but two of them have a break.
ghost use Rattle.std.specs.Prelude.{◌<◌};
ghost use Rattle.std.specs.List.{All};
ghost use Rattle.break_counts.specs.Tables.{AreInSeason};

use crate::draft::Draft;
use crate::groups::Softened;
use break_counts::{Frame, Stretch, add_clique};
use std::alloc::{AllocError, Global};

/// Takes the rows of a soft BR1 or BR2, and those that say that all but two of its teams have a break in each of these
/// stretches, once for each unit of cost.
///
/// # Errors
/// Only where memory runs out.
pub(crate) fn add_breaks(
    alloc: Global,
    frame: Frame,
    draft: &mut Draft,
    softened: Softened,
    stretches: &[Stretch],
    teams: &[u16],
) -> Result<(), AllocError>
    requires season { AreInSeason frame.n stretches.now }
    requires teams { All (λ i. i < frame.n) teams.now }
{
    for row in softened.first..softened.end() {
        draft.summands.add(softened.penalty, row)?;
    }
    for stretch in stretches {
        let home = add_clique(alloc, &mut draft.writer, frame, *stretch, true, teams)?;
        let away = add_clique(alloc, &mut draft.writer, frame, *stretch, false, teams)?;
        draft.summands.add_all(softened.penalty, &[home, away])?;
    }
    Ok(())
}
