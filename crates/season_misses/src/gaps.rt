//! Reasons of SE1: two games of two teams with too few slots between them.
ghost use Rattle.std.specs.Prelude.{◌≡◌, ◌<◌, ◌++◌, OnOk};
ghost use Rattle.std.specs.List.{filter, flat_map};
ghost use Rattle.season_misses.specs.Counting.{counts_in_se1};
ghost use Rattle.season_misses.specs.Own.{IsSeason};
ghost use Rattle.season_misses.specs.Reasons as specs;

use crate::bounded::push_missed;
use crate::counted_games::mutual_games;
use crate::reason::{Cause, Reason};
use crate::season::Season;
use league::{Game, TeamId};
use std::alloc::AllocError;

/// Adds the reason of an entry by two games, the earlier first.
fn push_by_gap(
    key: usize,
    min: u32,
    earlier: Game,
    later: Game,
    reasons: &mut Vec<Reason>,
) -> Result<(), AllocError>
    ensures { OnOk result (reasons.new.items ≡ reasons.old.items ++ specs.by_gap key min (earlier, later)) }
{
    let apart = later.slot.0.saturating_sub(earlier.slot.0);
    let between = u32::from(apart.saturating_sub(1));
    let amount = u64::from(min.saturating_sub(between));
    push_missed(key, amount, Cause::Gap { earlier, later }, reasons)
}

/// Adds the reasons of an entry by the mutual games of two teams, each with the next one.
fn push_by_gaps(
    key: usize,
    min: u32,
    played: &[Game],
    reasons: &mut Vec<Reason>,
) -> Result<(), AllocError>
    ensures { OnOk result (reasons.new.items
        ≡ reasons.old.items ++ flat_map (specs.by_gap key min) (specs.neighbours played.now)) }
{
    let mut rest = played;
    while let [earlier, later, ..] = rest {
        push_by_gap(key, min, *earlier, *later, reasons)?;
        rest = &rest[1..];
    }
    Ok(())
}

/// Adds the reasons of an entry of SE1.
pub(crate) fn push_gaps(
    season: &Season<'_>,
    key: usize,
    pair: (TeamId, TeamId),
    min: u32,
    reasons: &mut Vec<Reason>,
) -> Result<(), AllocError>
    requires season { IsSeason season.now }
    requires team { pair.0.0 < season.now.cells.now.n }
    ensures { OnOk result (reasons.new.items ≡ reasons.old.items ++ flat_map (specs.by_gap key min)
        (specs.neighbours (filter (counts_in_se1 (pair.0.0, pair.1.0)) season.now.games.now))) }
{
    let mutual = mutual_games(*reasons.allocator(), season, pair.0, pair.1)?;
    push_by_gaps(key, min, mutual.games(), reasons)
}
