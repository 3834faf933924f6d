//! Reasons of the classes that bound numbers of games: CA1 to CA4 and GA1.
ghost use Rattle.std.specs.Prelude.{◌≡◌, ◌+◌, ◌-◌, ◌<◌, ◌≤◌, ◌++◌, [], length, slice_index_or, OnOk};
ghost use Rattle.std.specs.List.{filter, flat_map, range_with_len};
ghost use Rattle.league.specs.Deviation.{spans};
ghost use Rattle.season_misses.specs.Counting.{counts_in_ca3};
ghost use Rattle.season_misses.specs.Own.{IsSeason};
ghost use Rattle.season_misses.specs.Reasons.{by_games, by_window, where_missed};

use crate::counted_games::{games_against, games_that_pass};
use crate::game_test::GameTest;
use crate::reason::{Cause, GameList, Reason};
use crate::season::Season;
use crate::tests_of_games::Player;
use league::{SlotId, Span, TeamSet};
use rule_core::outside;
use std::alloc::AllocError;

/// An entry that is a number of games outside of two bounds, or the sum of such numbers.
#[derive(Clone, Copy)]
pub(crate) struct Entry {
    pub(crate) key: usize,
    pub(crate) min: u32,
    pub(crate) max: u32,
}

/// Adds a reason, where something is missed at all.
pub(crate) fn push_missed(
    key: usize,
    amount: u64,
    cause: Cause,
    reasons: &mut Vec<Reason>,
) -> Result<(), AllocError>
    ensures { OnOk result (reasons.new.items ≡ reasons.old.items ++ where_missed key amount cause) }
{
    if amount > 0 {
        reasons.push(Reason { key, amount, cause })?;
    }
    Ok(())
}

/// Adds the reason of an entry of CA1, CA2, CA4 or GA1, by the games that are counted.
pub(crate) fn push_by_games(
    entry: Entry,
    games: GameList,
    reasons: &mut Vec<Reason>,
) -> Result<(), AllocError>
    ensures { OnOk result (reasons.new.items ≡ reasons.old.items ++ by_games entry.key entry.min entry.max games) }
{
    let count = games.games().len() as u64;
    let amount = outside(entry.min, entry.max, count);
    push_missed(entry.key, amount, Cause::Games(games), reasons)
}

/// Adds the reason of an entry of CA3 in one window, by the games that are counted there.
fn push_by_window(
    entry: Entry,
    first: u16,
    games: GameList,
    reasons: &mut Vec<Reason>,
) -> Result<(), AllocError>
    ensures { OnOk result (reasons.new.items
        ≡ reasons.old.items ++ by_window entry.key entry.min entry.max first games) }
{
    let count = games.games().len() as u64;
    let amount = outside(entry.min, entry.max, count);
    let first = SlotId(first);
    push_missed(entry.key, amount, Cause::Window { first, games }, reasons)
}

/// The windows of `intp` slots in a row.
#[derive(Clone, Copy)]
pub(crate) struct Windows {
    pub(crate) intp: u32,
    /// How many there are. They begin with slot 0, 1 and so on.
    pub(crate) count: u16,
}

impl Windows {
    /// The windows of a season of so many slots: none where they are longer than the season.
    pub(crate) fn of(slots: u16, intp: u32) -> Windows
        requires { slots ≤ 78 }
        ensures intp { result.intp ≡ intp }
        ensures count { result.count ≡ slots + 1 - intp }
    {
        let count = if u32::from(slots) < intp {
            0
        } else {
            slots + 1 - intp as u16
        };
        Windows { intp, count }
    }
}

/// Adds the reasons of an entry of CA3, window by window.
pub(crate) fn push_by_windows(
    season: &Season<'_>,
    player: Player,
    others: &TeamSet,
    entry: Entry,
    windows: Windows,
    reasons: &mut Vec<Reason>,
) -> Result<(), AllocError>
    requires season { IsSeason season.now }
    requires team { player.team < season.now.cells.now.n }
    ensures { OnOk result (reasons.new.items ≡ reasons.old.items ++ flat_map
        (λ first. by_window entry.key entry.min entry.max first
        (filter (counts_in_ca3 others.now windows.intp player.side player.team first) season.now.games.now))
        (range_with_len 0 windows.count)) }
{
    let alloc = *reasons.allocator();
    let against = games_against(alloc, season, player, others)?;
    for first in 0..windows.count {
        let intp = windows.intp;
        let test = GameTest::Window { intp, first };
        let counted = games_that_pass(alloc, against.games(), &test)?;
        push_by_window(entry, first, counted, reasons)?;
    }
    Ok(())
}

/// The slots of an entry of CA4.
pub(crate) fn span_slots(span: Span, slots: &[u16], key: usize) -> &[u16]
    requires { key < length (spans span slots.now) }
    ensures { result.now ≡ slice_index_or (spans span slots.now) key [] }
{
    match span {
        Span::Global => slots,
        Span::Every => &slots[key..key + 1],
    }
}
