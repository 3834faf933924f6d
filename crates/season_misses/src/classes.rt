//! The reasons of a constraint of any class.
ghost use Rattle.std.specs.Prelude.{◌≡◌, ◌<◌, ◌++◌, length, slice_index, OnOk, IfOk, IsTrue};
ghost use Rattle.std.specs.List.{All, filter};
ghost use Rattle.league.specs.Counts.{counts_of};
ghost use Rattle.league.specs.Deviation.{vector_of};
ghost use Rattle.league.specs.Instance.{IsGame, class_fits};
ghost use Rattle.league.specs.Order.{IsInOrder};
ghost use Rattle.rule_core.specs.Ready as ready;
ghost use Rattle.season_misses.specs.CountedGames.{compares_teams, counts_breaks, counts_games_of_a_team};
ghost use Rattle.season_misses.specs.CountedGames.{counts_games_of_meetings, counts_in_windows};
ghost use Rattle.season_misses.specs.Laws.{AddUp, ListAllTouching, ListTouching};
ghost use Rattle.season_misses.specs.Own.{IsSeason};
ghost use Rattle.season_misses.specs.Reasons.{by_games, reasons_at, reasons_of};
ghost use Rattle.season_misses.specs.Tested.{passes};

use crate::bounded::{Entry, Windows, push_by_games, push_by_windows, span_slots};
use crate::breaks::{push_all_breaks, push_breaks, push_by_breaks};
use crate::counted_games::games_that_pass;
use crate::game_test::GameTest;
use crate::gaps::push_gaps;
use crate::leads::{PairAt, push_lead};
use crate::pairs::pair_at;
use crate::reason::Reason;
use crate::season::Season;
use crate::tests_of_games::Player;
use league::{Class, Side, TeamSet};
use std::alloc::{AllocError, Global};

/// Adds the reason of an entry, by the games of a season that pass a test.
fn push_by_test(
    season: &Season<'_>,
    test: &GameTest<'_>,
    entry: Entry,
    reasons: &mut Vec<Reason>,
) -> Result<(), AllocError>
    ensures { OnOk result (reasons.new.items ≡ reasons.old.items
        ++ by_games entry.key entry.min entry.max (filter (passes test.now) season.now.games.now)) }
{
    let counted = games_that_pass(*reasons.allocator(), season.games, test)?;
    push_by_games(entry, counted, reasons)
}

/// Adds the reasons at a key of CA1, CA2 or CA3.
fn push_of_team(
    class: &Class,
    season: &Season<'_>,
    key: usize,
    reasons: &mut Vec<Reason>,
) -> Result<(), AllocError>
    requires group { IsTrue (counts_games_of_a_team class.now) }
    requires fits { IsTrue (class_fits season.now.cells.now.n class.now) }
    requires season { IsSeason season.now }
    requires key { key < ready.entry_count class.now }
    ensures { OnOk result (reasons.new.items
        ≡ reasons.old.items ++ reasons_at season.now.cells.now.n season.now.games.now class.now key) }
{
    match class {
        Class::Ca1 {
            teams,
            min,
            max,
            side,
            slots,
        } => {
            let (min, max) = (*min, *max);
            let player = player_at(teams, key, *side);
            let slots = slots.numbers();
            let test = GameTest::Ca1 { player, slots };
            push_by_test(season, &test, Entry { key, min, max }, reasons)
        }
        Class::Ca2 {
            teams1,
            teams2,
            min,
            max,
            side,
            slots,
        } => {
            let (min, max) = (*min, *max);
            let player = player_at(teams1, key, *side);
            let test = GameTest::Ca2 {
                player,
                others: teams2,
                slots: slots.numbers(),
            };
            push_by_test(season, &test, Entry { key, min, max }, reasons)
        }
        Class::Ca3 { .. } => push_of_windows(class, season, key, reasons),
        _ => unreachable!(),
    }
}

/// Adds the reasons at a key of CA3.
fn push_of_windows(
    class: &Class,
    season: &Season<'_>,
    key: usize,
    reasons: &mut Vec<Reason>,
) -> Result<(), AllocError>
    requires group { IsTrue (counts_in_windows class.now) }
    requires fits { IsTrue (class_fits season.now.cells.now.n class.now) }
    requires season { IsSeason season.now }
    requires key { key < ready.entry_count class.now }
    ensures { OnOk result (reasons.new.items
        ≡ reasons.old.items ++ reasons_at season.now.cells.now.n season.now.games.now class.now key) }
{
    match class {
        Class::Ca3 {
            teams1,
            teams2,
            min,
            max,
            intp,
            side,
        } => {
            let (min, max) = (*min, *max);
            let entry = Entry { key, min, max };
            let player = player_at(teams1, key, *side);
            let windows = Windows::of(season.cells.slots(), *intp);
            push_by_windows(season, player, teams2, entry, windows, reasons)
        }
        _ => unreachable!(),
    }
}

/// The team of a key on a side.
fn player_at(teams: &TeamSet, key: usize, side: Side) -> Player
    requires { key < length teams.now }
    ensures team { result.team ≡ slice_index teams.now key }
    ensures side { result.side ≡ side }
{
    let team = teams.numbers()[key];
    Player { team, side }
}

/// Adds the reasons at a key of CA4 or GA1.
fn push_of_meetings(
    class: &Class,
    season: &Season<'_>,
    key: usize,
    reasons: &mut Vec<Reason>,
) -> Result<(), AllocError>
    requires group { IsTrue (counts_games_of_meetings class.now) }
    requires key { key < ready.entry_count class.now }
    ensures { OnOk result (reasons.new.items
        ≡ reasons.old.items ++ reasons_at season.now.cells.now.n season.now.games.now class.now key) }
{
    match class {
        Class::Ca4 {
            teams1,
            teams2,
            min,
            max,
            side,
            span,
            slots,
        } => {
            let (min, max) = (*min, *max);
            let slots = span_slots(*span, slots.numbers(), key);
            let test = GameTest::Ca4 {
                side: *side,
                teams1,
                teams2,
                slots,
            };
            push_by_test(season, &test, Entry { key, min, max }, reasons)
        }
        Class::Ga1 {
            meetings,
            min,
            max,
            slots,
        } => {
            let (min, max) = (*min, *max);
            let slots = slots.numbers();
            let test = GameTest::Ga1 { meetings, slots };
            push_by_test(season, &test, Entry { key, min, max }, reasons)
        }
        _ => unreachable!(),
    }
}

/// Adds the reasons at a key of BR1 or BR2.
fn push_of_breaks(
    class: &Class,
    season: &Season<'_>,
    key: usize,
    reasons: &mut Vec<Reason>,
) -> Result<(), AllocError>
    requires group { IsTrue (counts_breaks class.now) }
    requires fits { IsTrue (class_fits season.now.cells.now.n class.now) }
    requires key { key < ready.entry_count class.now }
    requires season { IsSeason season.now }
    ensures { OnOk result (reasons.new.items
        ≡ reasons.old.items ++ reasons_at season.now.cells.now.n season.now.games.now class.now key) }
{
    let mut found = Vec::new(*reasons.allocator());
    match class {
        Class::Br1 {
            teams,
            intp,
            side,
            slots,
        } => {
            let player = player_at(teams, key, *side);
            push_breaks(season, player, slots.numbers(), &mut found)?;
            push_by_breaks(key, *intp, found, reasons)
        }
        Class::Br2 { teams, intp, slots } => {
            let teams = teams.numbers();
            push_all_breaks(season, teams, slots.numbers(), &mut found)?;
            push_by_breaks(key, *intp, found, reasons)
        }
        _ => unreachable!(),
    }
}

/// Adds the reasons at a key of FA2 or SE1.
fn push_of_pair(
    class: &Class,
    season: &Season<'_>,
    key: usize,
    reasons: &mut Vec<Reason>,
) -> Result<(), AllocError>
    requires group { IsTrue (compares_teams class.now) }
    requires fits { IsTrue (class_fits season.now.cells.now.n class.now) }
    requires key { key < ready.entry_count class.now }
    requires season { IsSeason season.now }
    ensures { OnOk result (reasons.new.items
        ≡ reasons.old.items ++ reasons_at season.now.cells.now.n season.now.games.now class.now key) }
{
    match class {
        Class::Fa2 { teams, intp, slots } => {
            let (first, second) = pair_at(teams, key);
            let pair = PairAt { key, first, second };
            push_lead(season, pair, *intp, slots.numbers(), reasons)
        }
        Class::Se1 { teams, min } => push_gaps(season, key, pair_at(teams, key), *min, reasons),
        _ => unreachable!(),
    }
}

/// Adds the reasons at a key.
fn push_at(
    class: &Class,
    season: &Season<'_>,
    key: usize,
    reasons: &mut Vec<Reason>,
) -> Result<(), AllocError>
    requires fits { IsTrue (class_fits season.now.cells.now.n class.now) }
    requires key { key < ready.entry_count class.now }
    requires season { IsSeason season.now }
    ensures { OnOk result (reasons.new.items
        ≡ reasons.old.items ++ reasons_at season.now.cells.now.n season.now.games.now class.now key) }
{
    match class {
        Class::Ca1 { .. } | Class::Ca2 { .. } | Class::Ca3 { .. } => {
            push_of_team(class, season, key, reasons)
        }
        Class::Ca4 { .. } | Class::Ga1 { .. } => push_of_meetings(class, season, key, reasons),
        Class::Br1 { .. } | Class::Br2 { .. } => push_of_breaks(class, season, key, reasons),
        Class::Fa2 { .. } | Class::Se1 { .. } => push_of_pair(class, season, key, reasons),
    }
}

/// Why a constraint is missed by a season of its league, of which these are the entries: the reasons of those that
/// aren't 0, in the order of their keys. The games are in order, and so are those of each reason. At each key the
/// amounts add up to the entry, and each game that is listed can change it.
///
/// # Errors
/// Only where memory runs out.
pub fn reasons(
    alloc: Global,
    class: &Class,
    season: &Season<'_>,
    entries: &[u64],
) -> Result<Vec<Reason>, AllocError>
    requires fits { IsTrue (class_fits season.now.cells.now.n class.now) }
    requires fit { All (IsGame season.now.cells.now.n) season.now.games.now }
    requires in_order { IsInOrder season.now.games.now }
    requires season { IsSeason season.now }
    requires entries { entries.now ≡ vector_of season.now.cells.now.n (counts_of season.now.games.now) class.now }
    ensures reasons { IfOk result (λ reasons. reasons.items
        ≡ reasons_of season.now.cells.now.n season.now.games.now class.now) }
    ensures amounts { AddUp season.now.cells.now.n season.now.games.now class.now }
    ensures touching { ListTouching season.now.cells.now.n season.now.games.now class.now }
    ensures all_touching { ListAllTouching season.now.cells.now.n season.now.games.now class.now }
{
    let mut reasons = Vec::new(alloc);
    for (key, entry) in entries.iter().enumerate() {
        if *entry > 0 {
            push_at(class, season, key, &mut reasons)?;
        }
    }
    Ok(reasons)
}
