//! The line of each class.
ghost use Rattle.std.specs.Prelude.{◌≡◌, ℕ, ◌≤◌, slice_index, IfOk, IsTrue, string_bytes};
ghost use Rattle.league.specs.Instance.{class_fits};
ghost use Rattle.season_misses.specs.CountedGames.{counts_games_of_a_team, counts_games_of_meetings};
ghost use Rattle.season_misses.specs.Lines as lines;
ghost use Rattle.season_misses.specs.SeenRow.{row_of};

use crate::amounts::{Beyond, Count, Runs, There, stretch_text};
use crate::apart::{gap_text, lead_text};
use crate::break_lines::{all_breaks_line, breaks_line, breaks_told};
use crate::game_words::{games_after, name_at};
use crate::label::Label;
use crate::pairs::pair_at;
use crate::reason::Cause;
use crate::row::Row;
use league::{Bounds, Class, Game, Span};
use std::alloc::{AllocError, Global};

/// The number at a place; 0 where there is none.
fn number_at(numbers: &[u16], place: usize) -> u16
    ensures { result ≡ slice_index numbers.now place }
{
    match numbers.get(place) {
        Some(number) => *number,
        None => 0,
    }
}

/// The games that a cause lists because their number is out of bounds; none if it lists no such games.
fn games_told(cause: &Cause) -> &[Game]
    ensures { result.now ≡ lines.games_told cause.now }
{
    match cause {
        Cause::Games(games) => games.games(),
        Cause::Window { games, .. } => games.games(),
        _ => &[],
    }
}

/// The first slot of a cause that is a window; 0 if the cause is another.
fn slot_told(cause: &Cause) -> u16
    ensures { result ≡ lines.slot_told cause.now }
{
    match cause {
        Cause::Window { first, .. } => first.0,
        _ => 0,
    }
}

/// The line that a team has so many games, outside of two bounds.
fn has_line(
    alloc: Global,
    names: &[Label],
    who: &str,
    bounds: Bounds,
    games: &[Game],
) -> Result<String, AllocError>
    ensures { IfOk result (λ text. string_bytes text
        ≡ lines.has_line names.now who.now bounds.min bounds.max games.now) }
{
    let count = games.len() as u64;
    let beyond = Beyond { bounds, count };
    let count = Count(count);
    let after = games_after(alloc, names, games)?;
    format!(in alloc; "{who} has {count}, {beyond}{after}")
}

/// Windows of a CA3 that hold the same games, in a league of n teams.
struct Windows<'a> {
    n: u16,
    intp: u32,
    row: Row<'a>,
}

/// The line that a team has so many games in a window, or in each of several windows that follow each other.
fn window_line(
    alloc: Global,
    names: &[Label],
    who: &str,
    bounds: Bounds,
    windows: Windows<'_>,
) -> Result<String, AllocError>
    requires { windows.n ≤ 40 }
    ensures { IfOk result (λ text. string_bytes text
        ≡ lines.window_line windows.entry.n names.now who.now bounds.min bounds.max windows.entry.intp
        (row_of windows.entry.row)) }
{
    let Windows { n, intp, row } = windows;
    let games = games_told(&row.reason.cause);
    let count = games.len() as u64;
    let beyond = Beyond { bounds, count };
    let count = Count(count);
    let more = row.more;
    let runs = Runs { more, intp };
    let slots = more as u128 + u128::from(intp);
    let stretch = stretch_text(alloc, n, slot_told(&row.reason.cause), slots)?;
    let after = games_after(alloc, names, games)?;
    format!(in alloc; "{who} has {count} in {stretch}, {beyond}{runs}{after}")
}

/// The words that name the slot of an entry of a CA4 that bounds each slot by itself; nothing for any other CA4.
fn span_place(alloc: Global, span: Span, slots: &[u16], key: usize) -> Result<String, AllocError>
    ensures { IfOk result (λ text. string_bytes text ≡ lines.span_place span slots.now key) }
{
    match span {
        Span::Global => Ok(String::new(alloc)),
        Span::Every => {
            let slot = number_at(slots, key);
            format!(in alloc; " in slot {slot}")
        }
    }
}

/// The line that there are so many games, outside of two bounds.
fn there_line(
    alloc: Global,
    names: &[Label],
    bounds: Bounds,
    place: &str,
    games: &[Game],
) -> Result<String, AllocError>
    ensures { IfOk result (λ text. string_bytes text
        ≡ lines.there_line names.now bounds.min bounds.max place.now games.now) }
{
    let count = games.len() as u64;
    let beyond = Beyond { bounds, count };
    let there = There(count);
    let after = games_after(alloc, names, games)?;
    format!(in alloc; "{there}{place}, {beyond}{after}")
}

/// The line of a CA1, CA2 or CA3.
fn team_line(
    alloc: Global,
    n: u16,
    names: &[Label],
    class: &Class,
    row: Row<'_>,
) -> Result<String, AllocError>
    requires few { n ≤ 40 }
    requires group { IsTrue (counts_games_of_a_team class.now) }
    ensures { IfOk result (λ text. string_bytes text ≡ lines.line_of n names.now class.now (row_of row.entry)) }
{
    let key = row.reason.key;
    match class {
        Class::Ca1 {
            teams,
            min,
            max,
            ..
        }
        | Class::Ca2 {
            teams1: teams,
            min,
            max,
            ..
        } => {
            let (min, max) = (*min, *max);
            let who = name_at(names, number_at(teams.numbers(), key));
            let games = games_told(&row.reason.cause);
            has_line(alloc, names, who, Bounds { min, max }, games)
        }
        Class::Ca3 {
            teams1,
            min,
            max,
            intp,
            ..
        } => {
            let (min, max, intp) = (*min, *max, *intp);
            let who = name_at(names, number_at(teams1.numbers(), key));
            let windows = Windows { n, intp, row };
            window_line(alloc, names, who, Bounds { min, max }, windows)
        }
        _ => unreachable!(),
    }
}

/// The line of a CA4 or GA1.
fn meetings_line(
    alloc: Global,
    names: &[Label],
    class: &Class,
    row: Row<'_>,
) -> Result<String, AllocError>
    requires { IsTrue (counts_games_of_meetings class.now) }
    ensures { (n : ℕ) → IfOk result (λ text. string_bytes text
        ≡ lines.line_of n names.now class.now (row_of row.entry)) }
{
    let games = games_told(&row.reason.cause);
    match class {
        Class::Ca4 {
            min,
            max,
            span,
            slots,
            ..
        } => {
            let (min, max) = (*min, *max);
            let place = span_place(alloc, *span, slots.numbers(), row.reason.key)?;
            there_line(alloc, names, Bounds { min, max }, &place, games)
        }
        Class::Ga1 { min, max, .. } => {
            let (min, max) = (*min, *max);
            there_line(alloc, names, Bounds { min, max }, "", games)
        }
        _ => unreachable!(),
    }
}

/// The line of a row, in a league of n teams.
pub(crate) fn line_of(
    alloc: Global,
    n: u16,
    names: &[Label],
    class: &Class,
    row: Row<'_>,
) -> Result<String, AllocError>
    requires few { n ≤ 40 }
    requires fits { IsTrue (class_fits n class.now) }
    ensures { IfOk result (λ text. string_bytes text ≡ lines.line_of n names.now class.now (row_of row.entry)) }
{
    let reason = row.reason;
    match class {
        Class::Br1 { teams, intp, .. } => {
            let who = name_at(names, number_at(teams.numbers(), reason.key));
            breaks_line(alloc, names, who, *intp, breaks_told(&reason.cause))
        }
        Class::Br2 { intp, .. } => all_breaks_line(alloc, *intp, breaks_told(&reason.cause)),
        Class::Fa2 { teams, intp, .. } => {
            let pair = pair_at(teams, reason.key);
            let who = name_at(names, pair.0.0);
            let other = name_at(names, pair.1.0);
            lead_text(alloc, *intp, who, other, &reason.cause)
        }
        Class::Se1 { teams, min } => {
            let pair = pair_at(teams, reason.key);
            let who = name_at(names, pair.0.0);
            let other = name_at(names, pair.1.0);
            gap_text(alloc, names, *min, who, other, &reason.cause)
        }
        Class::Ca4 { .. } | Class::Ga1 { .. } => meetings_line(alloc, names, class, row),
        _ => team_line(alloc, n, names, class, row),
    }
}
