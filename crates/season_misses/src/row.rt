//! Reasons that are told in one line.
ghost use Rattle.std.specs.Prelude.{◌≡◌, ◌≤◌, ◌++◌, ◌∷◌, IfOk, length, map};
ghost use Rattle.season_misses.specs.Rows as rows;
ghost use Rattle.season_misses.specs.SeenRow.{row_of};

use crate::reason::{Cause, Reason};
use league::Game;
use std::alloc::{AllocError, Global};

/// A reason, and how many of those behind it go on from it.
#[derive(Clone, Copy)]
pub(crate) struct Row<'a> {
    pub(crate) reason: &'a Reason,
    pub(crate) more: usize,
}

/// Whether two games are the same.
fn is_same_game(game: Game, other: Game) -> bool
    ensures { result ≡ rows.is_same_game game other }
{
    game.home.0 == other.home.0 && game.away.0 == other.away.0 && game.slot.0 == other.slot.0
}

/// Whether two lists have the same games.
fn are_same_games(games: &[Game], others: &[Game]) -> bool
    ensures { result ≡ rows.are_same_games games.now others.now }
{
    if games.len() != others.len() {
        return false;
    }
    for (k, game) in games.iter().enumerate() {
        if !is_same_game(*game, others[k]) {
            return false;
        }
    }
    true
}

/// Whether a cause is the next window, with the same games.
fn is_next_window(before: &Cause, next: &Cause) -> bool
    ensures { result ≡ rows.is_next_window before.now next.now }
{
    match (before, next) {
        (
            Cause::Window { first, games },
            Cause::Window {
                first: second,
                games: others,
            },
        ) => {
            u32::from(first.0) + 1 == u32::from(second.0)
                && are_same_games(games.games(), others.games())
        }
        _ => false,
    }
}

/// Whether a reason goes on from the one before it.
fn goes_on(before: &Reason, reason: &Reason) -> bool
    ensures { result ≡ rows.goes_on before.now reason.now }
{
    before.key == reason.key && is_next_window(&before.cause, &reason.cause)
}

/// How many of the reasons behind one go on from it.
fn more_windows(first: &Reason, others: &[Reason]) -> usize
    ensures value { result ≡ rows.more_windows first.now others.now }
    ensures within { result ≤ length others.now }
{
    let mut before = first;
    for (k, reason) in others.iter().enumerate() {
        if !goes_on(before, reason) {
            return k;
        }
        before = reason;
    }
    others.len()
}

/// Adds the row of a reason before others, unless it was told with those before it, as so many of the next are. Gives how
/// many of the others are told then.
fn push_row<'a>(
    made: &mut Vec<Row<'a>>,
    told: usize,
    reason: &'a Reason,
    others: &[Reason],
) -> Result<usize, AllocError>
    ensures { IfOk result (λ next. map row_of made.new.items ++ rows.rows_from next others.now
        ≡ map row_of made.old.items ++ rows.rows_from told (reason.now ∷ others.now)) }
{
    if told > 0 {
        return Ok(told - 1);
    }
    let more = more_windows(reason, others);
    made.push(Row { reason, more })?;
    Ok(more)
}

/// The rows of reasons.
pub(crate) fn rows_of(alloc: Global, reasons: &[Reason]) -> Result<Vec<Row<'_>>, AllocError>
    ensures { IfOk result (λ made. map row_of made.items ≡ rows.rows_of reasons.now) }
{
    let mut made = Vec::new(alloc);
    let mut told = 0;
    for (k, reason) in reasons.iter().enumerate() {
        told = push_row(&mut made, told, reason, &reasons[k + 1..])?;
    }
    Ok(made)
}
