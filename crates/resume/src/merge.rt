//! The games of one schedule in the first slots, and those of another from there on.
ghost use Rattle.std.specs.Prelude.{◌≡◌, ◌++◌, IfOk, OnOk};
ghost use Rattle.std.specs.List.{flat_map};
ghost use Rattle.std.specs.List.Sorted.{IsPermutation};
ghost use Rattle.league.specs.Order.{IsInOrder};
ghost use Rattle.resume.specs.Merged.{game_before, game_from, merged_games};

use league::{Game, Schedule};
use std::alloc::{AllocError, Global};

/// The games of one schedule below slot k and those of another from slot k on, in order.
///
/// # Errors
/// Only where memory runs out.
pub(crate) fn merged(
    alloc: Global,
    first: &Schedule,
    second: &Schedule,
    k: u16,
) -> Result<Schedule, AllocError>
    ensures games { IfOk result (λ merged. IsPermutation (merged_games k first.now second.now) merged) }
    ensures in_order { IfOk result IsInOrder }
{
    let mut games = Schedule::new(alloc);
    add_all_before(&mut games, first.games(), k)?;
    add_all_from(&mut games, second.games(), k)?;
    games.put_in_order();
    Ok(games)
}

/// Adds the ones of some games that take place before slot k.
///
/// # Errors
/// Only where memory runs out.
fn add_all_before(merged: &mut Schedule, games: &[Game], k: u16) -> Result<(), AllocError>
    ensures { OnOk result (merged.new ≡ merged.old ++ flat_map (game_before k) games.now) }
{
    for game in games {
        add_before(merged, *game, k)?;
    }
    Ok(())
}

/// Adds the ones of some games that take place from slot k on.
///
/// # Errors
/// Only where memory runs out.
fn add_all_from(merged: &mut Schedule, games: &[Game], k: u16) -> Result<(), AllocError>
    ensures { OnOk result (merged.new ≡ merged.old ++ flat_map (game_from k) games.now) }
{
    for game in games {
        add_from(merged, *game, k)?;
    }
    Ok(())
}

/// Adds a game that takes place before slot k.
///
/// # Errors
/// Only where memory runs out.
fn add_before(games: &mut Schedule, game: Game, k: u16) -> Result<(), AllocError>
    ensures { OnOk result (games.new ≡ games.old ++ game_before k game) }
{
    if game.slot.0 < k {
        games.push(game)?;
    }
    Ok(())
}

/// Adds a game that takes place from slot k on.
///
/// # Errors
/// Only where memory runs out.
fn add_from(games: &mut Schedule, game: Game, k: u16) -> Result<(), AllocError>
    ensures { OnOk result (games.new ≡ games.old ++ game_from k game) }
{
    if game.slot.0 >= k {
        games.push(game)?;
    }
    Ok(())
}
