//! Games in words.
ghost use Rattle.std.specs.Prelude.{◌≡◌, ◌++◌, IfOk, OnOk, string_bytes};
ghost use Rattle.std.specs.List.{flat_map};
ghost use Rattle.season_misses.specs.Phrases as phrases;
ghost use Rattle.season_misses.specs.Games as games;

use crate::label::Label;
use league::Game;
use std::alloc::{AllocError, Global};

/// The name of a team; empty where there is no such team.
pub(crate) fn name_at(names: &[Label], team: u16) -> &str
    ensures { result.now ≡ phrases.name_of names.now team }
{
    match names.get(usize::from(team)) {
        Some(name) => name.text(),
        None => "",
    }
}

/// A game with its slot.
fn game_text(alloc: Global, names: &[Label], game: Game) -> Result<String, AllocError>
    ensures { IfOk result (λ text. string_bytes text ≡ games.game_text names.now game) }
{
    let home = name_at(names, game.home.0);
    let away = name_at(names, game.away.0);
    let slot = game.slot.0;
    format!(in alloc; "{home} - {away} ({slot})")
}

/// Adds a game after another.
fn push_next(text: &mut String, names: &[Label], game: Game) -> Result<(), AllocError>
    ensures { OnOk result (string_bytes text.new ≡ string_bytes text.old ++ games.next_game names.now game) }
{
    let home = name_at(names, game.home.0);
    let away = name_at(names, game.away.0);
    let slot = game.slot.0;
    write!(text, ", {home} - {away} ({slot})")
}

/// Adds games, each after another.
fn push_others(text: &mut String, names: &[Label], others: &[Game]) -> Result<(), AllocError>
    ensures { OnOk result (string_bytes text.new
        ≡ string_bytes text.old ++ flat_map (games.next_game names.now) others.now) }
{
    for game in others {
        push_next(text, names, *game)?;
    }
    Ok(())
}

/// Games in a row.
pub(crate) fn games_text(
    alloc: Global,
    names: &[Label],
    list: &[Game],
) -> Result<String, AllocError>
    ensures { IfOk result (λ text. string_bytes text ≡ games.games_text names.now list.now) }
{
    match list {
        [] => Ok(String::new(alloc)),
        [first, others @ ..] => {
            let mut text = game_text(alloc, names, *first)?;
            push_others(&mut text, names, others)?;
            Ok(text)
        }
    }
}

/// Games in a row behind a colon, where there are any.
pub(crate) fn games_after(
    alloc: Global,
    names: &[Label],
    list: &[Game],
) -> Result<String, AllocError>
    ensures { IfOk result (λ text. string_bytes text ≡ games.games_after names.now list.now) }
{
    if list.is_empty() {
        return Ok(String::new(alloc));
    }
    let text = games_text(alloc, names, list)?;
    format!(in alloc; ": {text}")
}
