//! The text of a solution file.
ghost use Rattle.std.specs.Prelude.{◌≡◌, ◌≤◌, ◌++◌, ℕ, length, IfOk, OnOk, Ok};
ghost use Rattle.std.specs.List.{All, flat_map};
ghost use Rattle.league.specs.Instance.{IsGame};
ghost use Rattle.robinx.specs.Pieces.{pieces};
ghost use Rattle.robinx.specs.SolutionFile.{solution_of};
ghost use Rattle.robinx.specs.Texts.{game_line, score_text, solution_text as text_of};

use crate::write_tag::{NamedValue, Value, put_tag};
use league::{Game, Schedule};
use std::alloc::{AllocError, Global};

/// Adds the line of a game.
fn put_game(text: &mut Vec<u8>, game: &Game) -> Result<(), AllocError>
    ensures { OnOk result (text.new.items ≡ text.old.items ++ game_line game.now) }
{
    let attributes = [
        NamedValue("home", Value::Count(u128::from(game.home.0))),
        NamedValue("away", Value::Count(u128::from(game.away.0))),
        NamedValue("slot", Value::Count(u128::from(game.slot.0))),
    ];
    put_tag(text, "ScheduledMatch", &attributes)
}

/// Adds the infeasibility and the objective, if there are any.
fn put_score(text: &mut Vec<u8>, score: Option<(u128, u128)>) -> Result<(), AllocError>
    ensures { OnOk result (text.new.items ≡ text.old.items ++ score_text score) }
{
    let Some((infeasibility, objective)) = score else {
        return Ok(());
    };
    text.extend_from_slice(b"<MetaData>\n")?;
    let attributes = [
        NamedValue("infeasibility", Value::Count(infeasibility)),
        NamedValue("objective", Value::Count(objective)),
    ];
    put_tag(text, "ObjectiveValue", &attributes)?;
    text.extend_from_slice(b"</MetaData>\n")?;
    Ok(())
}

/// Adds the lines of games, in their order.
fn put_games(text: &mut Vec<u8>, games: &[Game]) -> Result<(), AllocError>
    ensures { OnOk result (text.new.items ≡ text.old.items ++ flat_map game_line games.now) }
{
    for game in games {
        put_game(text, game)?;
    }
    Ok(())
}

/// The text of a solution file with these games, in their order, and with its infeasibility and objective where they
/// are given.
///
/// # Errors
/// Only where memory runs out.
pub fn solution_text(
    alloc: Global,
    schedule: &Schedule,
    score: Option<(u128, u128)>,
) -> Result<Vec<u8>, AllocError>
    ensures text { IfOk result (λ text. text.items ≡ text_of schedule.now score) }

    // What is written of games that fit a league of n teams reads back as these games.
    ensures reads_back { IfOk result (λ text.
        (n : ℕ) → n ≤ 40 → All (IsGame n) schedule.now → length schedule.now ≤ 10000
        → solution_of n (pieces text.items) ≡ Ok schedule.now) }
{
    let mut text = Vec::new(alloc);
    text.extend_from_slice(b"<?xml version=\"1.0\" encoding=\"UTF-8\"?>\n<Solution>\n")?;
    put_score(&mut text, score)?;
    text.extend_from_slice(b"<Games>\n")?;
    put_games(&mut text, schedule.games())?;
    text.extend_from_slice(b"</Games>\n</Solution>\n")?;
    Ok(text)
}
