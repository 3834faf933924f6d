//! Moves in words, and what is of a league.
ghost use Rattle.std.specs.Prelude.{◌≡◌, true};
ghost use Rattle.league.specs.Instance.{IsGame, IsTeamCount};
ghost use Rattle.moves.specs.Moves.{IsOfLeague};

use crate::telling::number_in;
use league::{Game, SlotId, TeamId, slot_count};
use moves::Swap;

/// The place that words begin with, 0 where there is none, and what stands behind the space after it.
fn place_in(words: &str) -> (u16, &str) {
    let (number, rest) = number_in(words);
    (u16::try_from(number).unwrap_or(0), rest)
}

/// The move of such words, as `HomeSwap 0 3`: a `HomeSwap` where no other kind is named.
pub fn step_of(words: &str) -> Swap {
    let (kind, rest) = words.split_once(' ').unwrap_or((words, ""));
    let (first, rest) = place_in(rest);
    let (second, rest) = place_in(rest);
    let (third, _) = place_in(rest);
    let (i, j) = (TeamId(first), TeamId(second));
    let (s, t) = (SlotId(second), SlotId(third));
    match kind {
        "RoundSwap" => Swap::RoundSwap {
            s: SlotId(first),
            t: s,
        },
        "TeamSwap" => Swap::TeamSwap { i, j },
        "PartRoundSwap" => Swap::PartRoundSwap { i, s, t },
        "PartTeamSwap" => Swap::PartTeamSwap { i, j, s: t },
        _ => Swap::HomeSwap { i, j },
    }
}

/// Whether a move is one of the teams and slots of a league of n teams.
pub fn is_of_league(n: u16, step: Swap) -> bool
    requires { IsTeamCount n }
    ensures { result ≡ true → IsOfLeague n step }
{
    let slots = slot_count(n);
    match step {
        Swap::HomeSwap { i, j } => i.0 < n && j.0 < n,
        Swap::RoundSwap { s, t } => s.0 < slots && t.0 < slots,
        Swap::TeamSwap { i, j } => i.0 < n && j.0 < n,
        Swap::PartRoundSwap { i, s, t } => i.0 < n && s.0 < slots && t.0 < slots,
        Swap::PartTeamSwap { i, j, s } => i.0 < n && j.0 < n && s.0 < slots,
    }
}

/// Whether a game is one of a league of n teams.
pub fn is_game(n: u16, game: Game) -> bool
    requires { IsTeamCount n }
    ensures { result ≡ true → IsGame n game }
{
    game.home.0 < n && game.away.0 < n && game.home.0 != game.away.0 && game.slot.0 < slot_count(n)
}
