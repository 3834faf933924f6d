//! The circle method. It goes back to Kirkman (1847), and the venues with few breaks to de Werra (1981).
ghost use Rattle.std.specs.Prelude.{true, ◌≡◌, ◌<◌, ◌≤◌, ◌-◌, ◌*◌, ◌/◌, ◌++◌, length, OnOk, IfOk};
ghost use Rattle.circle_method.specs.Breaks.{HasFewBreaks};
ghost use Rattle.circle_method.specs.Circle.{game_of, last_team_game, circle_game, slot_games, single_games};
ghost use Rattle.circle_method.specs.Circle.{return_game, double_games};
ghost use Rattle.circle_method.specs.SingleRoundRobin.{IsSingleRoundRobin};
ghost use Rattle.std.specs.List.{All};
ghost use Rattle.league.specs.Breaks.{all_breaks};
ghost use Rattle.league.specs.Counts.{counts_of, teams_of};
ghost use Rattle.league.specs.Instance.{IsGame, IsTeamCount};
ghost use Rattle.league.specs.Structure.{IsRoundRobin, first_half};

use league::{Game, Schedule, SlotId, TeamId};
use std::alloc::{AllocError, Global};

/// The game of two teams, the first of them at home or away.
fn game(at_home: bool, i: u16, j: u16, slot: u16) -> Game
    ensures { result ≡ game_of at_home i j slot }
{
    let (home, away) = if at_home { (i, j) } else { (j, i) };
    Game {
        home: TeamId(home),
        away: TeamId(away),
        slot: SlotId(slot),
    }
}

/// The last team's game in a slot.
fn last_team_pair(n: u16, slot: u16) -> Game
    requires some { 0 < n }
    ensures { result ≡ last_team_game n slot }
{
    game(slot % 2 == 0, n - 1, slot, slot)
}

/// The game of the teams k steps on and k steps back from the slot's team.
fn circle_pair(n: u16, slot: u16, k: u16) -> Game
    requires few { n ≤ 40 }
    requires in_half { slot < n - 1 }
    requires on_circle { k < n - 1 }
    ensures { result ≡ circle_game n slot k }
{
    let teams = n - 1;
    let on = (slot + k) % teams;
    let back = (slot + teams - k) % teams;
    game(k % 2 == 1, on, back, slot)
}

/// Adds the games of a slot.
fn add_slot(schedule: &mut Schedule, n: u16, slot: u16) -> Result<(), AllocError>
    requires few { n ≤ 40 }
    requires in_half { slot < n - 1 }
    ensures { OnOk result (schedule.new ≡ schedule.old ++ slot_games n slot) }
{
    schedule.push(last_team_pair(n, slot))?;
    for k in 1..n / 2 {
        schedule.push(circle_pair(n, slot, k))?;
    }
    Ok(())
}

/// The return game of a game of the first half: at the other team's venue, in the second half.
fn returned(n: u16, game: Game) -> Game
    requires few { n ≤ 40 }
    requires some { 0 < n }
    requires in_half { game.slot.0 < n - 1 }
    ensures { result ≡ return_game n game }
{
    Game {
        home: game.away,
        away: game.home,
        slot: SlotId(game.slot.0 + (n - 1)),
    }
}

/// The canonical single round robin of n teams in n - 1 slots, slot by slot, for an even n from 2 to 40. In slot s the
/// last team meets team s, at home in the even slots; the other teams stand in a circle, and those k steps on and k
/// steps back from team s meet, the former at home for the odd k.
///
/// # Errors
/// Only where memory runs out.
pub fn single(alloc: Global, n: u16) -> Result<Schedule, AllocError>
    requires teams { IsTeamCount n }
    ensures games { IfOk result (λ games. games ≡ single_games n) }

    // The games are a single round robin, and nothing else.
    ensures round_robin { IfOk result (λ games. IsSingleRoundRobin n games) }
    ensures count { IfOk result (λ games. length games ≡ (n - 1) * (n / 2)) }

    // The games have n - 2 breaks: no single round robin has fewer.
    ensures breaks { IfOk result (λ games. all_breaks n (counts_of games) (teams_of n) (first_half n) ≡ n - 2) }
{
    let mut schedule = Schedule::new(alloc);
    for slot in 0..n - 1 {
        add_slot(&mut schedule, n, slot)?;
    }
    Ok(schedule)
}

/// The canonical double round robin of n teams in 2(n - 1) slots, for an even n from 2 to 40: the single one, and then
/// the same games in the same order at the other venues. It is compact and in two phases (ITC 2021; RobinX: game mode
/// P).
///
/// # Errors
/// Only where memory runs out.
pub fn double(alloc: Global, n: u16) -> Result<Schedule, AllocError>
    requires teams { IsTeamCount n }
    ensures games { IfOk result (λ games. games ≡ double_games n) }

    // The games are a double round robin in two phases, and nothing else.
    ensures round_robin { IfOk result (λ games. IsRoundRobin n true (counts_of games)) }
    ensures fit { IfOk result (λ games. All (IsGame n) games) }
    ensures count { IfOk result (λ games. length games ≡ n * (n - 1)) }

    // Each half has n - 2 breaks within itself.
    ensures breaks { IfOk result (λ games. HasFewBreaks n (counts_of games)) }
{
    let mut schedule = single(alloc, n)?;
    for k in 0..schedule.len() {
        let game = schedule.get(k);
        schedule.push(returned(n, game))?;
    }
    Ok(schedule)
}
