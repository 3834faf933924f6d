//! From assignments to schedules.
ghost use Rattle.std.specs.Prelude.{◌≡◌, ◌<◌, ◌≤◌, ◌++◌, length, IfOk, OnOk};
ghost use Rattle.league.specs.Accepted.{IsAccepted};
ghost use Rattle.league.specs.Counts as counts;
ghost use Rattle.league.specs.Counts.{counts_of};
ghost use Rattle.league.specs.Instance.{IsInstance};
ghost use Rattle.league.specs.Order.{IsInOrder};
ghost use Rattle.rows.specs.Rows.{SatisfiesAll};
ghost use Rattle.rows.specs.Values.{assigned};
ghost use Rattle.encoding.specs.Encoding.{rows_of};
ghost use Rattle.encoding.specs.Shadow.{decoded};
ghost use Rattle.encoding.specs.Variables as variables;
ghost use Rattle.encoding.specs.Variables.{var_count};
ghost use Rattle.decoding.specs.TrueGames.{true_game, true_games_in, true_home_games};

use encoding::{Encoding, x_at};
use league::{Game, Schedule, SlotId, TeamId, slot_count};
use rows::Assignment;
use std::alloc::{AllocError, Global};

/// The games whose variables are true, in order of slot, home team and away team. Where the assignment satisfies every
/// row, the league accepts them. An assignment may have more variables than the encoding.
///
/// # Errors
/// Only where memory runs out.
pub fn decode(
    alloc: Global,
    encoding: &Encoding,
    assignment: &Assignment,
) -> Result<Schedule, AllocError>
    requires made_for { var_count encoding.now ≤ length assignment.now }
    ensures games { IfOk result (λ schedule. schedule ≡ decoded encoding.now.n (assigned assignment.now)) }
    ensures in_order { IfOk result (λ schedule. IsInOrder schedule) }
    ensures accepted { SatisfiesAll (assigned assignment.now) (rows_of encoding.now) →
        IfOk result (λ schedule. IsAccepted encoding.now (counts_of schedule)) }

    // What holds of every encoding.
    ensures instance { IsInstance encoding.now }
{
    let schedule = decode_games(alloc, encoding.n(), assignment)?;
    Ok(schedule)
}

/// The games of n teams, at most 40, whose variables are true, in order of slot, home team and away team. It reads no
/// variables beside those of games.
///
/// # Errors
/// Only where memory runs out.
pub fn decode_games(alloc: Global, n: u16, assignment: &Assignment) -> Result<Schedule, AllocError>
    requires n { n ≤ 40 }
    requires made_for { variables.x_count n ≤ length assignment.now }
    ensures games { IfOk result (λ schedule. schedule ≡ decoded n (assigned assignment.now)) }
    ensures in_order { IfOk result (λ schedule. IsInOrder schedule) }
{
    let mut schedule = Schedule::new(alloc);
    for slot in 0..slot_count(n) {
        add_slot(&mut schedule, n, assignment, slot)?;
    }
    Ok(schedule)
}

/// Adds the games of a slot whose variables are true.
fn add_slot(
    schedule: &mut Schedule,
    n: u16,
    assignment: &Assignment,
    slot: u16,
) -> Result<(), AllocError>
    requires n { n ≤ 40 }
    requires made_for { variables.x_count n ≤ length assignment.now }
    requires slot { slot < counts.slot_count n }
    ensures { OnOk result
        (schedule.new ≡ schedule.old ++ true_games_in n (assigned assignment.now) slot) }
{
    for home in 0..n {
        add_home_games(schedule, n, assignment, home, slot)?;
    }
    Ok(())
}

/// Adds the home games of a team in a slot whose variables are true.
fn add_home_games(
    schedule: &mut Schedule,
    n: u16,
    assignment: &Assignment,
    home: u16,
    slot: u16,
) -> Result<(), AllocError>
    requires n { n ≤ 40 }
    requires made_for { variables.x_count n ≤ length assignment.now }
    requires home { home < n }
    requires slot { slot < counts.slot_count n }
    ensures { OnOk result
        (schedule.new ≡ schedule.old ++ true_home_games n (assigned assignment.now) slot home) }
{
    for away in 0..n {
        let game = Game {
            home: TeamId(home),
            away: TeamId(away),
            slot: SlotId(slot),
        };
        add_if_true(schedule, n, assignment, game)?;
    }
    Ok(())
}

/// Adds the game of two different teams, where its variable is true.
fn add_if_true(
    schedule: &mut Schedule,
    n: u16,
    assignment: &Assignment,
    game: Game,
) -> Result<(), AllocError>
    requires n { n ≤ 40 }
    requires made_for { variables.x_count n ≤ length assignment.now }
    requires home { game.home.0 < n }
    requires away { game.away.0 < n }
    requires slot { game.slot.0 < counts.slot_count n }
    ensures { OnOk result
        (schedule.new ≡ schedule.old ++ true_game n (assigned assignment.now) game) }
{
    if game.away.0 != game.home.0
        && assignment.value(x_at(n, game.home.0, game.away.0, game.slot.0))
    {
        schedule.push(game)?;
    }
    Ok(())
}
