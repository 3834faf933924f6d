//! The made league, solved.
ghost use Rattle.std.specs.Prelude.{◌≡◌, ◌≤◌, ◌++◌, length, IfOk, Some};
ghost use Rattle.std.specs.List.{All};
ghost use Rattle.league.specs.Accepted as costs;
ghost use Rattle.league.specs.Accepted.{IsAccepted};
ghost use Rattle.league.specs.Counts.{counts_of};
ghost use Rattle.league.specs.Instance.{IsGame, IsInstance, IsTeamCount};
ghost use Rattle.circle_method.specs.Circle.{double_games};
ghost use Rattle.robinx.specs.Texts as solutions;
ghost use Rattle.answers.specs.SeenReply.{answer_of, Answers};
ghost use Rattle.answers.specs.declared.status.Status.TheVariants.{Yes};
ghost use Rattle.command_check.specs.Check.{encodes};
ghost use Rattle.solve.specs.Solutions.{HasSchedule, IsSomeSolution};
ghost use Rattle.command_solve.specs.Solve.{descent_text};
ghost use Rattle.command_solve.specs.Trial.{IsTrialBy, found_lines, league_lines, tried};
ghost use Rattle.command_solve.specs.Written.{IsTrialWritten};

use crate::schedules::{first_objective, schedule_text};
use crate::summary::{found_lines, league_lines};
use answers::{NoValue, Reply, Status, rows_refused};
use descent::Descent;
use encoding::EncodeFault;
use instance_gen::make;
use league::{League, Schedule};
use robin_watch::{Budgets, Listener};
use solve::{Solved, solve};
use std::alloc::{AllocError, Global};

/// Makes the league of n teams, n even and from 2 to 40, and a seed, and finds a schedule of it within budgets, until
/// the watch ends the run: seven lines say what came of it, and what `solve` writes comes behind them.
///
/// # Errors
/// Where the rows of the league are too many, with the reply that says so, and where memory runs out.
pub fn trial<W: Listener>(
    alloc: Global,
    n: u16,
    seed: u64,
    budgets: Budgets,
    watch: &W,
) -> Result<Reply, NoValue>
    requires teams { IsTeamCount n }
    ensures { Answers (tried n seed budgets (W.may_stop watch.now)) result }
{
    let league = make(alloc, n, seed)?;
    solve_made(alloc, &league, seed, budgets, watch)
}

/// A league that accepts the schedule of the circle method, solved.
fn solve_made<W: Listener>(
    alloc: Global,
    league: &League,
    seed: u64,
    budgets: Budgets,
    watch: &W,
) -> Result<Reply, NoValue>
    requires circle { IsAccepted league.now (counts_of (double_games league.now.n)) }
    ensures { Answers (encodes league.now (λ rows. IsTrialBy league.now.n seed league.now budgets.moves
        (W.may_stop watch.now))) result }
{
    match solve(alloc, league, budgets, watch) {
        Ok(solved) => Ok(found_reply(alloc, league, seed, &solved)?),
        Err(EncodeFault::TooLarge { terms }) => Err(NoValue::Refused(rows_refused(alloc, terms)?)),
        Err(EncodeFault::Mem) => Err(NoValue::Memory),
    }
}

/// What is found of a league that accepts the schedule of the circle method: a schedule.
fn found_reply(
    alloc: Global,
    league: &League,
    seed: u64,
    solved: &Solved,
) -> Result<Reply, AllocError>
    requires solution { IsSomeSolution league.now solved.now }
    requires schedule { HasSchedule solved.now }
    ensures written { IfOk result (λ reply. IsTrialWritten seed league.now solved.now (answer_of reply)) }
    ensures instance { IsInstance league.now }
{
    let _n = league.n();
    match solved {
        Solved::Schedule {
            schedule,
            objective,
            descent,
        } => schedule_reply(alloc, league, seed, schedule, *objective, descent),
        Solved::Refuted(_) => unreachable!(),
        Solved::Spent {
            log: _,
            patterns: _,
        } => unreachable!(),
    }
}

/// A schedule that is accepted, with its objective, and the descent that led to it.
fn schedule_reply(
    alloc: Global,
    league: &League,
    seed: u64,
    schedule: &Schedule,
    objective: u128,
    descent: &Descent,
) -> Result<Reply, AllocError>
    requires fit { All (IsGame league.now.n) descent.now.first }
    requires few { length descent.now.first ≤ 10000 }
    ensures status { IfOk result (λ reply. (answer_of reply).status ≡ Yes) }
    ensures text { IfOk result (λ reply. (answer_of reply).text
        ≡ league_lines league.now.n seed (length league.now.constraints)
        ++ found_lines objective (costs.objective league.now (counts_of descent.now.first))
        (length descent.now.trail) descent.now.settled
        ++ (solutions.solution_text schedule.now (Some (0, objective))
        ++ descent_text (costs.objective league.now (counts_of descent.now.first)) descent.now)) }
{
    let first = first_objective(alloc, league, descent)?;
    let mut text = lines(alloc, league, seed, objective, first, descent)?;
    let solved = schedule_text(alloc, schedule, objective, first, descent)?;
    text.extend_from_slice(&solved)?;
    Ok(Reply {
        status: Status::Yes,
        text,
    })
}

/// The seven lines.
fn lines(
    alloc: Global,
    league: &League,
    seed: u64,
    objective: u128,
    first: u128,
    descent: &Descent,
) -> Result<Vec<u8>, AllocError>
    ensures { IfOk result (λ text. text.items ≡ league_lines league.now.n seed (length league.now.constraints)
        ++ found_lines objective first (length descent.now.trail) descent.now.settled) }
{
    let constraints = league.constraints().len();
    let moves = descent.trail().len();
    let mut text = league_lines(alloc, league.n(), seed, constraints)?.into_bytes();
    let found = found_lines(alloc, objective, first, moves, descent.settled())?;
    text.extend_from_slice(found.as_bytes())?;
    Ok(text)
}
