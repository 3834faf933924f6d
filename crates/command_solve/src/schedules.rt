//! The text of a schedule.
ghost use Rattle.std.specs.Prelude.{◌≡◌, ◌≤◌, ◌++◌, length, IfOk, Some};
ghost use Rattle.std.specs.List.{All};
ghost use Rattle.league.specs.Accepted as costs;
ghost use Rattle.league.specs.Counts.{counts_of};
ghost use Rattle.league.specs.Instance.{IsGame};
ghost use Rattle.robinx.specs.Texts as solutions;
ghost use Rattle.command_solve.specs.Solve.{descent_text};

use crate::comments::add_descent;
use descent::Descent;
use deviation::assess;
use league::{League, Schedule};
use robinx::solution_text;
use std::alloc::{AllocError, Global};

/// The objective with which a descent began: that of the games which it was given.
///
/// # Errors
/// Only where memory runs out.
pub fn first_objective(
    alloc: Global,
    league: &League,
    descent: &Descent,
) -> Result<u128, AllocError>
    requires fit { All (IsGame league.now.n) descent.now.first }
    requires few { length descent.now.first ≤ 10000 }
    ensures { IfOk result (λ cost. cost ≡ costs.objective league.now (counts_of descent.now.first)) }
{
    let assessment = assess(alloc, league, descent.first())?;
    Ok(assessment.objective)
}

/// The text of an accepted schedule of this objective, and behind it the descent that led to it, which began with the
/// objective `first`.
///
/// # Errors
/// Only where memory runs out.
pub fn schedule_text(
    alloc: Global,
    schedule: &Schedule,
    objective: u128,
    first: u128,
    descent: &Descent,
) -> Result<Vec<u8>, AllocError>
    ensures { IfOk result (λ text. text.items
        ≡ solutions.solution_text schedule.now (Some (0, objective)) ++ descent_text first descent.now) }
{
    let mut text = solution_text(alloc, schedule, Some((0, objective)))?;
    add_descent(alloc, &mut text, first, descent)?;
    Ok(text)
}
