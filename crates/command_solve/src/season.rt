//! The season of the circle method.
ghost use Rattle.std.specs.Prelude.{◌≡◌, IfOk};
ghost use Rattle.circle_method.specs.Circle.{double_games};
ghost use Rattle.league.specs.Instance.{IsTeamCount};
ghost use Rattle.answers.specs.SeenReply.{answer_of};
ghost use Rattle.command_solve.specs.Circle.{circle_season, in_order};

use answers::{Reply, Status};
use circle_method::double;
use league::Schedule;
use robinx::solution_text;
use std::alloc::{AllocError, Global};

/// The double round robin of the circle method, its games in order.
fn season(alloc: Global, n: u16) -> Result<Schedule, AllocError>
    requires teams { IsTeamCount n }
    ensures { IfOk result (λ games. games ≡ in_order (double_games n)) }
{
    let mut schedule = double(alloc, n)?;
    schedule.put_in_order();
    Ok(schedule)
}

/// Makes the season of the circle method for n teams, n even and from 2 to 40, and its text.
///
/// # Errors
/// Only where memory runs out.
pub fn circle(alloc: Global, n: u16) -> Result<Reply, AllocError>
    requires teams { IsTeamCount n }
    ensures { IfOk result (λ reply. answer_of reply ≡ circle_season n) }
{
    let schedule = season(alloc, n)?;
    let text = solution_text(alloc, &schedule, None)?;
    Ok(Reply {
        status: Status::Yes,
        text,
    })
}
