//! The made league.
ghost use Rattle.std.specs.Prelude.{IfOk};
ghost use Rattle.league.specs.Instance.{IsTeamCount};
ghost use Rattle.answers.specs.SeenReply.{answer_of};
ghost use Rattle.command_solve.specs.MadeInstance.{IsMade};

use answers::{Reply, Status};
use instance_gen::make;
use robinx::instance_text;
use std::alloc::{AllocError, Global};

/// Makes the league of n teams, n even and from 2 to 40, and a seed, and its text, which reads back as it.
///
/// # Errors
/// Only where memory runs out.
pub fn make_league(alloc: Global, n: u16, seed: u64) -> Result<Reply, AllocError>
    requires teams { IsTeamCount n }
    ensures { IfOk result (λ reply. IsMade n seed (answer_of reply)) }
{
    let league = make(alloc, n, seed)?;
    let text = instance_text(alloc, &league)?;
    Ok(Reply {
        status: Status::Yes,
        text,
    })
}
