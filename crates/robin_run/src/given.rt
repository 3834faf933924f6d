//! What a command gives.
ghost use Rattle.std.specs.Prelude.{◌≡◌};
ghost use Rattle.robin_run.specs.Givens.{IsGiven};

use answers::{NoValue, Reply};
use command_rows::ReadyRows;

/// What a command gives: an answer, or rows that are ready to be written.
#[derive(Drop)]
pub(crate) enum Given {
    Answer(Reply),
    Rows(ReadyRows),
}

/// Gives a reply as it is.
pub(crate) fn give(reply: Result<Reply, NoValue>) -> Result<Given, NoValue>
    ensures { IsGiven reply result }
{
    match reply {
        Ok(reply) => Ok(Given::Answer(reply)),
        Err(why) => Err(why),
    }
}
