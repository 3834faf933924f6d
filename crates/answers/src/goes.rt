//! Where the text of a run goes.
ghost use Rattle.std.specs.Prelude.{◌≡◌};
ghost use Rattle.answers.specs.Goes as goes;

use crate::status::Status;
use command_line::Topic;

/// Where a text goes.
#[derive(Clone, Copy)]
pub enum Goes {
    /// Into the file of `--out`: it is what was asked for.
    Out,
    /// Into the file of `--log`: it is a log of a search that found nothing.
    Log,
    /// To standard output: it says why what was asked for isn't there.
    Shown,
    /// Nowhere: it isn't whole.
    Nowhere,
}

/// Whether no is an answer of a command as good as yes: it judges what it is given.
fn judges(command: Option<Topic>) -> bool
    ensures { result ≡ goes.judges command }
{
    matches!(
        command,
        Some(Topic::Validate | Topic::Show | Topic::Check | Topic::Bound | Topic::Audit)
    )
}

/// Where the text of a command goes that ends so.
pub fn goes_to(command: Option<Topic>, status: Status) -> Goes
    ensures { result ≡ goes.goes_to command status }
{
    match status {
        Status::Yes | Status::Better => Goes::Out,
        Status::No => {
            if judges(command) {
                Goes::Out
            } else {
                Goes::Shown
            }
        }
        Status::Refuted => {
            if matches!(command, Some(Topic::Explain)) {
                Goes::Out
            } else {
                Goes::Log
            }
        }
        Status::Spent => Goes::Log,
        Status::Words | Status::File | Status::ReadFault => Goes::Shown,
        Status::WriteFault | Status::Memory => Goes::Nowhere,
    }
}
