//! The answers of `check`.
ghost use Rattle.std.specs.Prelude.{◌≡◌, IfOk};
ghost use Rattle.answers.specs.SeenReply.{answer_of};
ghost use Rattle.command_check.specs.Check as texts;

use answers::{Reply, Status};
use refutation::{Cause, Verdict};
use std::alloc::{AllocError, Global};

/// The name of a cause.
fn cause_word(cause: Cause) -> &'static str
    ensures { result.now ≡ texts.cause_word cause }
{
    match cause {
        Cause::UnknownRow => "UnknownRow",
        Cause::UnknownVariable => "UnknownVariable",
        Cause::NoConflict => "NoConflict",
        Cause::NoEmptyClause => "NoEmptyClause",
        Cause::TooWide => "TooWide",
    }
}

/// The log of so many steps is accepted.
fn accepted(alloc: Global, steps: usize) -> Result<Reply, AllocError>
    ensures { IfOk result (λ reply. answer_of reply ≡ texts.verdict_answer steps Verdict.Accepted) }
{
    let text = format!(in alloc; "accepted steps {steps}\n")?;
    Ok(Reply {
        status: Status::Yes,
        text: text.into_bytes(),
    })
}

/// The log is rejected at this step.
fn rejected(alloc: Global, step: u64, cause: Cause) -> Result<Reply, AllocError>
    ensures { IfOk result (λ reply. answer_of reply ≡ texts.verdict_answer 0 (Verdict.Rejected step cause)) }
{
    let cause = cause_word(cause);
    let text = format!(in alloc; "rejected step {step} cause {cause}\n")?;
    Ok(Reply {
        status: Status::No,
        text: text.into_bytes(),
    })
}

/// The verdict on a log of so many steps.
///
/// # Errors
/// Only where memory runs out.
pub fn verdict_reply(alloc: Global, steps: usize, verdict: Verdict) -> Result<Reply, AllocError>
    ensures { IfOk result (λ reply. answer_of reply ≡ texts.verdict_answer steps verdict) }
{
    match verdict {
        Verdict::Accepted => accepted(alloc, steps),
        Verdict::Rejected { step, cause } => rejected(alloc, step, cause),
    }
}
