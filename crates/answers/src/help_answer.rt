//! The answers to `--help` and to `--version`.
ghost use Rattle.std.specs.Prelude.{◌≡◌, IfOk};
ghost use Rattle.answers.specs.SeenReply.{answer_of};
ghost use Rattle.answers.specs.Help.{help_answer, help_text, version_answer};

use crate::pages;
use crate::reply::Reply;
use crate::status::Status;
use command_line::Topic;
use std::alloc::{AllocError, Global};

/// The page on a command, or on all of them.
fn page(topic: Option<Topic>) -> &'static str
    ensures { result.now ≡ help_text topic }
{
    match topic {
        None => pages::ALL,
        Some(Topic::Validate) => pages::VALIDATE,
        Some(Topic::Show) => pages::SHOW,
        Some(Topic::Solve) => pages::SOLVE,
        Some(Topic::Patterns) => pages::PATTERNS,
        Some(Topic::Explain) => pages::EXPLAIN,
        Some(Topic::Part) => pages::PART,
        Some(Topic::Check) => pages::CHECK,
        Some(Topic::Prove) => pages::PROVE,
        Some(Topic::Bound) => pages::BOUND,
        Some(Topic::Resume) => pages::RESUME,
        Some(Topic::Audit) => pages::AUDIT,
        Some(Topic::Rows) => pages::ROWS,
        Some(Topic::Values) => pages::VALUES,
        Some(Topic::Circle) => pages::CIRCLE,
        Some(Topic::Make) => pages::MAKE,
        Some(Topic::Trial) => pages::TRIAL,
    }
}

/// Says what a command does, or what all of them do.
///
/// # Errors
/// Only where memory runs out.
pub fn help(alloc: Global, topic: Option<Topic>) -> Result<Reply, AllocError>
    ensures { IfOk result (λ reply. answer_of reply ≡ help_answer topic) }
{
    let page = page(topic);
    let text = format!(in alloc; "{page}")?;
    Ok(Reply {
        status: Status::Yes,
        text: text.into_bytes(),
    })
}

/// Says which version this is.
///
/// # Errors
/// Only where memory runs out.
pub fn version(alloc: Global) -> Result<Reply, AllocError>
    ensures { IfOk result (λ reply. answer_of reply ≡ version_answer) }
{
    let page = pages::VERSION;
    let text = format!(in alloc; "{page}")?;
    Ok(Reply {
        status: Status::Yes,
        text: text.into_bytes(),
    })
}
