//! Refusals: an answer, and what a person is told beside it.
ghost use Rattle.std.specs.Prelude.{◌≡◌, ◌≤◌, IfOk};
ghost use Rattle.answers.specs.Reply as refusals;
ghost use Rattle.answers.specs.SeenReply.{answer_of};
ghost use Rattle.answers.specs.SeenRefusal.{refused_with};

use crate::reply::{
    Reply, log_reply, malformed_reply, past_limit_reply, rows_reply, unreadable_reply,
};
use crate::{Advice, hints};
use refutation::LogKind;
use robinx::FormKind;
use std::alloc::{AllocError, Global};

/// An answer that refuses, and what a person is told beside it. What is told is printable, and nothing else is said of
/// it.
#[derive(Drop)]
pub struct Refusal {
    pub reply: Reply,
    pub advice: Advice,
}

impl Refusal {
    /// A reply, with advice where there was memory for it.
    pub fn new(alloc: Global, reply: Reply, advice: Result<Advice, AllocError>) -> Refusal
        ensures { answer_of result.reply ≡ answer_of reply }
    {
        match advice {
            Ok(advice) => Refusal { reply, advice },
            Err(AllocError) => Refusal {
                reply,
                advice: Advice::new(alloc),
            },
        }
    }
}

/// The advice, if it was told whole.
fn told_whole(advice: Advice, told: Result<(), AllocError>) -> Result<Advice, AllocError> {
    told?;
    Ok(advice)
}

/// The store failed at a file, for a reason that it may know.
///
/// # Errors
/// Only where memory runs out.
pub fn unreadable(
    alloc: Global,
    which: &str,
    name: &str,
    reason: Option<&'static str>,
) -> Result<Refusal, AllocError>
    ensures { IfOk result (refused_with (refusals.read_fault which.now)) }
{
    let reply = unreadable_reply(alloc, which)?;
    let mut advice = Advice::new(alloc);
    let told = hints::on_fault(&mut advice, which, name, reason);
    Ok(Refusal::new(alloc, reply, told_whole(advice, told)))
}

/// A file has more bytes than its limit.
///
/// # Errors
/// Only where memory runs out.
pub fn past_limit(
    alloc: Global,
    which: &str,
    name: &str,
    limit: usize,
) -> Result<Refusal, AllocError>
    ensures { IfOk result (refused_with (refusals.too_long which.now limit)) }
{
    let reply = past_limit_reply(alloc, which, limit)?;
    let mut advice = Advice::new(alloc);
    let told = hints::on_length(&mut advice, which, name, limit);
    Ok(Refusal::new(alloc, reply, told_whole(advice, told)))
}

/// A file of this name and these bytes has a fault of form of this kind, on this line.
///
/// # Errors
/// Only where memory runs out.
pub fn malformed(
    alloc: Global,
    which: &str,
    name: &str,
    bytes: &[u8],
    kind: FormKind,
    line: u32,
) -> Result<Refusal, AllocError>
    ensures { IfOk result (refused_with (refusals.malformed which.now kind line)) }
{
    let reply = malformed_reply(alloc, which, kind, line)?;
    let mut advice = Advice::new(alloc);
    let told = hints::on_form(&mut advice, which, name, bytes, kind, line);
    Ok(Refusal::new(alloc, reply, told_whole(advice, told)))
}

/// The rows of a league have so many terms, which are too many.
///
/// # Errors
/// Only where memory runs out.
pub fn rows_refused(alloc: Global, terms: u64) -> Result<Refusal, AllocError>
    ensures { IfOk result (refused_with (refusals.too_large terms)) }
{
    let reply = rows_reply(alloc, terms)?;
    let mut advice = Advice::new(alloc);
    let told = hints::on_rows(&mut advice, terms);
    Ok(Refusal::new(alloc, reply, told_whole(advice, told)))
}

/// A log, or a certificate, has a fault of form of this kind, on this line.
///
/// # Errors
/// Only where memory runs out.
pub fn log_refused(
    alloc: Global,
    name: &str,
    kind: LogKind,
    line: u64,
) -> Result<Refusal, AllocError>
    ensures { IfOk result (refused_with (refusals.log_malformed kind line)) }
{
    let reply = log_reply(alloc, kind, line)?;
    let mut advice = Advice::new(alloc);
    let told = hints::on_log(&mut advice, name, kind, line);
    Ok(Refusal::new(alloc, reply, told_whole(advice, told)))
}
