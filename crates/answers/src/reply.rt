//! What a run answers, and the answers that refuse.
ghost use Rattle.std.specs.Prelude.{◌≡◌, IfOk};
ghost use Rattle.answers.specs.Reply as refusals;
ghost use Rattle.answers.specs.SeenReply.{answer_of};
ghost use Rattle.answers.specs.declared.reply.NoValue.TheVariants.{Memory};

use crate::refusal::Refusal;
use crate::status::Status;
use refutation::LogKind;
use robinx::FormKind;
use std::alloc::{AllocError, Global};

/// An answer: how the run ends, and the text that it writes.
#[derive(Drop)]
pub struct Reply {
    pub status: Status,
    pub text: Vec<u8>,
}

/// Why a stage has no value, so that no later one is taken: the run is refused, or memory ran out.
#[derive(Drop)]
pub enum NoValue {
    Refused(Refusal),
    Memory,
    /// The steps of a log would take more memory than they were given.
    Room,
}

impl From<AllocError> for NoValue {
    ghost from_gives = { λ _ e. e ≡ Memory };

    fn from(_: AllocError) -> NoValue {
        NoValue::Memory
    }
}

/// The words are no command.
///
/// # Errors
/// Only where memory runs out.
pub fn words_refused(alloc: Global) -> Result<Reply, AllocError>
    ensures { IfOk result (λ reply. answer_of reply ≡ refusals.refused_words) }
{
    let text = format!(in alloc; "refused words\n")?;
    Ok(Reply {
        status: Status::Words,
        text: text.into_bytes(),
    })
}

/// The store failed at a file.
///
/// # Errors
/// Only where memory runs out.
pub(crate) fn unreadable_reply(alloc: Global, which: &str) -> Result<Reply, AllocError>
    ensures { IfOk result (λ reply. answer_of reply ≡ refusals.read_fault which.now) }
{
    let text = format!(in alloc; "read fault {which}\n")?;
    Ok(Reply {
        status: Status::ReadFault,
        text: text.into_bytes(),
    })
}

/// A file has more bytes than its limit.
///
/// # Errors
/// Only where memory runs out.
pub(crate) fn past_limit_reply(
    alloc: Global,
    which: &str,
    limit: usize,
) -> Result<Reply, AllocError>
    ensures { IfOk result (λ reply. answer_of reply ≡ refusals.too_long which.now limit) }
{
    let text = format!(in alloc; "refused {which} TooLong limit {limit}\n")?;
    Ok(Reply {
        status: Status::File,
        text: text.into_bytes(),
    })
}

/// The name of a fault of form.
fn kind_word(kind: FormKind) -> &'static str
    ensures { result.now ≡ refusals.kind_word kind }
{
    match kind {
        FormKind::BadTag => "BadTag",
        FormKind::BadAttribute => "BadAttribute",
        FormKind::RepeatedAttribute => "RepeatedAttribute",
        FormKind::TooManyAttributes => "TooManyAttributes",
        FormKind::Truncated => "Truncated",
        FormKind::BadNesting => "BadNesting",
        FormKind::MissingElement => "MissingElement",
        FormKind::RepeatedElement => "RepeatedElement",
        FormKind::MissingAttribute => "MissingAttribute",
        FormKind::BadNumber => "BadNumber",
        FormKind::NumberTooLarge => "NumberTooLarge",
        FormKind::UnknownTeam => "UnknownTeam",
        FormKind::UnknownSlot => "UnknownSlot",
        FormKind::SameTeam => "SameTeam",
        FormKind::BadChoice => "BadChoice",
        FormKind::UnsupportedClass => "UnsupportedClass",
        FormKind::WrongCounts => "WrongCounts",
        FormKind::TooMany => "TooMany",
    }
}

/// A file has a fault of form of this kind, on this line.
///
/// # Errors
/// Only where memory runs out.
pub(crate) fn malformed_reply(
    alloc: Global,
    which: &str,
    kind: FormKind,
    line: u32,
) -> Result<Reply, AllocError>
    ensures { IfOk result (λ reply. answer_of reply ≡ refusals.malformed which.now kind line) }
{
    let kind = kind_word(kind);
    let text = format!(in alloc; "refused {which} {kind} line {line}\n")?;
    Ok(Reply {
        status: Status::File,
        text: text.into_bytes(),
    })
}

/// The rows of a league have so many terms, which are too many.
///
/// # Errors
/// Only where memory runs out.
pub(crate) fn rows_reply(alloc: Global, terms: u64) -> Result<Reply, AllocError>
    ensures { IfOk result (λ reply. answer_of reply ≡ refusals.too_large terms) }
{
    let text = format!(in alloc; "refused rows TooLarge terms {terms}\n")?;
    Ok(Reply {
        status: Status::File,
        text: text.into_bytes(),
    })
}

/// The name of a fault of a log's form.
fn log_kind_word(kind: LogKind) -> &'static str
    ensures { result.now ≡ refusals.log_kind_word kind }
{
    match kind {
        LogKind::BadLine => "BadLine",
        LogKind::BadNumber => "BadNumber",
        LogKind::NoEnd => "NoEnd",
        LogKind::TooLong => "TooLong",
    }
}

/// A log has a fault of form of this kind, on this line.
///
/// # Errors
/// Only where memory runs out.
pub(crate) fn log_reply(alloc: Global, kind: LogKind, line: u64) -> Result<Reply, AllocError>
    ensures { IfOk result (λ reply. answer_of reply ≡ refusals.log_malformed kind line) }
{
    let kind = log_kind_word(kind);
    let text = format!(in alloc; "refused log {kind} line {line}\n")?;
    Ok(Reply {
        status: Status::File,
        text: text.into_bytes(),
    })
}
