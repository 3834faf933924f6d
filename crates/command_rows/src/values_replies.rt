//! The answers of `values`.
ghost use Rattle.std.specs.Prelude.{◌≡◌, ◌≤◌, length, IfOk};
ghost use Rattle.rows.specs.Rows.{SatisfiesAll};
ghost use Rattle.rows.specs.Values.{assigned};
ghost use Rattle.encoding.specs.Encoding.{rows_of};
ghost use Rattle.encoding.specs.Known.{AreKnown};
ghost use Rattle.encoding.specs.Variables.{var_count};
ghost use Rattle.answers.specs.SeenReply.{answer_of};
ghost use Rattle.command_rows.specs.Valued as valued;
ghost use Rattle.command_rows.specs.Valued.{IsSeason, IsValued};

use crate::met::missed_row;
use answers::{Advice, Refusal, Reply, Status};
use decoding::decode;
use deviation::assess;
use encoding::Encoding;
use opb_forms::assignment_of;
use robinx::solution_text;
use rows::{Assignment, Lit};
use std::alloc::{AllocError, Global};

/// A row is missed.
fn missed_reply(alloc: Global, row: usize) -> Result<Reply, AllocError>
    ensures { IfOk result (λ reply. answer_of reply ≡ valued.missed_answer row) }
{
    let text = format!(in alloc; "missed row {row}\n")?;
    Ok(Reply {
        status: Status::No,
        text: text.into_bytes(),
    })
}

/// The season that values stand for which meet every row.
fn season_reply(
    alloc: Global,
    encoding: &Encoding,
    values: &Assignment,
) -> Result<Reply, AllocError>
    requires count { length values.now ≡ var_count encoding.now }
    requires met { SatisfiesAll (assigned values.now) (rows_of encoding.now) }
    ensures { IfOk result (λ reply. IsSeason encoding.now (assigned values.now) (answer_of reply)) }
{
    let schedule = decode(alloc, encoding, values)?;
    let assessed = assess(alloc, encoding.league(), &schedule)?;
    let text = solution_text(alloc, &schedule, Some((0, assessed.objective)))?;
    Ok(Reply {
        status: Status::Yes,
        text,
    })
}

/// What is found of values.
fn found_reply(alloc: Global, encoding: &Encoding, values: &Assignment) -> Result<Reply, AllocError>
    requires count { length values.now ≡ var_count encoding.now }
    requires known { AreKnown (var_count encoding.now) (rows_of encoding.now) }
    ensures { IfOk result (λ reply. valued.found_of encoding.now (assigned values.now)
        (valued.missed_from 1 (rows_of encoding.now) (assigned values.now)) (answer_of reply)) }
{
    match missed_row(encoding.rows(), values) {
        Some(row) => missed_reply(alloc, row),
        None => season_reply(alloc, encoding, values),
    }
}

/// What is found of literals.
pub(crate) fn values_reply(
    alloc: Global,
    encoding: &Encoding,
    lits: &[Lit],
) -> Result<Reply, AllocError>
    ensures { IfOk result (λ reply. IsValued encoding.now (rows_of encoding.now) lits.now (answer_of reply)) }
{
    let values = assignment_of(alloc, encoding.vars(), lits)?;
    found_reply(alloc, encoding, &values)
}

/// The text of a file of values that is refused.
fn malformed_reply(alloc: Global, line: u64) -> Result<Reply, AllocError>
    ensures { IfOk result (λ reply. answer_of reply ≡ valued.values_malformed line) }
{
    let text = format!(in alloc; "refused values BadLine line {line}\n")?;
    Ok(Reply {
        status: Status::File,
        text: text.into_bytes(),
    })
}

/// What a person is told of such a file.
fn on_line(alloc: Global, line: u64) -> Result<Advice, AllocError> {
    let mut advice = Advice::new(alloc);
    advice.say("robin: values, line ")?;
    advice.count(line)?;
    advice.say(": a word is no literal, as `x7`, `-x7`, `7` or `-7`")?;
    advice.end_line()?;
    Ok(advice)
}

/// A file of values has its first fault on this line.
pub(crate) fn values_refused(alloc: Global, line: u64) -> Result<Refusal, AllocError>
    ensures { IfOk result (λ refusal. answer_of refusal.reply ≡ valued.values_malformed line) }
{
    let reply = malformed_reply(alloc, line)?;
    Ok(Refusal::new(alloc, reply, on_line(alloc, line)))
}
