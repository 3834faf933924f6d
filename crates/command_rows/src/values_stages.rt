//! The stages of `values`.
ghost use Rattle.std.specs.Prelude.{◌≡◌, ◌+◌, ◌≤◌, ◌<◌, ◌^◌, ℕ, List, Ok, length};
ghost use Rattle.robin_io.specs.Outside.{store_between};
ghost use Rattle.answers.specs.SeenReply.{Answers, MatchStage};
ghost use Rattle.command_check.specs.Check.{encodes, most_log_bytes};
ghost use Rattle.answers.specs.Reply.{too_large};
ghost use Rattle.encoding.specs.Encoding.{encoding_size, rows_of};
ghost use Rattle.opb_forms.specs.Values.{values_of};
ghost use Rattle.command_rows.specs.Faults.{IsMalformed};
ghost use Rattle.command_rows.specs.Valued.{IsValued, says_values, valued};
ghost use Rattle.encoding.specs.Limit.{most_terms};

use crate::values_replies::{values_refused, values_reply};
use answers::{NoValue, Reply, file, league_in, rows_refused};
use command_check::LOG_LIMIT;
use encoding::{EncodeFault, Encoding, encode};
use league::League;
use opb_forms::{ValuesFault, read_values};
use robin_io::Shelf;
use robinx::INSTANCE_LIMIT;
use rows::Lit;
use std::alloc::Global;

/// The rows of a league, or why there are none.
fn encoding_of(alloc: Global, league: &League) -> Result<Encoding, NoValue>
    ensures { MatchStage result
        (λ encoding. (encoding ≡ league.now) × (encoding_size league.now ≤ most_terms))
        (λ answer. (most_terms < encoding_size league.now) × (answer ≡ too_large (encoding_size league.now))) }
{
    match encode(alloc, league) {
        Ok(encoding) => Ok(encoding),
        Err(EncodeFault::TooLarge { terms }) => Err(NoValue::Refused(rows_refused(alloc, terms)?)),
        Err(EncodeFault::Mem) => Err(NoValue::Memory),
    }
}

/// The literals that a file of values says.
fn values_in(alloc: Global, bytes: &[u8]) -> Result<Vec<Lit>, NoValue>
    requires { length bytes.now ≤ most_log_bytes }
    ensures { MatchStage result
        (λ lits. values_of bytes.now ≡ Ok lits.items)
        (IsMalformed (values_of bytes.now)) }
{
    match read_values(alloc, bytes) {
        Ok(lits) => Ok(lits),
        Err(ValuesFault::Form { line }) => Err(NoValue::Refused(values_refused(alloc, line)?)),
        Err(ValuesFault::Mem) => Err(NoValue::Memory),
    }
}

/// What is found of a file of values.
fn judge_values(alloc: Global, bytes: &[u8], encoding: &Encoding) -> Result<Reply, NoValue>
    requires { length bytes.now ≤ most_log_bytes }
    ensures { Answers (says_values (values_of bytes.now) (IsValued encoding.now (rows_of encoding.now))) result }
{
    let lits = values_in(alloc, bytes)?;
    Ok(values_reply(alloc, encoding, &lits)?)
}

/// The season that the values of one file stand for, where they meet the rows of the league of the other; else the
/// number of the first row that they miss.
///
/// # Errors
/// Where a file is refused, with the reply that says why, and where memory runs out.
pub fn values_file<S: Shelf>(
    alloc: Global,
    shelf: &mut S,
    instance: &str,
    values: &str,
) -> Result<Reply, NoValue>
    ensures answer { Answers (valued (store_between S.Shelf shelf.old shelf.new)
        instance.now values.now) result }
    ensures taken { S.taken shelf.new ≤ S.taken shelf.old + (INSTANCE_LIMIT + 1 + (LOG_LIMIT + 1)) }
    ensures contents { (n : List ℕ) → S.contents shelf.new n ≡ S.contents shelf.old n }
{
    let first = file(alloc, shelf, "instance", instance, INSTANCE_LIMIT)?;
    let league = league_in(alloc, instance, &first)?;
    let encoding = encoding_of(alloc, &league)?;
    let second = file(alloc, shelf, "values", values, LOG_LIMIT)?;
    judge_values(alloc, &second, &encoding)
}
