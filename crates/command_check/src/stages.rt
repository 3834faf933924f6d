//! The stages of `check`.
ghost use Rattle.std.specs.Prelude.{◌≡◌, ◌+◌, ◌<◌, ◌≤◌, ℕ, List, Option, true, false, IsErrOf, OnOk, codes};
ghost use Rattle.robin_io.specs.Outside.{store_between};
ghost use Rattle.rows.specs.Rows.{Row};
ghost use Rattle.encoding.specs.Encoding.{encoding_size, rows_of};
ghost use Rattle.refutation.specs.Logs.{log_of};
ghost use Rattle.refutation.specs.Places.{start};
ghost use Rattle.refutation_check.specs.Judged.{no_step_of};
ghost use Rattle.refutation_check.specs.Room.{has_room};
ghost use Rattle.answers.specs.Reply.{too_large};
ghost use Rattle.answers.specs.SeenReply.{Answers, MatchStage};
ghost use Rattle.answers.specs.Stages.{IsUnread, reads};
ghost use Rattle.command_check.specs.Check.{IsVerdict, IsVerdictWithin, LacksRoom, LogPassesRoom, checked};
ghost use Rattle.command_check.specs.Check.{most_log_bytes, says_log};
ghost use Rattle.command_check.specs.Feeding.{ChecksFile, ChecksOn};
ghost use Rattle.command_check.specs.Reading.{ReadsLeague};
ghost use Rattle.command_check.specs.Stopping.{PassesLimit};
ghost use Rattle.encoding.specs.Limit.{most_terms};
ghost use Rattle.encoding.specs.Variables.{var_count};

use crate::feeding::{FeedFault, LOG_LIMIT, check_file};
use crate::replies::verdict_reply;
use answers::{NoValue, Reply, file, league_in, log_refused, past_limit, rows_refused, unreadable};
use decoding::checker_of;
use encoding::{EncodeFault, Encoding, encode};
use league::League;
use refutation::{LogFault, LogFeed};
use refutation_check::Checker;
use robin_io::Shelf;
use robinx::INSTANCE_LIMIT;
use std::alloc::Global;

/// The rows of a league, or why there are none.
fn encoding_of(alloc: Global, league: &League) -> Result<Encoding, NoValue>
    ensures stage { MatchStage result
        (λ encoding. (encoding ≡ league.now) × (encoding_size league.now ≤ most_terms))
        (λ answer. (most_terms < encoding_size league.now) × (answer ≡ too_large (encoding_size league.now))) }
{
    match encode(alloc, league) {
        Ok(encoding) => Ok(encoding),
        Err(EncodeFault::TooLarge { terms }) => Err(NoValue::Refused(rows_refused(alloc, terms)?)),
        Err(EncodeFault::Mem) => Err(NoValue::Memory),
    }
}

/// Reads the log and judges its steps, or answers why it can't be read.
fn log_in<S: Shelf>(
    alloc: Global,
    shelf: &mut S,
    name: &str,
    feed: &mut LogFeed,
    checker: &mut Checker,
    limit: Option<u128>,
) -> Result<usize, NoValue>
    requires { feed.old ≡ start }
    ensures stage { let store = store_between S.Shelf shelf.old shelf.new in MatchStage result
        (ChecksFile (store.contents name.now) feed.old checker.old feed.new checker.new)
        (IsUnread (codes "log") (store.contents name.now) most_log_bytes (store.took_more most_log_bytes)
        (store.failed name.now)) }
    ensures within { OnOk result (has_room limit checker.old ≡ true → has_room limit checker.new ≡ true) }
    ensures full { IsErrOf result NoValue.Room →
        PassesLimit (S.contents shelf.old name.now) limit feed.old checker.old checker.new }
    ensures taken { S.taken shelf.new ≤ S.taken shelf.old + (most_log_bytes + 1) }
    ensures contents { (n : List ℕ) → S.contents shelf.new n ≡ S.contents shelf.old n }
{
    match check_file(alloc, shelf, name, feed, checker, limit) {
        Ok(steps) => Ok(steps),
        Err(FeedFault::Failed) => Err(NoValue::Refused(unreadable(
            alloc,
            "log",
            name,
            shelf.reason(),
        )?)),
        Err(FeedFault::TooLong) => {
            Err(NoValue::Refused(past_limit(alloc, "log", name, LOG_LIMIT)?))
        }
        Err(FeedFault::Full) => Err(NoValue::Room),
        Err(FeedFault::Mem) => Err(NoValue::Memory),
    }
}

/// The answer at the end of the log, whose steps the checker has judged.
fn verdict_on(
    alloc: Global,
    name: &str,
    feed: LogFeed,
    checker: &Checker,
    steps: usize,
) -> Result<Reply, NoValue>
    ensures verdict { (rows : List Row) (vars : ℕ) (room : Option ℕ) (bytes : List ℕ)
        → ChecksOn start (no_step_of rows vars) bytes feed checker.now steps → has_room room checker.now ≡ true
        → Answers (says_log (log_of bytes) (IsVerdictWithin rows vars room)) result }
    ensures roomy { IsErrOf result NoValue.Room → ⊥ }
{
    match feed.finish() {
        Ok(()) => Ok(verdict_reply(alloc, steps, checker.verdict())?),
        Err(LogFault::Form { kind, line }) => {
            Err(NoValue::Refused(log_refused(alloc, name, kind, line)?))
        }
        Err(LogFault::Mem) => Err(NoValue::Memory),
    }
}

/// Reads the log of a file and answers with the verdict on it, over the rows of a checker that was given no step yet.
/// The log is read in pieces and its steps are judged as they come; it is read to its end before the answer.
///
/// # Errors
/// Where the file is refused, with the reply that says why; `Room` only where the steps take more bytes than the limit;
/// and where memory runs out.
pub fn judge_log<S: Shelf>(
    alloc: Global,
    shelf: &mut S,
    name: &str,
    checker: &mut Checker,
    limit: Option<u128>,
) -> Result<Reply, NoValue>
    ensures answer { (rows : List Row) (vars : ℕ) → checker.old ≡ no_step_of rows vars
        → Answers (reads (store_between S.Shelf shelf.old shelf.new) (codes "log") name.now most_log_bytes 0
        (λ bytes. says_log (log_of bytes) (IsVerdictWithin rows vars limit))) result }
    ensures within { OnOk result (has_room limit checker.old ≡ true → has_room limit checker.new ≡ true) }
    ensures full { IsErrOf result NoValue.Room →
        PassesLimit (S.contents shelf.old name.now) limit start checker.old checker.new }
    ensures passes { IsErrOf result NoValue.Room → (rows : List Row) (vars : ℕ) → checker.old ≡ no_step_of rows vars
        → LogPassesRoom (S.contents shelf.old name.now) rows vars limit }
    ensures taken { S.taken shelf.new ≤ S.taken shelf.old + (most_log_bytes + 1) }
    ensures contents { (n : List ℕ) → S.contents shelf.new n ≡ S.contents shelf.old n }
{
    let mut feed = LogFeed::new(alloc);
    let steps = log_in(alloc, shelf, name, &mut feed, checker, limit)?;
    verdict_on(alloc, name, feed, checker, steps)
}

/// Checks a log over the rows of a league.
fn check_log<S: Shelf>(
    alloc: Global,
    shelf: &mut S,
    name: &str,
    encoding: &Encoding,
    limit: Option<u128>,
) -> Result<Reply, NoValue>
    ensures answer { Answers (reads (store_between S.Shelf shelf.old shelf.new) (codes "log") name.now most_log_bytes 0
        (λ bytes. says_log (log_of bytes) (IsVerdict encoding.now (rows_of encoding.now) limit))) result }
    ensures full { IsErrOf result NoValue.Room →
        LogPassesRoom (S.contents shelf.old name.now) (rows_of encoding.now) (var_count encoding.now) limit }
    ensures taken { S.taken shelf.new ≤ S.taken shelf.old + (most_log_bytes + 1) }
    ensures contents { (n : List ℕ) → S.contents shelf.new n ≡ S.contents shelf.old n }
{
    let mut checker = checker_of(alloc, encoding)?;
    judge_log(alloc, shelf, name, &mut checker, limit)
}

/// Reads the league of a file, and makes its rows.
///
/// # Errors
/// Where the file is refused, with the reply that says why, and where memory runs out.
fn encoding_in<S: Shelf>(alloc: Global, shelf: &mut S, instance: &str) -> Result<Encoding, NoValue>
    ensures stage { let store = store_between S.Shelf shelf.old shelf.new in MatchStage result
        (ReadsLeague (store.contents instance.now) (S.taken shelf.old) (S.taken shelf.new))
        (λ answer. (room : Option ℕ) (log : List ℕ) → checked store room instance.now log answer) }
    ensures taken { S.taken shelf.new ≤ S.taken shelf.old + (INSTANCE_LIMIT + 1) }
    ensures contents { (n : List ℕ) → S.contents shelf.new n ≡ S.contents shelf.old n }
    ensures later { (n : List ℕ) → S.faults shelf.old n ≤ S.faults shelf.new n }
{
    let first = file(alloc, shelf, "instance", instance, INSTANCE_LIMIT)?;
    let league = league_in(alloc, instance, &first)?;
    encoding_of(alloc, &league)
}

/// Checks the log of one file over the rows of the league of the other.
///
/// The log is read in pieces and its steps are judged as they come; it is read to its end before the answer. Its steps
/// may take no more bytes than the limit, where there is one.
///
/// # Errors
/// Where a file is refused, with the reply that says why; `Room` only where some first steps of the log take more bytes
/// than the limit; and where memory runs out.
pub fn check<S: Shelf>(
    alloc: Global,
    shelf: &mut S,
    instance: &str,
    log: &str,
    limit: Option<u128>,
) -> Result<Reply, NoValue>
    ensures answer { Answers (checked (store_between S.Shelf shelf.old shelf.new) limit
        instance.now log.now) result }
    ensures full { IsErrOf result NoValue.Room →
        LacksRoom (store_between S.Shelf shelf.old shelf.new) limit instance.now log.now }
    ensures taken { S.taken shelf.new ≤ S.taken shelf.old + (INSTANCE_LIMIT + 1 + (most_log_bytes + 1)) }
    ensures contents { (n : List ℕ) → S.contents shelf.new n ≡ S.contents shelf.old n }
{
    match encoding_in(alloc, shelf, instance) {
        Ok(encoding) => check_log(alloc, shelf, log, &encoding, limit),
        Err(NoValue::Refused(refusal)) => Err(NoValue::Refused(refusal)),
        // No step is judged so far, so that no room is wanting.
        Err(NoValue::Memory | NoValue::Room) => Err(NoValue::Memory),
    }
}
