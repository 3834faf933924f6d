//! The stages that commands have in common: those before the answer, and the last, which writes it.
ghost use Rattle.std.specs.Prelude.{◌≡◌, ◌+◌, ◌≤◌, ℕ, List, Ok, IfOk, codes, length, vec_len};
ghost use Rattle.std.specs.List.{All};
ghost use Rattle.robin_io.specs.Counts.{raised};
ghost use Rattle.robin_io.specs.Outside.{output_between, store_between};
ghost use Rattle.robinx.specs.Pieces.{pieces};
ghost use Rattle.league.specs.Instance.{IsGame};
ghost use Rattle.robinx.specs.InstanceFile.{instance_of};
ghost use Rattle.robinx.specs.SolutionFile.{solution_of};
ghost use Rattle.answers.specs.SeenReply.{answer_of, IsMalformed, MatchStage};
ghost use Rattle.answers.specs.Stages.{IsFile, IsUnread, IsWritten};

use crate::refusal::{malformed, past_limit, unreadable};
use crate::reply::{NoValue, Reply};
use crate::status::Status;
use league::{League, Schedule};
use robin_io::{Shelf, Sink, TakeFault, put_all, read_all};
use robinx::{INSTANCE_LIMIT, ReadFault, SOLUTION_LIMIT, read_instance, read_solution};
use std::alloc::Global;

/// Reads a file whole, or answers why it can't be read.
///
/// # Errors
/// Where more than the limit was taken or the store failed at this file, with the reply that says so, and where memory
/// runs out.
pub fn file<S: Shelf>(
    alloc: Global,
    shelf: &mut S,
    which: &str,
    name: &str,
    limit: usize,
) -> Result<Vec<u8>, NoValue>
    requires { limit ≤ 268435456 }
    ensures stage { let store = store_between S.Shelf shelf.old shelf.new in MatchStage result
        (λ bytes. IsFile (store.contents name.now) limit bytes.items)
        (IsUnread which.now (store.contents name.now) limit (store.took_more limit) (store.failed name.now)) }
    ensures count { IfOk result (λ bytes. S.taken shelf.new ≡ raised (S.taken shelf.old) (vec_len bytes)) }
    ensures risen { S.taken shelf.old ≤ S.taken shelf.new }
    ensures taken { S.taken shelf.new ≤ S.taken shelf.old + (limit + 1) }
    ensures contents { (n : List ℕ) → S.contents shelf.new n ≡ S.contents shelf.old n }
    ensures later { (n : List ℕ) → S.faults shelf.old n ≤ S.faults shelf.new n }
{
    match read_all(alloc, shelf, name, limit) {
        Ok(bytes) => Ok(bytes),
        Err(TakeFault::Failed) => Err(NoValue::Refused(unreadable(
            alloc,
            which,
            name,
            shelf.reason(),
        )?)),
        Err(TakeFault::TooLong { .. }) => Err(NoValue::Refused(past_limit(
            alloc, which, name, limit,
        )?)),
        Err(TakeFault::Mem) => Err(NoValue::Memory),
    }
}

/// The league that an instance file says. The file's name is told where it is refused.
///
/// # Errors
/// Where the file has a fault of form, with the reply that names its first one, and where memory runs out.
pub fn league_in(alloc: Global, name: &str, bytes: &[u8]) -> Result<League, NoValue>
    requires { length bytes.now ≤ INSTANCE_LIMIT }
    ensures { MatchStage result
        (λ league. instance_of (pieces bytes.now) ≡ Ok league)
        (IsMalformed (codes "instance") (instance_of (pieces bytes.now))) }
{
    match read_instance(alloc, bytes) {
        Ok(league) => Ok(league),
        Err(ReadFault::Form(fault)) => Err(NoValue::Refused(malformed(
            alloc, "instance", name, bytes, fault.kind, fault.line,
        )?)),
        Err(ReadFault::Mem) => Err(NoValue::Memory),
    }
}

/// The schedule of the league that a solution file says. The file's name is told where it is refused.
///
/// # Errors
/// Where the file has a fault of form, with the reply that names its first one, and where memory runs out.
pub fn schedule_in(
    alloc: Global,
    name: &str,
    bytes: &[u8],
    league: &League,
) -> Result<Schedule, NoValue>
    requires { length bytes.now ≤ SOLUTION_LIMIT }
    ensures says { MatchStage result
        (λ games. solution_of league.now.n (pieces bytes.now) ≡ Ok games)
        (IsMalformed (codes "solution") (solution_of league.now.n (pieces bytes.now))) }
    ensures few { IfOk result (λ games. length games ≤ 10000) }
    ensures fit { IfOk result (All (IsGame league.now.n)) }
{
    match read_solution(alloc, bytes, league) {
        Ok(schedule) => Ok(schedule),
        Err(ReadFault::Form(fault)) => Err(NoValue::Refused(malformed(
            alloc, "solution", name, bytes, fault.kind, fault.line,
        )?)),
        Err(ReadFault::Mem) => Err(NoValue::Memory),
    }
}

/// Writes the text of an answer, and says how the run ends.
pub fn write_answer<K: Sink>(out: &mut K, reply: &Reply) -> Status
    ensures written { IsWritten (answer_of reply.now) result (output_between K.Sink out.old out.new) }

    // At most as many puts as the text has bytes.
    ensures calls { K.calls out.new ≤ K.calls out.old + length (answer_of reply.now).text }
{
    match put_all(out, &reply.text) {
        Ok(()) => reply.status,
        Err(_) => Status::WriteFault,
    }
}
