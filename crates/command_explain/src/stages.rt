//! The stages of `explain`.
ghost use Rattle.std.specs.Prelude.{◌≡◌, ◌≤◌, ◌+◌, ℕ, List};
ghost use Rattle.robin_io.specs.Outside.{store_between};
ghost use Rattle.answers.specs.SeenReply.{Answers};
ghost use Rattle.command_check.specs.Check.{encodes};
ghost use Rattle.command_explain.specs.Explained.{IsFound, explained};
ghost use Rattle.command_explain.specs.Replied.{IsReplied};

use crate::hints::on_members;
use crate::replies::found_reply;
use answers::{NoValue, Refusal, Reply, file, league_in, rows_refused};
use encoding::EncodeFault;
use explain::{Explained, explain};
use league::League;
use robin_io::Shelf;
use robin_watch::Listener;
use robinx::INSTANCE_LIMIT;
use std::alloc::{AllocError, Global};

/// A reply, with what a person is told beside it: a reply goes with advice as a refusal does.
fn told(
    alloc: Global,
    instance: &str,
    explained: &Explained,
    reply: Result<Reply, AllocError>,
) -> Result<Reply, NoValue>
    ensures { Answers (IsReplied reply) result }
{
    let reply = reply?;
    match explained {
        Explained::Conflict { members, .. } => {
            let advice = on_members(alloc, instance, members);
            Err(NoValue::Refused(Refusal::new(alloc, reply, advice)))
        }
        _ => Ok(reply),
    }
}

/// Explains the league of a file, and answers it.
fn found_of<W: Listener>(
    alloc: Global,
    instance: &str,
    league: &League,
    conflicts: Option<u64>,
    watch: &W,
) -> Result<Reply, NoValue>
    ensures { Answers (encodes league.now (λ rows. IsFound league.now conflicts (W.may_stop watch.now))) result }
{
    match explain(alloc, league, conflicts, watch) {
        Ok(explained) => {
            let reply = found_reply(alloc, league, conflicts, &explained, watch);
            told(alloc, instance, &explained, reply)
        }
        Err(EncodeFault::TooLarge { terms }) => Err(NoValue::Refused(rows_refused(alloc, terms)?)),
        Err(EncodeFault::Mem) => Err(NoValue::Memory),
    }
}

/// Finds hard constraints of the league of a file that contradict each other, with a case for each, or a schedule that
/// the league accepts. With a budget each search learns at most so many clauses; where that of the whole league is
/// spent, its log is the answer. The watch may end each search, and then the constraints that are still to be tried stay
/// undecided.
///
/// # Errors
/// Where a file is refused, with the reply that says why, and where memory runs out.
pub fn explain_file<S: Shelf, W: Listener>(
    alloc: Global,
    shelf: &mut S,
    instance: &str,
    conflicts: Option<u64>,
    watch: &W,
) -> Result<Reply, NoValue>
    ensures answer { Answers (explained (store_between S.Shelf shelf.old shelf.new)
        instance.now conflicts (W.may_stop watch.now)) result }
    ensures taken { S.taken shelf.new ≤ S.taken shelf.old + (INSTANCE_LIMIT + 1) }
    ensures contents { (n : List ℕ) → S.contents shelf.new n ≡ S.contents shelf.old n }
{
    let bytes = file(alloc, shelf, "instance", instance, INSTANCE_LIMIT)?;
    let league = league_in(alloc, instance, &bytes)?;
    found_of(alloc, instance, &league, conflicts, watch)
}
