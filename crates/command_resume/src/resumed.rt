//! The stages of `resume`.
ghost use Rattle.std.specs.Prelude.{◌≡◌, ◌+◌, ◌≤◌, ℕ, false, List, IfOk, length};
ghost use Rattle.std.specs.List.{All};
ghost use Rattle.robin_io.specs.Outside.{store_between};
ghost use Rattle.league.specs.Counts as counts;
ghost use Rattle.league.specs.Instance.{IsGame};
ghost use Rattle.robinx.specs.declared.instance.TheConstants.{INSTANCE_LIMIT, SOLUTION_LIMIT};
ghost use Rattle.answers.specs.SeenReply.{answer_of, Answers};
ghost use Rattle.break_counts.specs.BreakCounts.{are_few};
ghost use Rattle.resume.specs.Kept as kept;
ghost use Rattle.robin_watch.specs.Limits.{IsKeptTo};
ghost use Rattle.command_resume.specs.Resumed.{IsFoundBy, resumed};
ghost use Rattle.encoding.specs.Limit.{most_terms};

use crate::counted::count_out;
use crate::replies::{counted_reply, found_reply};
use crate::season::season_in;
use answers::{NoValue, Reply};
use encoding::EncodeFault;
use league::{League, Schedule};
use resume::resume_lowered;
use robin_io::Shelf;
use robin_watch::Watch;
use std::alloc::{AllocError, Global};

/// How a season is resumed.
#[derive(Clone, Copy, Debug)]
pub struct Resumption {
    /// How many slots are played.
    pub k: u64,
    /// How many clauses the search may learn: any number of them, where there is none.
    pub conflicts: Option<u64>,
}

/// Resumes a season whose resume rows are few enough, unless its league is counted out, and answers it.
fn found_of<W: Watch>(
    alloc: Global,
    league: &League,
    played: &Schedule,
    k: u16,
    conflicts: Option<u64>,
    watch: &W,
) -> Result<Reply, AllocError>
    requires few { length played.now ≤ 10000 }
    requires fit { All (IsGame league.now.n) played.now }
    requires slots { k ≤ counts.slot_count league.now.n }
    requires small { kept.resume_size league.now k ≤ most_terms }
    ensures { IfOk result (λ reply. IsFoundBy league.now played.now k (IsKeptTo conflicts (W.may_stop watch.now))
        (answer_of reply)) }
{
    let counted = count_out(alloc, league, played, k)?;
    match counted {
        Some(log) => counted_reply(alloc, &log),
        None => resumed_of(alloc, league, played, k, conflicts, watch),
    }
}

/// Resumes a season whose resume rows are few enough, and whose league isn't counted out, and answers it.
fn resumed_of<W: Watch>(
    alloc: Global,
    league: &League,
    played: &Schedule,
    k: u16,
    conflicts: Option<u64>,
    watch: &W,
) -> Result<Reply, AllocError>
    requires few { length played.now ≤ 10000 }
    requires fit { All (IsGame league.now.n) played.now }
    requires slots { k ≤ counts.slot_count league.now.n }
    requires small { kept.resume_size league.now k ≤ most_terms }
    requires enough { are_few league.now ≡ false }
    ensures { IfOk result (λ reply. IsFoundBy league.now played.now k (IsKeptTo conflicts (W.may_stop watch.now))
        (answer_of reply)) }
{
    match resume_lowered(alloc, league, played, k, conflicts, watch) {
        Ok(resumed) => found_reply(alloc, league, played, k, &resumed),
        Err(EncodeFault::TooLarge { .. }) => unreachable!(),
        Err(EncodeFault::Mem) => Err(AllocError),
    }
}

/// Finds a schedule that the league of a file accepts and that keeps, in the first k slots, the games of a solution
/// file; or a log that there is none. Where the league allows its teams too few breaks, the log counts them. With a
/// budget the search learns at most so many clauses, and its log is the answer where it is spent. Where the league accepts all games of the solution file as they are, they are the answer;
/// a schedule that the search finds is made better by moves that leave the played games alone. The watch may end the
/// search, as if fewer clauses had been its budget, and the moves.
///
/// # Errors
/// Where a file is refused, with the reply that says why, and where memory runs out.
pub fn resume_file<S: Shelf, W: Watch>(
    alloc: Global,
    shelf: &mut S,
    instance: &str,
    solution: &str,
    resumption: Resumption,
    watch: &W,
) -> Result<Reply, NoValue>
    ensures answer { Answers (resumed (store_between S.Shelf shelf.old shelf.new) instance.now solution.now
        resumption.k (IsKeptTo resumption.conflicts (W.may_stop watch.now))) result }
    ensures taken { S.taken shelf.new ≤ S.taken shelf.old + (INSTANCE_LIMIT + 1 + (SOLUTION_LIMIT + 1)) }
    ensures contents { (n : List ℕ) → S.contents shelf.new n ≡ S.contents shelf.old n }
{
    let season = season_in(alloc, shelf, instance, solution, resumption.k)?;
    let reply = found_of(
        alloc,
        &season.league,
        &season.played,
        season.slots,
        resumption.conflicts,
        watch,
    )?;
    Ok(reply)
}
