//! The stages of `resume --near`.
ghost use Rattle.std.specs.Prelude.{◌≡◌, ◌+◌, ◌≤◌, ℕ, false, List, IfOk, length};
ghost use Rattle.std.specs.List.{All};
ghost use Rattle.robin_io.specs.Outside.{store_between};
ghost use Rattle.league.specs.Counts as counts;
ghost use Rattle.league.specs.Instance.{IsGame};
ghost use Rattle.robinx.specs.declared.instance.TheConstants.{INSTANCE_LIMIT, SOLUTION_LIMIT};
ghost use Rattle.answers.specs.SeenReply.{answer_of, Answers};
ghost use Rattle.break_counts.specs.BreakCounts.{are_few};
ghost use Rattle.resume.specs.Kept as kept;
ghost use Rattle.robin_watch.specs.Limits.{IsKeptTo};
ghost use Rattle.command_resume.specs.Near.{IsNearBy, neared};
ghost use Rattle.encoding.specs.Limit.{most_terms};

use crate::counted::count_out;
use crate::near_replies::near_reply;
use crate::replies::counted_reply;
use crate::season::season_in;
use answers::{NoValue, Reply};
use encoding::EncodeFault;
use league::{League, Schedule};
use resume::resume_near;
use robin_io::Shelf;
use robin_watch::{Budgets, Watch};
use std::alloc::{AllocError, Global};

/// How a season is resumed near its old plan.
#[derive(Clone, Copy)]
pub struct NearResumption {
    /// How many slots are played.
    pub k: u64,
    /// How far the search goes, and the walks from the old plan.
    pub budgets: Budgets,
}

/// Resumes a season whose resume rows are few enough near its old plan, unless its league is counted out, and answers
/// it.
fn near_of<W: Watch>(
    alloc: Global,
    league: &League,
    played: &Schedule,
    k: u16,
    budgets: Budgets,
    watch: &W,
) -> Result<Reply, AllocError>
    requires few { length played.now ≤ 10000 }
    requires fit { All (IsGame league.now.n) played.now }
    requires slots { k ≤ counts.slot_count league.now.n }
    requires small { kept.resume_size league.now k ≤ most_terms }
    ensures { IfOk result (λ reply. IsNearBy league.now played.now k
        (IsKeptTo budgets.conflicts (W.may_stop watch.now)) (W.may_stop watch.now) (answer_of reply)) }
{
    let counted = count_out(alloc, league, played, k)?;
    match counted {
        Some(log) => counted_reply(alloc, &log),
        None => nearest_of(alloc, league, played, k, budgets, watch),
    }
}

/// Resumes a season whose resume rows are few enough near its old plan, where its league isn't counted out, and answers
/// it.
fn nearest_of<W: Watch>(
    alloc: Global,
    league: &League,
    played: &Schedule,
    k: u16,
    budgets: Budgets,
    watch: &W,
) -> Result<Reply, AllocError>
    requires few { length played.now ≤ 10000 }
    requires fit { All (IsGame league.now.n) played.now }
    requires slots { k ≤ counts.slot_count league.now.n }
    requires small { kept.resume_size league.now k ≤ most_terms }
    requires enough { are_few league.now ≡ false }
    ensures { IfOk result (λ reply. IsNearBy league.now played.now k
        (IsKeptTo budgets.conflicts (W.may_stop watch.now)) (W.may_stop watch.now) (answer_of reply)) }
{
    // For its contract: a season has few games.
    let _n = league.n();
    match resume_near(alloc, league, played, k, budgets, watch) {
        Ok(neared) => near_reply(alloc, league, played, k, &neared),
        Err(EncodeFault::TooLarge { .. }) => unreachable!(),
        Err(EncodeFault::Mem) => Err(AllocError),
    }
}

/// Finds a schedule that the league of a file accepts and that keeps, in the first k slots, the games of a solution
/// file, and says how many of the games to come it changes; or a log that there is none, or one that is spent. It looks
/// for a schedule that changes few. The watch may end the search, as if fewer clauses had been its budget, and all that
/// follows.
///
/// # Errors
/// Where a file is refused, with the reply that says why, and where memory runs out.
pub fn resume_near_file<S: Shelf, W: Watch>(
    alloc: Global,
    shelf: &mut S,
    instance: &str,
    solution: &str,
    resumption: NearResumption,
    watch: &W,
) -> Result<Reply, NoValue>
    ensures answer { Answers (neared (store_between S.Shelf shelf.old shelf.new) instance.now solution.now
        resumption.k (IsKeptTo resumption.budgets.conflicts (W.may_stop watch.now)) (W.may_stop watch.now)) result }
    ensures taken { S.taken shelf.new ≤ S.taken shelf.old + (INSTANCE_LIMIT + 1 + (SOLUTION_LIMIT + 1)) }
    ensures contents { (n : List ℕ) → S.contents shelf.new n ≡ S.contents shelf.old n }
{
    let season = season_in(alloc, shelf, instance, solution, resumption.k)?;
    let reply = near_of(
        alloc,
        &season.league,
        &season.played,
        season.slots,
        resumption.budgets,
        watch,
    )?;
    Ok(reply)
}
