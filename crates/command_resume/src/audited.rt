//! The stages of `audit`.
ghost use Rattle.std.specs.Prelude.{◌≡◌, ◌+◌, ◌≤◌, ℕ, List, IfOk, IsErrOf, codes, length};
ghost use Rattle.std.specs.List.{All};
ghost use Rattle.robin_io.specs.Outside.{store_between};
ghost use Rattle.league.specs.Counts as counts;
ghost use Rattle.league.specs.Instance.{IsGame};
ghost use Rattle.refutation.specs.Logs.{log_of};
ghost use Rattle.robinx.specs.declared.instance.TheConstants.{INSTANCE_LIMIT, SOLUTION_LIMIT};
ghost use Rattle.answers.specs.SeenReply.{Answers};
ghost use Rattle.answers.specs.Stages.{reads};
ghost use Rattle.command_check.specs.Check.{LogPassesRoom, most_log_bytes, says_log};
ghost use Rattle.encoding.specs.Variables.{var_count};
ghost use Rattle.resume.specs.Kept as kept;
ghost use Rattle.command_resume.specs.Audited.{IsVerdict, LacksRoom, audited};
ghost use Rattle.encoding.specs.Limit.{most_terms};

use crate::season::{Season, season_in};
use answers::{NoValue, Reply};
use command_check::judge_log;
use encoding::EncodeFault;
use league::{League, Schedule};
use resume::{ResumeSystem, checker_of, resume_system};
use robin_io::Shelf;
use std::alloc::{AllocError, Global};

/// The resume rows, which are few enough.
pub(crate) fn system_of(
    alloc: Global,
    league: &League,
    played: &Schedule,
    k: u16,
) -> Result<ResumeSystem, AllocError>
    requires few { length played.now ≤ 10000 }
    requires fit { All (IsGame league.now.n) played.now }
    requires slots { k ≤ counts.slot_count league.now.n }
    requires small { kept.resume_size league.now k ≤ most_terms }
    ensures { IfOk result (λ system.
        system ≡ record { league = league.now; played = played.now; k = k }) }
{
    match resume_system(alloc, league, played, k) {
        Ok(system) => Ok(system),
        Err(EncodeFault::TooLarge { .. }) => unreachable!(),
        Err(EncodeFault::Mem) => Err(AllocError),
    }
}

/// What a log is audited by.
#[derive(Clone, Copy, Debug)]
pub struct Audit {
    /// How many slots are played.
    pub k: u64,
    /// How many bytes the steps of the log may take, as `judge_log` of `command_check` limits them: any number of them,
    /// where there is none.
    pub limit: Option<u128>,
}

/// Checks the log of a file over the resume rows of a season.
fn audit_log<S: Shelf>(
    alloc: Global,
    shelf: &mut S,
    name: &str,
    season: &Season,
    limit: Option<u128>,
) -> Result<Reply, NoValue>
    requires few { length season.now.played ≤ 10000 }
    requires fit { All (IsGame season.now.league.n) season.now.played }
    requires slots { season.now.slots ≤ counts.slot_count season.now.league.n }
    requires small { kept.resume_size season.now.league season.now.slots ≤ most_terms }
    ensures answer { Answers (reads (store_between S.Shelf shelf.old shelf.new) (codes "log") name.now most_log_bytes 0
        (λ bytes. says_log (log_of bytes)
        (IsVerdict season.now.league season.now.played season.now.slots limit))) result }
    ensures full { IsErrOf result NoValue.Room → LogPassesRoom (S.contents shelf.old name.now)
        (kept.resume_rows season.now.league (counts.counts_of season.now.played) season.now.slots)
        (var_count season.now.league) limit }
    ensures taken { S.taken shelf.new ≤ S.taken shelf.old + (most_log_bytes + 1) }
    ensures contents { (n : List ℕ) → S.contents shelf.new n ≡ S.contents shelf.old n }
{
    let system = system_of(alloc, &season.league, &season.played, season.slots)?;
    let mut checker = checker_of(alloc, &system)?;
    judge_log(alloc, shelf, name, &mut checker, limit)
}

/// Checks the log of a file over the resume rows of a league, of which the first k slots are played as a solution file
/// says. The log is read in pieces and its steps are judged as they come; it is read to its end before the answer.
///
/// # Errors
/// Where a file is refused, with the reply that says why; `Room` only where some first steps of the log take more bytes
/// than the limit; and where memory runs out.
pub fn audit_file<S: Shelf>(
    alloc: Global,
    shelf: &mut S,
    instance: &str,
    solution: &str,
    audit: Audit,
    log: &str,
) -> Result<Reply, NoValue>
    ensures answer { Answers (audited (store_between S.Shelf shelf.old shelf.new) audit.limit
        instance.now solution.now audit.k log.now) result }
    ensures full { IsErrOf result NoValue.Room →
        LacksRoom (store_between S.Shelf shelf.old shelf.new) audit.limit instance.now solution.now audit.k log.now }
    ensures taken { S.taken shelf.new ≤ S.taken shelf.old + (INSTANCE_LIMIT + 1 + (SOLUTION_LIMIT + 1) + (most_log_bytes + 1)) }
    ensures contents { (n : List ℕ) → S.contents shelf.new n ≡ S.contents shelf.old n }
{
    match season_in(alloc, shelf, instance, solution, audit.k) {
        Ok(season) => audit_log(alloc, shelf, log, &season, audit.limit),
        Err(NoValue::Refused(refusal)) => Err(NoValue::Refused(refusal)),
        // No step is judged so far, so that no room is wanting.
        Err(NoValue::Memory | NoValue::Room) => Err(NoValue::Memory),
    }
}
