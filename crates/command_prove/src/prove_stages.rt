//! The stages of `prove`.
ghost use Rattle.std.specs.Prelude.{◌≡◌, ◌+◌, ◌≤◌, ℕ, List, IfOk, codes, length, min};
ghost use Rattle.std.specs.List.{All};
ghost use Rattle.robin_io.specs.Outside.{store_between};
ghost use Rattle.league.specs.Accepted.{IsAccepted, objective};
ghost use Rattle.league.specs.Counts.{counts_of};
ghost use Rattle.league.specs.Instance.{IsGame};
ghost use Rattle.league.specs.declared.game.Game.{Game};
ghost use Rattle.robinx.specs.Pieces.{pieces};
ghost use Rattle.robinx.specs.SolutionFile.{solution_of};
ghost use Rattle.answers.specs.SeenReply.{answer_of, Answers};
ghost use Rattle.answers.specs.Stages.{says};
ghost use Rattle.bound_rows.specs.Bounded.{IsCounted};
ghost use Rattle.robin_watch.specs.Limits.{IsKeptTo};
ghost use Rattle.command_prove.specs.Floor.{IsFloorShownBy, IsShownWith};
ghost use Rattle.command_prove.specs.Prove.{IsShownBy, proved};

use crate::floor_replies::{Sought, floor_reply};
use crate::measured::{Measured, measured_in};
use crate::prove_replies::proof_reply;
use answers::{NoValue, Reply, file, schedule_in};
use bounds::{Counted, prove, prove_bound};
use command_check::judgement;
use deviation::assess;
use league::{League, Schedule};
use robin_io::Shelf;
use robin_watch::Watch;
use robinx::{INSTANCE_LIMIT, SOLUTION_LIMIT};
use std::alloc::{AllocError, Global};

/// What is to be shown of a schedule, and how far the search for it goes.
#[derive(Clone, Copy, Debug)]
pub struct Aim {
    /// A number that no schedule is to cost less than; without one, none is to cost less than the schedule.
    pub floor: Option<u64>,
    /// How many clauses the search may learn, or any number of them.
    pub conflicts: Option<u64>,
}

/// Answers what is shown of the schedule of a file's bytes.
fn show_file<W: Watch>(
    alloc: Global,
    name: &str,
    bytes: &[u8],
    measured: &Measured,
    aim: Aim,
    watch: &W,
) -> Result<Reply, NoValue>
    requires within { length bytes.now ≤ SOLUTION_LIMIT }
    requires counted { IsCounted measured.now.league measured.now.terms }
    ensures { Answers
        (says (codes "solution") (solution_of measured.now.league.n (pieces bytes.now))
        (IsShownWith aim.floor (IsKeptTo aim.conflicts (W.may_stop watch.now)) (W.may_stop watch.now)
        measured.now.league)) result }
{
    let schedule = schedule_in(alloc, name, bytes, &measured.league)?;
    Ok(show(
        alloc,
        &measured.league,
        &schedule,
        aim,
        measured.terms,
        watch,
    )?)
}

/// Answers what is shown of a schedule. It is assessed once.
fn show<W: Watch>(
    alloc: Global,
    league: &League,
    schedule: &Schedule,
    aim: Aim,
    terms: u64,
    watch: &W,
) -> Result<Reply, AllocError>
    requires few { length schedule.now ≤ 10000 }
    requires fit { All (IsGame league.now.n) schedule.now }
    requires counted { IsCounted league.now terms }
    ensures { IfOk result (λ reply. IsShownWith aim.floor (IsKeptTo aim.conflicts (W.may_stop watch.now))
        (W.may_stop watch.now) league.now schedule.now (answer_of reply)) }
{
    let assessed = assess(alloc, league, schedule)?;
    if !assessed.feasible {
        return judgement(alloc, league, schedule, &assessed);
    }
    let counted = Counted {
        cost: assessed.objective,
        terms,
    };
    match aim.floor {
        None => show_least(alloc, league, schedule, counted, aim.conflicts, watch),
        Some(asked) => show_floor(alloc, league, counted, asked, aim.conflicts, watch),
    }
}

/// Answers whether an accepted schedule can be bettered.
fn show_least<W: Watch>(
    alloc: Global,
    league: &League,
    schedule: &Schedule,
    counted: Counted,
    conflicts: Option<u64>,
    watch: &W,
) -> Result<Reply, AllocError>
    requires accepted { IsAccepted league.now (counts_of schedule.now) }
    requires fit { All (IsGame league.now.n) schedule.now }
    requires assessed { counted.cost ≡ objective league.now (counts_of schedule.now) }
    requires counted { IsCounted league.now counted.terms }
    ensures { IfOk result (λ reply. IsShownBy league.now (IsKeptTo conflicts (W.may_stop watch.now))
        (W.may_stop watch.now) schedule.now (answer_of reply)) }
{
    let proved = prove(alloc, league, schedule, counted, conflicts, watch)?;
    proof_reply(alloc, league, counted, &proved, conflicts, watch)
}

/// Answers whether a schedule costs less than a number, or less than an accepted one where this costs less than the
/// number. The answer holds for each accepted schedule of that cost.
fn show_floor<W: Watch>(
    alloc: Global,
    league: &League,
    counted: Counted,
    asked: u64,
    conflicts: Option<u64>,
    watch: &W,
) -> Result<Reply, AllocError>
    requires { IsCounted league.now counted.terms }
    ensures { IfOk result (λ reply. (games : List Game) → IsAccepted league.now (counts_of games)
        → counted.cost ≡ objective league.now (counts_of games)
        → IsFloorShownBy league.now asked (IsKeptTo conflicts (W.may_stop watch.now)) games (answer_of reply)) }
{
    let bound = lower(asked, counted.cost);
    let proved = prove_bound(alloc, league, bound, conflicts, counted.terms, watch)?;
    let sought = Sought { counted, bound };
    floor_reply(alloc, league, sought, &proved, conflicts, watch)
}

/// The lower of a number and a cost.
fn lower(number: u64, cost: u128) -> u64
    ensures { result ≡ min number cost }
{
    if cost < u128::from(number) {
        cost as u64
    } else {
        number
    }
}

/// Shows that the schedule of one file can't be bettered in the league of the other, betters it, or spends its budget
/// of conflicts. Where the aim is a floor, it shows that no schedule costs less than that. A schedule that the league
/// doesn't accept is judged. The watch may end the search, as if fewer conflicts had been its budget.
///
/// # Errors
/// Where a file is refused, with the reply that says why, and where memory runs out.
pub fn prove_file<S: Shelf, W: Watch>(
    alloc: Global,
    shelf: &mut S,
    instance: &str,
    solution: &str,
    aim: Aim,
    watch: &W,
) -> Result<Reply, NoValue>
    ensures answer { Answers (proved (store_between S.Shelf shelf.old shelf.new) instance.now solution.now
        (IsShownWith aim.floor (IsKeptTo aim.conflicts (W.may_stop watch.now)) (W.may_stop watch.now))) result }
    ensures taken { S.taken shelf.new ≤ S.taken shelf.old + (INSTANCE_LIMIT + 1 + (SOLUTION_LIMIT + 1)) }
    ensures contents { (n : List ℕ) → S.contents shelf.new n ≡ S.contents shelf.old n }
{
    let measured = measured_in(alloc, shelf, instance)?;
    let second = file(alloc, shelf, "solution", solution, SOLUTION_LIMIT)?;
    show_file(alloc, solution, &second, &measured, aim, watch)
}
