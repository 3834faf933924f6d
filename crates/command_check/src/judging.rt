//! The judgement of a schedule, and its report.
ghost use Rattle.std.specs.Prelude.{◌≡◌, ◌≤◌, ◌++◌, length, IfOk, OnOk, if◌then◌else◌, string_bytes};
ghost use Rattle.std.specs.List.{All};
ghost use Rattle.league.specs.Instance.{IsGame};
ghost use Rattle.answers.specs.SeenReply.{answer_of};
ghost use Rattle.command_check.specs.Report.{constraints_text, lines_text};
ghost use Rattle.command_check.specs.Assessed.{IsAssessmentOf};
ghost use Rattle.command_check.specs.Validate.{IsJudgement};

use crate::{head, push_constraint, structure_line, verdict};
use answers::{Reply, Status};
use deviation::{Assessment, Vectors, assess, total};
use league::{Constraint, League, Schedule};
use std::alloc::{AllocError, Global};

/// Adds the lines of constraints with their vectors, numbered from 1.
fn push_constraints(
    text: &mut String,
    constraints: &[Constraint],
    vectors: &Vectors,
) -> Result<(), AllocError>
    requires { length vectors.now ≡ length constraints.now }
    ensures { OnOk result (string_bytes text.new
        ≡ string_bytes text.old ++ constraints_text 1 constraints.now vectors.now) }
{
    for (k, constraint) in constraints.iter().enumerate() {
        let entries = vectors.vector(k);
        push_constraint(text, k + 1, constraint, total(entries), entries)?;
    }
    Ok(())
}

/// The report on a schedule of so many games.
fn report_on(
    alloc: Global,
    league: &League,
    games: usize,
    assessed: &Assessment,
) -> Result<String, AllocError>
    requires { length assessed.now.vectors ≡ length league.now.constraints }
    ensures { IfOk result (λ text. string_bytes text
        ≡ lines_text league.now games assessed.now.structure assessed.now.vectors
        assessed.now.infeasibility assessed.now.objective assessed.now.feasible) }
{
    let mut text = head(alloc, league, games)?;
    text.push_str(&structure_line(alloc, assessed.structure)?)?;
    push_constraints(&mut text, league.constraints(), &assessed.vectors)?;
    let verdict = verdict(
        alloc,
        assessed.infeasibility,
        assessed.objective,
        assessed.feasible,
    )?;
    text.push_str(&verdict)?;
    Ok(text)
}

/// Judges a schedule by a league, and makes the report.
///
/// # Errors
/// Only where memory runs out.
pub fn judge(alloc: Global, league: &League, schedule: &Schedule) -> Result<Reply, AllocError>
    requires few { length schedule.now ≤ 10000 }
    requires fit { All (IsGame league.now.n) schedule.now }
    ensures { IfOk result (λ reply. IsJudgement league.now schedule.now (answer_of reply)) }
{
    let assessed = assess(alloc, league, schedule)?;
    judgement(alloc, league, schedule, &assessed)
}

/// The judgement of a schedule that was assessed by the league before, and its report.
///
/// # Errors
/// Only where memory runs out.
pub fn judgement(
    alloc: Global,
    league: &League,
    schedule: &Schedule,
    assessed: &Assessment,
) -> Result<Reply, AllocError>
    requires { IsAssessmentOf league.now schedule.now assessed.now }
    ensures { IfOk result (λ reply. IsJudgement league.now schedule.now (answer_of reply)) }
{
    let text = report_on(alloc, league, schedule.len(), assessed)?;
    Ok(Reply {
        status: status_of(assessed.feasible),
        text: text.into_bytes(),
    })
}

/// How a run ends that judged a schedule.
fn status_of(feasible: bool) -> Status
    ensures { result ≡ (if feasible then Status.Yes else Status.No) }
{
    if feasible { Status::Yes } else { Status::No }
}
