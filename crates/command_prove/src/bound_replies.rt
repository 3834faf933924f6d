//! The answers of `bound`.
ghost use Rattle.std.specs.Prelude.{◌≡◌, IfOk, IsErrOf, OnOk, Ok};
ghost use Rattle.answers.specs.SeenReply.{answer_of};
ghost use Rattle.bound_rows.specs.Faithful.{IsLowerBound};
ghost use Rattle.bound_rows.specs.Bounded.{IsCounted};
ghost use Rattle.command_prove.specs.Bound as texts;
ghost use Rattle.command_prove.specs.Bound.{IsBoundVerdict, IsPastRoom, IsWithinRoom, bound_verdict};

use crate::check_bound;
use answers::{Reply, Status};
use bounds::Certificate;
use command_check::verdict_reply;
use league::League;
use refutation::Verdict;
use refutation_check::StepsFault;
use std::alloc::{AllocError, Global};

/// The verdict on a certificate. If it is accepted, every schedule that the league accepts has an objective of at least
/// the bound.
///
/// # Errors
/// `Full` only where some first steps take more bytes than the limit, and `Mem` where memory runs out.
fn verdict_on(
    alloc: Global,
    league: &League,
    certificate: &Certificate,
    terms: u64,
    limit: Option<u128>,
) -> Result<Verdict, StepsFault>
    requires { IsCounted league.now terms }
    ensures verdict { IfOk result (λ verdict.
        verdict ≡ bound_verdict league.now certificate.now.bound certificate.now.log) }
    ensures holds { result ≡ Ok Verdict.Accepted → IsLowerBound league.now certificate.now.bound }
    ensures within { OnOk result (IsWithinRoom league.now limit certificate.now) }
    ensures full { IsErrOf result StepsFault.Full → IsPastRoom league.now limit certificate.now }
{
    if certificate.bound == 0 {
        return Ok(Verdict::Accepted);
    }
    check_bound(
        alloc,
        league,
        certificate.bound,
        &certificate.log,
        terms,
        limit,
    )
}

/// The answer to a certificate of `steps` steps that is accepted.
fn accepted(alloc: Global, bound: u64, steps: usize) -> Result<Reply, AllocError>
    ensures { IfOk result (λ reply. answer_of reply ≡ texts.bound_answer bound steps Verdict.Accepted) }
{
    let text = format!(in alloc; "accepted bound {bound} steps {steps}\n")?;
    Ok(Reply {
        status: Status::Yes,
        text: text.into_bytes(),
    })
}

/// The answer that tells the verdict on a certificate of `steps` steps.
fn bound_reply(
    alloc: Global,
    bound: u64,
    steps: usize,
    verdict: Verdict,
) -> Result<Reply, AllocError>
    ensures { IfOk result (λ reply. answer_of reply ≡ texts.bound_answer bound steps verdict) }
{
    match verdict {
        Verdict::Accepted => accepted(alloc, bound, steps),
        Verdict::Rejected { step, cause } => {
            verdict_reply(alloc, steps, Verdict::Rejected { step, cause })
        }
    }
}

/// The answer to a certificate of a league.
///
/// # Errors
/// `Full` only where some first steps take more bytes than the limit, and `Mem` where memory runs out.
pub(crate) fn judge(
    alloc: Global,
    league: &League,
    certificate: &Certificate,
    terms: u64,
    limit: Option<u128>,
) -> Result<Reply, StepsFault>
    requires { IsCounted league.now terms }
    ensures verdict { IfOk result (λ reply. IsBoundVerdict league.now limit certificate.now (answer_of reply)) }
    ensures full { IsErrOf result StepsFault.Full → IsPastRoom league.now limit certificate.now }
{
    let verdict = verdict_on(alloc, league, certificate, terms, limit)?;
    let reply = bound_reply(alloc, certificate.bound, certificate.log.len(), verdict)?;
    Ok(reply)
}
