//! The stages of `bound`.
ghost use Rattle.std.specs.Prelude.{◌≡◌, ◌≤◌, ◌+◌, ◌<◌, ℕ, List, Option, IsErrOf, Ok};
ghost use Rattle.robin_io.specs.Outside.{store_between};
ghost use Rattle.answers.specs.Reply.{too_large};
ghost use Rattle.answers.specs.SeenReply.{Answers, MatchStage};
ghost use Rattle.bound_rows.specs.BoundRows.{bound_size};
ghost use Rattle.bound_rows.specs.Bounded.{IsCounted};
ghost use Rattle.bounds.specs.Certificates.{certificate_of};
ghost use Rattle.command_prove.specs.Bound.{IsBoundVerdict, IsPastRoom, LacksRoom, ReadCertificate, bounded};
ghost use Rattle.command_prove.specs.Faults.{IsMalformed};
ghost use Rattle.encoding.specs.Limit.{most_terms};

use crate::bound_replies::judge;
use crate::measured::{Measured, measured_in};
use answers::{NoValue, Reply, file, log_refused, rows_refused};
use bound_rows::bound_terms;
use bounds::{Certificate, read_certificate};
use command_check::LOG_LIMIT;
use encoding::MOST_TERMS;
use league::League;
use refutation::LogFault;
use refutation_check::StepsFault;
use robin_io::Shelf;
use robinx::INSTANCE_LIMIT;
use std::alloc::{AllocError, Global};

/// How many terms the bound rows of a league have, if these aren't too many.
///
/// # Errors
/// If they have more than 40,000,000, with the reply that says how many, or if memory runs out.
pub fn few_terms(alloc: Global, league: &League) -> Result<u64, NoValue>
    ensures { MatchStage result
        (IsCounted league.now)
        (λ answer. (most_terms < bound_size league.now)
        × (answer ≡ too_large (bound_size league.now))) }
{
    let terms = bound_terms(league);
    if terms > MOST_TERMS {
        return Err(NoValue::Refused(rows_refused(alloc, terms)?));
    }
    Ok(terms)
}

/// The certificate that a text writes.
fn certificate_in(alloc: Global, name: &str, bytes: &[u8]) -> Result<Certificate, NoValue>
    ensures { MatchStage result
        (λ certificate. certificate_of bytes.now ≡ Ok certificate)
        (IsMalformed (certificate_of bytes.now)) }
{
    match read_certificate(alloc, bytes) {
        Ok(certificate) => Ok(certificate),
        Err(LogFault::Form { kind, line }) => {
            Err(NoValue::Refused(log_refused(alloc, name, kind, line)?))
        }
        Err(LogFault::Mem) => Err(NoValue::Memory),
    }
}

/// What two files claim: no schedule that the league accepts costs less than the bound of the certificate.
#[derive(Drop)]
struct Claim {
    league: League,
    /// How many terms the league's bound rows have.
    terms: u64,
    certificate: Certificate,
}

/// Reads the league of one file and the certificate of the other.
///
/// # Errors
/// Where a file is refused, with the reply that says why, and where memory runs out.
fn claim_in<S: Shelf>(
    alloc: Global,
    shelf: &mut S,
    instance: &str,
    log: &str,
) -> Result<Claim, NoValue>
    ensures stage { let store = store_between S.Shelf shelf.old shelf.new in MatchStage result
        (λ claim. ReadCertificate store instance.now log.now claim.league claim.certificate
        × IsCounted claim.league claim.terms)
        (λ answer. (room : Option ℕ) → bounded store room instance.now log.now answer) }
    ensures taken { S.taken shelf.new ≤ S.taken shelf.old + (INSTANCE_LIMIT + 1 + (LOG_LIMIT + 1)) }
    ensures contents { (n : List ℕ) → S.contents shelf.new n ≡ S.contents shelf.old n }
{
    let Measured { league, terms } = measured_in(alloc, shelf, instance)?;
    let second = file(alloc, shelf, "log", log, LOG_LIMIT)?;
    let certificate = certificate_in(alloc, log, &second)?;
    Ok(Claim {
        league,
        terms,
        certificate,
    })
}

/// Judges the certificate of a claim.
fn judge_claim(alloc: Global, claim: &Claim, limit: Option<u128>) -> Result<Reply, NoValue>
    requires { IsCounted claim.now.league claim.now.terms }
    ensures answer { Answers (IsBoundVerdict claim.now.league limit claim.now.certificate) result }
    ensures full { IsErrOf result NoValue.Room → IsPastRoom claim.now.league limit claim.now.certificate }
{
    match judge(alloc, &claim.league, &claim.certificate, claim.terms, limit) {
        Ok(reply) => Ok(reply),
        Err(StepsFault::Full) => Err(NoValue::Room),
        Err(StepsFault::Mem) => Err(NoValue::Memory),
    }
}

/// Checks the certificate of one file over the bound rows of the league of the other. Its steps may take so many bytes
/// as the limit says, as `check_bound` counts them.
///
/// # Errors
/// Where a file is refused, with the reply that says why; `Room` only where some first steps take more bytes than the
/// limit; and where memory runs out.
pub fn bound_file<S: Shelf>(
    alloc: Global,
    shelf: &mut S,
    instance: &str,
    log: &str,
    limit: Option<u128>,
) -> Result<Reply, NoValue>
    ensures answer { Answers (bounded (store_between S.Shelf shelf.old shelf.new) limit
        instance.now log.now) result }
    ensures full { IsErrOf result NoValue.Room →
        LacksRoom (store_between S.Shelf shelf.old shelf.new) limit instance.now log.now }
    ensures taken { S.taken shelf.new ≤ S.taken shelf.old + (INSTANCE_LIMIT + 1 + (LOG_LIMIT + 1)) }
    ensures contents { (n : List ℕ) → S.contents shelf.new n ≡ S.contents shelf.old n }
{
    match claim_in(alloc, shelf, instance, log) {
        Ok(claim) => judge_claim(alloc, &claim, limit),
        Err(NoValue::Refused(refusal)) => Err(NoValue::Refused(refusal)),
        // No step is judged so far, so that no room is wanting.
        Err(NoValue::Memory | NoValue::Room) => Err(NoValue::Memory),
    }
}
