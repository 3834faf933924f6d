//! The answers of `patterns`.
ghost use Rattle.std.specs.Prelude.{◌≡◌, ◌≤◌, false, IfOk, Ok};
ghost use Rattle.std.specs.List.{All};
ghost use Rattle.answers.specs.SeenReply.{answer_of};
ghost use Rattle.answers.specs.declared.status.Status.TheVariants.{Yes};
ghost use Rattle.clause_search.specs.News.{IsTidy};
ghost use Rattle.refutation.specs.Logs.{log_of};
ghost use Rattle.refutation.specs.Steps.{is_linear};
ghost use Rattle.refutation.specs.Texts as logs;
ghost use Rattle.encoding.specs.Limit.{most_terms};
ghost use Rattle.encoding.specs.Encoding.{encoding_size};
ghost use Rattle.break_counts.specs.BreakCounts.{are_few};
ghost use Rattle.command_solve.specs.Patterns as texts;
ghost use Rattle.command_solve.specs.Patterns.{AreFound, AreSearched};

use crate::pattern_lines::patterns_text;
use crate::solve_replies;
use answers::{Reply, Status};
use break_counts::{break_count, break_sum};
use clause_search::tidy_text;
use encoding::Encoding;
use league::League;
use league_search::{PatternFound, pattern_set};
use patterns::PatternSet;
use refutation::Log;
use std::alloc::{AllocError, Global};

/// Patterns.
fn patterns_reply(alloc: Global, patterns: &PatternSet) -> Result<Reply, AllocError>
    ensures status { IfOk result (λ reply. (answer_of reply).status ≡ Yes) }
    ensures text { IfOk result (λ reply. (answer_of reply).text ≡ texts.patterns_text patterns.now) }
{
    let text = patterns_text(alloc, patterns)?;
    Ok(Reply {
        status: Status::Yes,
        text,
    })
}

/// A log, as the answer of this status.
fn log_reply(alloc: Global, status: Status, log: &Log) -> Result<Reply, AllocError>
    requires tidy { All (IsTidy 130960) log.now }
    requires clauses { All (λ step. is_linear step ≡ false) log.now }
    ensures status { IfOk result (λ reply. (answer_of reply).status ≡ status) }
    ensures text { IfOk result (λ reply. (answer_of reply).text ≡ logs.log_text log.now) }
    ensures reads_back { IfOk result (λ reply. log_of (answer_of reply).text ≡ Ok log.now) }
{
    let text = tidy_text(alloc, log)?;
    Ok(Reply { status, text })
}

/// What is found of a league's patterns: where one hard constraint allows its teams too few breaks, a log that counts
/// them.
pub(crate) fn found_reply(
    alloc: Global,
    league: &League,
    encoding: &Encoding,
    conflicts: Option<u64>,
) -> Result<Reply, AllocError>
    requires same { encoding.now ≡ league.now }
    requires small { encoding_size league.now ≤ most_terms }
    ensures { IfOk result (λ reply. AreFound league.now conflicts (answer_of reply)) }
{
    let counted = break_count(alloc, league)?;
    match counted {
        Some(log) => solve_replies::log_reply(alloc, Status::Refuted, &log),
        None => added_reply(alloc, league, encoding, conflicts),
    }
}

/// What is found of the patterns of a league each of whose hard constraints allows enough breaks: where some allow too
/// few together, a log that counts them.
fn added_reply(
    alloc: Global,
    league: &League,
    encoding: &Encoding,
    conflicts: Option<u64>,
) -> Result<Reply, AllocError>
    requires same { encoding.now ≡ league.now }
    requires small { encoding_size league.now ≤ most_terms }
    requires enough { are_few league.now ≡ false }
    ensures { IfOk result (λ reply. AreFound league.now conflicts (answer_of reply)) }
{
    let added = break_sum(alloc, league)?;
    match added {
        Some(sum) => solve_replies::log_reply(alloc, Status::Refuted, &sum),
        None => searched_reply(alloc, encoding, conflicts),
    }
}

/// What a search for a league's patterns finds within this budget.
fn searched_reply(
    alloc: Global,
    encoding: &Encoding,
    conflicts: Option<u64>,
) -> Result<Reply, AllocError>
    ensures { IfOk result (λ reply. AreSearched encoding.now conflicts (answer_of reply)) }
{
    let _vars = encoding.vars();
    match pattern_set(alloc, encoding, conflicts)? {
        PatternFound::Patterns(patterns) => patterns_reply(alloc, &patterns),
        PatternFound::Refuted(log) => log_reply(alloc, Status::Refuted, &log),
        PatternFound::Spent(log) => log_reply(alloc, Status::Spent, &log),
    }
}
