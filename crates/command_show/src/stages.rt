//! The stages of `show`.
ghost use Rattle.std.specs.Prelude.{◌≡◌, ◌+◌, ◌≤◌, ℕ, List, Ok, IfOk, codes, length};
ghost use Rattle.robin_io.specs.Outside.{store_between};
ghost use Rattle.robinx.specs.Pieces.{pieces};
ghost use Rattle.robinx.specs.SolutionFile.{solution_of};
ghost use Rattle.robinx.specs.Names.{IsNames};
ghost use Rattle.robinx.specs.NamesFile.{names_of};
ghost use Rattle.answers.specs.SeenReply.{Answers, IsMalformed, MatchStage};
ghost use Rattle.answers.specs.Stages.{says};
ghost use Rattle.command_show.specs.Show as specs;
ghost use Rattle.command_show.specs.Show.{IsShown, shown};

use crate::form::Form;
use crate::judged::shown_reply;
use answers::{NoValue, Reply, file, league_in, malformed, schedule_in};
use league::League;
use robin_io::Shelf;
use robinx::{INSTANCE_LIMIT, Names, ReadFault, SOLUTION_LIMIT, read_names};
use std::alloc::Global;

/// The names that an instance file gives its league.
pub(crate) fn names_in(
    alloc: Global,
    name: &str,
    bytes: &[u8],
    league: &League,
) -> Result<Names, NoValue>
    requires { length bytes.now ≤ INSTANCE_LIMIT }
    ensures says { MatchStage result
        (λ names. names_of league.now.n (pieces bytes.now) ≡ Ok names)
        (IsMalformed (codes "instance") (names_of league.now.n (pieces bytes.now))) }
    ensures counts { IfOk result (IsNames league.now.n) }
{
    match read_names(alloc, bytes, league) {
        Ok(names) => Ok(names),
        Err(ReadFault::Form(fault)) => Err(NoValue::Refused(malformed(
            alloc, "instance", name, bytes, fault.kind, fault.line,
        )?)),
        Err(ReadFault::Mem) => Err(NoValue::Memory),
    }
}

/// Judges what a solution file says by the league, and shows it.
fn show_file(
    alloc: Global,
    name: &str,
    bytes: &[u8],
    league: &League,
    names: &Names,
    form: Form,
) -> Result<Reply, NoValue>
    requires names { IsNames league.now.n names.now }
    requires within { length bytes.now ≤ SOLUTION_LIMIT }
    ensures { Answers
        (says (codes "solution") (solution_of league.now.n (pieces bytes.now))
        (IsShown league.now (specs.form_text form league.now names.now))) result }
{
    let schedule = schedule_in(alloc, name, bytes, league)?;
    Ok(shown_reply(alloc, league, names, schedule, form)?)
}

/// Shows the season of one file, which is judged by the league of the other.
///
/// # Errors
/// Where a file is refused, with the reply that says why, and where memory runs out.
pub fn show<S: Shelf>(
    alloc: Global,
    shelf: &mut S,
    instance: &str,
    solution: &str,
    form: Form,
) -> Result<Reply, NoValue>
    ensures answer { Answers (shown (store_between S.Shelf shelf.old shelf.new)
        instance.now solution.now form) result }
    ensures taken { S.taken shelf.new ≤ S.taken shelf.old + (INSTANCE_LIMIT + 1 + (SOLUTION_LIMIT + 1)) }
    ensures contents { (n : List ℕ) → S.contents shelf.new n ≡ S.contents shelf.old n }
{
    let first = file(alloc, shelf, "instance", instance, INSTANCE_LIMIT)?;
    let bytes = first.as_slice();
    let league = league_in(alloc, instance, bytes)?;
    let names = names_in(alloc, instance, bytes, &league)?;
    let second = file(alloc, shelf, "solution", solution, SOLUTION_LIMIT)?;
    let season = second.as_slice();
    show_file(alloc, solution, season, &league, &names, form)
}
