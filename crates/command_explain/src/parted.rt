//! The stages of `part`.
ghost use Rattle.std.specs.Prelude.{◌≡◌, ◌≤◌, ◌+◌, ℕ, List, IfOk, Ok};
ghost use Rattle.std.specs.Ordering.{nat_cmp};
ghost use Rattle.robin_io.specs.Outside.{store_between};
ghost use Rattle.league.specs.Sets.{IsAscending};
ghost use Rattle.robinx.specs.InstanceFile.{instance_of};
ghost use Rattle.robinx.specs.Texts as forms;
ghost use Rattle.robinx.specs.Pieces.{pieces};
ghost use Rattle.answers.specs.SeenRefusal.{refused_with};
ghost use Rattle.answers.specs.SeenReply.{answer_of, Answers};
ghost use Rattle.answers.specs.declared.status.Status.TheVariants.{Yes};
ghost use Rattle.command_explain.specs.Parted.{IsPart, parted, unknown_constraint};

use answers::{Advice, NoValue, Refusal, Reply, Status, file, league_in};
use explain::{PartFault, part};
use league::League;
use robin_io::Shelf;
use robinx::{INSTANCE_LIMIT, instance_text};
use std::alloc::{AllocError, Global};

/// A league, as an instance file.
fn league_reply(alloc: Global, league: &League) -> Result<Reply, AllocError>
    ensures status { IfOk result (λ reply. (answer_of reply).status ≡ Yes) }
    ensures text { IfOk result (λ reply. (answer_of reply).text ≡ forms.instance_text league.now) }
    ensures reads_back { IfOk result (λ reply. instance_of (pieces (answer_of reply).text) ≡ Ok league.now) }
{
    let text = instance_text(alloc, league)?;
    Ok(Reply {
        status: Status::Yes,
        text,
    })
}

/// No hard constraint has this number.
fn unknown_refused(alloc: Global, league: &League, number: u32) -> Result<Refusal, AllocError>
    ensures { IfOk result (refused_with (unknown_constraint number)) }
{
    let text = format!(in alloc; "refused constraint {number} Unknown\n")?;
    let reply = Reply {
        status: Status::File,
        text: text.into_bytes(),
    };
    Ok(Refusal::new(alloc, reply, advice_on_number(alloc, league, number)))
}

/// What a person is told of a number that isn't a hard constraint's.
fn advice_on_number(alloc: Global, league: &League, number: u32) -> Result<Advice, AllocError> {
    let mut advice = Advice::new(alloc);
    say_unknown(&mut advice, league.constraints().len(), number)?;
    Ok(advice)
}

/// Tells that the constraint with a number is soft, or isn't among so many.
fn say_unknown(advice: &mut Advice, count: usize, number: u32) -> Result<(), AllocError> {
    advice.say("robin: constraint ")?;
    advice.count(u64::from(number))?;
    if number as usize <= count {
        return advice.say(" is soft, and a part has hard ones alone\n");
    }
    advice.say(" isn't there: the league has ")?;
    advice.count(count as u64)?;
    advice.say(" constraints, hard and soft\n")
}

/// The league of some hard constraints of a league, or which number isn't one's.
fn part_reply(alloc: Global, league: &League, members: &[u32]) -> Result<Reply, NoValue>
    requires ascending { IsAscending nat_cmp members.now }
    ensures { Answers (IsPart league.now members.now) result }
{
    match part(alloc, league, members) {
        Ok(part) => Ok(league_reply(alloc, &part)?),
        Err(PartFault::UnknownConstraint { number }) => {
            Err(NoValue::Refused(unknown_refused(alloc, league, number)?))
        }
        Err(PartFault::Mem) => Err(NoValue::Memory),
    }
}

/// Makes the league of some hard constraints of the league of a file, by their numbers, and its text; or names the
/// first number that no hard constraint has.
///
/// # Errors
/// Where a file is refused, with the reply that says why, and where memory runs out.
pub fn part_file<S: Shelf>(
    alloc: Global,
    shelf: &mut S,
    instance: &str,
    members: &[u32],
) -> Result<Reply, NoValue>
    requires ascending { IsAscending nat_cmp members.now }
    ensures answer { Answers (parted (store_between S.Shelf shelf.old shelf.new)
        instance.now members.now) result }
    ensures taken { S.taken shelf.new ≤ S.taken shelf.old + (INSTANCE_LIMIT + 1) }
    ensures contents { (n : List ℕ) → S.contents shelf.new n ≡ S.contents shelf.old n }
{
    let bytes = file(alloc, shelf, "instance", instance, INSTANCE_LIMIT)?;
    let league = league_in(alloc, instance, &bytes)?;
    part_reply(alloc, &league, members)
}
