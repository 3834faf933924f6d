//! What a league demands, in words.
ghost use Rattle.std.specs.Prelude.{◌≡◌, ◌+◌, ◌≤◌, ◌++◌, ℕ, List, Some, length, string_bytes, IfOk, IfSome, IsTrue, OnOk};
ghost use Rattle.std.specs.List.{flat_map, range_with_len};
ghost use Rattle.std.specs.Option.{option_copied};
ghost use Rattle.robin_io.specs.Outside.{store_between};
ghost use Rattle.league.specs.Instance.{IsInstance, class_fits};
ghost use Rattle.robinx.specs.Names.{IsNames};
ghost use Rattle.answers.specs.SeenRefusal.{refused_with};
ghost use Rattle.answers.specs.SeenReply.{Answers};
ghost use Rattle.command_show.specs.Demands as specs;
ghost use Rattle.command_show.specs.Demands.{AreDemands, absent_constraint, demanded, demands_answer};
ghost use Rattle.command_show.specs.Show as show;

use crate::stages::names_in;
use crate::texts::labels_of;
use answers::{Advice, NoValue, Refusal, Reply, Status, file, league_in};
use league::{Constraint, League};
use robin_io::Shelf;
use robinx::{INSTANCE_LIMIT, Names};
use season_misses::{Label, constraint_words};
use std::alloc::{AllocError, Global};

/// Adds the line of a constraint with a number, where it is hard, or where it is soft.
fn push_line(
    text: &mut String,
    labels: &[Label],
    hard: bool,
    number: u32,
    constraint: &Constraint,
) -> Result<(), AllocError>
    requires few { length labels.now ≤ 40 }
    requires fits { IsTrue (class_fits (length labels.now) constraint.now.class) }
    ensures { OnOk result (string_bytes text.new ≡ string_bytes text.old
        ++ specs.demand_line (length labels.now) labels.now hard number (Some constraint.now)) }
{
    if constraint.hard == hard {
        let words = constraint_words(*text.allocator(), labels, number as usize, constraint)?;
        write!(text, "{words}\n")?;
    }
    Ok(())
}

/// The constraint with a number: the first of a league has number 1.
fn constraint_numbered(league: &League, number: u32) -> Option<&Constraint>
    ensures constraint { option_copied result ≡ specs.constraint_numbered league.now.constraints number }
    ensures fits { IfSome result (λ constraint. IsTrue (class_fits league.now.n constraint.now.class)) }
    ensures instance { IsInstance league.now }
{
    let _teams = league.n();
    if number == 0 {
        return None;
    }
    league.constraints().get(number as usize - 1)
}

/// Adds the line of the constraint that has the number.
fn push_demand(
    text: &mut String,
    league: &League,
    labels: &[Label],
    hard: bool,
    number: u32,
) -> Result<(), AllocError>
    requires { length labels.now ≡ league.now.n }
    ensures { OnOk result (string_bytes text.new
        ≡ string_bytes text.old ++ specs.demand_at league.now labels.now hard number) }
{
    match constraint_numbered(league, number) {
        Some(constraint) => push_line(text, labels, hard, number, constraint),
        None => Ok(()),
    }
}

/// Adds the lines of the constraints with these numbers that are hard, or those that are soft.
fn push_demands(
    text: &mut String,
    league: &League,
    labels: &[Label],
    hard: bool,
    numbers: &[u32],
) -> Result<(), AllocError>
    requires { length labels.now ≡ league.now.n }
    ensures { OnOk result (string_bytes text.new
        ≡ string_bytes text.old ++ flat_map (specs.demand_at league.now labels.now hard) numbers.now) }
{
    for number in numbers {
        push_demand(text, league, labels, hard, *number)?;
    }
    Ok(())
}

/// The lines of the constraints with these numbers.
fn demands_text(
    alloc: Global,
    league: &League,
    labels: &[Label],
    numbers: &[u32],
) -> Result<String, AllocError>
    requires { length labels.now ≡ league.now.n }
    ensures { IfOk result (λ text. string_bytes text ≡ specs.demands_text league.now labels.now numbers.now) }
{
    let mut text = String::new(alloc);
    push_demands(&mut text, league, labels, true, numbers)?;
    push_demands(&mut text, league, labels, false, numbers)?;
    Ok(text)
}

/// The numbers of so many constraints.
fn all_numbers(alloc: Global, count: usize) -> Result<Vec<u32>, AllocError>
    requires { count ≤ 20000 }
    ensures { IfOk result (λ numbers. numbers.items ≡ range_with_len 1 count) }
{
    let mut numbers = Vec::new(alloc);
    for place in 0..count as u32 {
        numbers.push(place + 1)?;
    }
    Ok(numbers)
}

/// The first of these numbers that no constraint has.
fn first_absent(league: &League, numbers: &[u32]) -> Option<u32>
    ensures { result ≡ specs.first_absent league.now numbers.now }
{
    for number in numbers {
        if constraint_numbered(league, *number).is_none() {
            return Some(*number);
        }
    }
    None
}

/// No constraint has this number.
fn absent_refused(alloc: Global, count: usize, number: u32) -> Result<Refusal, AllocError>
    ensures { IfOk result (refused_with (absent_constraint number)) }
{
    let text = format!(in alloc; "refused constraint {number} Unknown\n")?;
    let reply = Reply {
        status: Status::File,
        text: text.into_bytes(),
    };
    Ok(Refusal::new(alloc, reply, advice_on_number(alloc, count, number)))
}

/// What a person is told of a number that no constraint has.
fn advice_on_number(alloc: Global, count: usize, number: u32) -> Result<Advice, AllocError> {
    let mut advice = Advice::new(alloc);
    advice.say("robin: constraint ")?;
    advice.count(u64::from(number))?;
    advice.say(" isn't there: the league has ")?;
    advice.count(count as u64)?;
    advice.say(" constraints, hard and soft\n")?;
    Ok(advice)
}

/// What the constraints with these numbers demand, or the first number that none has.
fn numbers_reply(
    alloc: Global,
    league: &League,
    names: &Names,
    numbers: &[u32],
) -> Result<Reply, NoValue>
    requires { IsNames league.now.n names.now }
    ensures { Answers (λ answer. answer ≡ demands_answer league.now (show.labels_of league.now.n names.now)
        numbers.now (specs.first_absent league.now numbers.now)) result }
{
    if let Some(number) = first_absent(league, numbers) {
        let count = league.constraints().len();
        return Err(NoValue::Refused(absent_refused(alloc, count, number)?));
    }
    let labels = labels_of(alloc, names, league.n())?;
    let text = demands_text(alloc, league, &labels, numbers)?;
    Ok(Reply {
        status: Status::Yes,
        text: text.into_bytes(),
    })
}

/// What the constraints demand that are asked for: those with some numbers, or all.
fn asked_reply(
    alloc: Global,
    league: &League,
    names: &Names,
    asked: Option<&[u32]>,
) -> Result<Reply, NoValue>
    requires { IsNames league.now.n names.now }
    ensures { Answers (AreDemands league.now (option_copied asked.entry) names.now) result }
{
    let _teams = league.n();
    match asked {
        Some(numbers) => numbers_reply(alloc, league, names, numbers),
        None => {
            let numbers = all_numbers(alloc, league.constraints().len())?;
            numbers_reply(alloc, league, names, &numbers)
        }
    }
}

/// Says in words what the constraints of the league of a file demand: those with some numbers, or all.
/// Names the first number that no constraint has.
///
/// # Errors
/// Where a file is refused, or a number, with the reply that says why, and where memory runs out.
pub fn demands<S: Shelf>(
    alloc: Global,
    shelf: &mut S,
    instance: &str,
    asked: Option<&[u32]>,
) -> Result<Reply, NoValue>
    ensures answer { Answers (demanded (store_between S.Shelf shelf.old shelf.new)
        instance.now (option_copied asked.entry)) result }
    ensures taken { S.taken shelf.new ≤ S.taken shelf.old + (INSTANCE_LIMIT + 1) }
    ensures contents { (n : List ℕ) → S.contents shelf.new n ≡ S.contents shelf.old n }
{
    let first = file(alloc, shelf, "instance", instance, INSTANCE_LIMIT)?;
    let bytes = first.as_slice();
    let league = league_in(alloc, instance, bytes)?;
    let names = names_in(alloc, instance, bytes, &league)?;
    asked_reply(alloc, &league, &names, asked)
}
