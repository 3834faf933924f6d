//! The lines of FA2 and SE1.
ghost use Rattle.std.specs.Prelude.{◌≡◌, map, decimal, IfOk, Some, string_bytes};
ghost use Rattle.league.specs.Separation as separation;
ghost use Rattle.season_misses.specs.Lines as lines;

use crate::amounts::Count;
use crate::game_words::games_text;
use crate::label::Label;
use crate::lists::listed;
use crate::numbers::HowMany;
use crate::reason::Cause;
use league::Game;
use std::alloc::{AllocError, Global};
use std::fmt;

/// The slots of games, each as a text.
fn slot_labels(alloc: Global, games: &[Game]) -> Result<Vec<Label>, AllocError>
    ensures { IfOk result (λ labels. labels.items ≡ map (λ g. decimal g.slot.0) games.now) }
{
    let mut labels = Vec::new(alloc);
    for game in games {
        let slot = game.slot.0;
        labels.push(Label::new(format!(in alloc; "{slot}")?))?;
    }
    Ok(labels)
}

/// The slots of games in a row.
fn slots_of_games(alloc: Global, games: &[Game]) -> Result<String, AllocError>
    ensures { IfOk result (λ text. string_bytes text ≡ lines.slots_of_games games.now) }
{
    let labels = slot_labels(alloc, games)?;
    listed(alloc, "and", &labels)
}

/// Where a team played at home too, if it did.
fn played_too(alloc: Global, who: &str, games: &[Game]) -> Result<String, AllocError>
    ensures { IfOk result (λ text. string_bytes text ≡ lines.played_too who.now games.now) }
{
    if games.is_empty() {
        return Ok(String::new(alloc));
    }
    let slots = slots_of_games(alloc, games)?;
    format!(in alloc; "; {who} in {slots}")
}

/// A team with its home games.
#[derive(Clone, Copy)]
struct AtHome<'a> {
    who: &'a str,
    games: &'a [Game],
}

/// Two teams with their home games up to a slot, shown as how many each has.
#[derive(Drop)]
struct Lead<'a> {
    slot: u16,
    more: AtHome<'a>,
    fewer: AtHome<'a>,
}

impl fmt::Display for Lead<'_> {
    ghost output = { λ x. Some (lines.apart_front x.slot x.more.who.now x.more.games.now x.fewer.who.now
        x.fewer.games.now) };

    fn fmt<W: fmt::Write>(&self, f: &mut fmt::Formatter<W>) -> fmt::Result {
        let slot = self.slot;
        let who = self.more.who;
        let other = self.fewer.who;
        let games = HowMany {
            count: self.more.games.len() as u64,
            noun: "home game",
        };
        let count = Count(self.fewer.games.len() as u64);
        write!(f, "after slot {slot} {who} has {games} and {other} {count}")
    }
}

/// Two teams too far apart after a slot, the one with more home games first.
fn apart_line(
    alloc: Global,
    intp: u32,
    slot: u16,
    more: AtHome<'_>,
    fewer: AtHome<'_>,
) -> Result<String, AllocError>
    ensures { IfOk result (λ text. string_bytes text ≡ lines.apart_line intp slot more.entry.who.now
        more.entry.games.now fewer.entry.who.now fewer.entry.games.now) }
{
    let who = more.who;
    let apart = (more.games.len() as u64).saturating_sub(fewer.games.len() as u64);
    let much = apart.saturating_sub(u64::from(intp));
    let lead = Lead { slot, more, fewer };
    let slots = slots_of_games(alloc, more.games)?;
    let too = played_too(alloc, fewer.who, fewer.games)?;
    format!(in alloc; "{lead}, {apart} apart, {much} too many: {who} in {slots}{too}")
}

/// The line on two teams too far apart after a slot.
fn lead_line(
    alloc: Global,
    intp: u32,
    slot: u16,
    one: AtHome<'_>,
    two: AtHome<'_>,
) -> Result<String, AllocError>
    ensures { IfOk result (λ text. string_bytes text ≡ lines.lead_line intp slot one.entry.who.now two.entry.who.now
        one.entry.games.now two.entry.games.now) }
{
    if two.games.len() < one.games.len() {
        apart_line(alloc, intp, slot, one, two)
    } else {
        apart_line(alloc, intp, slot, two, one)
    }
}

/// The line of an FA2.
pub(crate) fn lead_text(
    alloc: Global,
    intp: u32,
    who: &str,
    other: &str,
    cause: &Cause,
) -> Result<String, AllocError>
    ensures { IfOk result (λ text. string_bytes text ≡ lines.lead_text intp who.now other.now cause.now) }
{
    match cause {
        Cause::Lead {
            slot,
            first,
            second,
        } => {
            let games = first.games();
            let others = second.games();
            let one = AtHome { who, games };
            let two = AtHome {
                who: other,
                games: others,
            };
            lead_line(alloc, intp, slot.0, one, two)
        }
        _ => Ok(String::new(alloc)),
    }
}

/// How many slots there are between two games.
fn slots_between(earlier: Game, later: Game) -> u32
    ensures { result ≡ separation.slots_between earlier.slot.0 later.slot.0 }
{
    let apart = later.slot.0.saturating_sub(earlier.slot.0);
    u32::from(apart.saturating_sub(1))
}

/// Two teams that meet again.
fn gap_front(
    alloc: Global,
    who: &str,
    other: &str,
    earlier: Game,
    later: Game,
) -> Result<String, AllocError>
    ensures { IfOk result (λ text. string_bytes text ≡ lines.gap_front who.now other.now earlier later) }
{
    let first = earlier.slot.0;
    let second = later.slot.0;
    format!(in alloc; "{who} and {other} meet in slots {first} and {second}")
}

/// How many slots are between two games, which are too few.
fn gap_back(
    alloc: Global,
    names: &[Label],
    min: u32,
    earlier: Game,
    later: Game,
) -> Result<String, AllocError>
    ensures { IfOk result (λ text. string_bytes text ≡ lines.gap_back names.now min earlier later) }
{
    let between = slots_between(earlier, later);
    let few = min.saturating_sub(between);
    let slots = HowMany {
        count: u64::from(between),
        noun: "slot",
    };
    let list = games_text(alloc, names, &[earlier, later])?;
    format!(in alloc; "{slots} between, {few} too few: {list}")
}

/// The line of an SE1: two teams that meet again too soon.
pub(crate) fn gap_text(
    alloc: Global,
    names: &[Label],
    min: u32,
    who: &str,
    other: &str,
    cause: &Cause,
) -> Result<String, AllocError>
    ensures { IfOk result (λ text. string_bytes text ≡ lines.gap_text names.now min who.now other.now cause.now) }
{
    match cause {
        Cause::Gap { earlier, later } => {
            let front = gap_front(alloc, who, other, *earlier, *later)?;
            let back = gap_back(alloc, names, min, *earlier, *later)?;
            format!(in alloc; "{front}, {back}")
        }
        _ => Ok(String::new(alloc)),
    }
}
