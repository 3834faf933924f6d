//! The sentence of each class.
ghost use Rattle.std.specs.Prelude.{◌≡◌, ◌<◌, ◌≤◌, length, map, string_bytes, IfOk, IsTrue, Some};
ghost use Rattle.std.specs.List.{All};
ghost use Rattle.league.specs.Instance.{are_meetings, class_fits};
ghost use Rattle.league.specs.declared.class.Class.TheVariants.{Ga1};
ghost use Rattle.season_misses.specs.Demands as demands;
ghost use Rattle.season_misses.specs.Phrases.{bounds_text};
ghost use Rattle.season_misses.specs.Sentences as sentences;

use crate::label::Label;
use crate::lists::listed;
use crate::numbers::{Bare, Bounded, HowMany};
use crate::slots::{all_slots, each_slot, windows};
use crate::teams::{against_teams, all_teams, each_team, name_of, two_teams};
use league::{Bounds, Class, Constraint, PairSet, Side, SlotSet, Span};
use std::alloc::{AllocError, Global};
use std::fmt;

/// A game on a side.
fn game_noun(side: Side) -> &'static str
    ensures { result.now ≡ demands.game_noun side }
{
    match side {
        Side::H => "home game",
        Side::A => "away game",
        Side::Both => "game",
    }
}

/// A break on a side.
fn break_noun(side: Side) -> &'static str
    ensures { result.now ≡ demands.break_noun side }
{
    match side {
        Side::H => "home break",
        Side::A => "away break",
        Side::Both => "break",
    }
}

/// From low to high of something.
fn demanded(min: u32, max: u32, noun: &str) -> Bounded<'_>
    ensures low { result.bounds.min ≡ min }
    ensures high { result.bounds.max ≡ max }
    ensures noun { result.noun.now ≡ noun.now }
{
    let bounds = Bounds { min, max };
    Bounded { bounds, noun }
}

/// The slots of a CA4.
fn span_slots(alloc: Global, n: u16, span: Span, slots: &SlotSet) -> Result<String, AllocError>
    requires { n ≤ 40 }
    ensures { IfOk result (λ text. string_bytes text ≡ demands.span_slots n span slots.now) }
{
    match span {
        Span::Global => all_slots(alloc, n, slots),
        Span::Every => each_slot(alloc, n, slots),
    }
}

/// A game by its meeting.
fn meeting_text(alloc: Global, names: &[Label], meeting: (u16, u16)) -> Result<String, AllocError>
    requires home { meeting.0 < length names.now }
    requires away { meeting.1 < length names.now }
    ensures { IfOk result (λ text. string_bytes text ≡ demands.meeting_text names.now meeting) }
{
    let home = name_of(names, meeting.0);
    let away = name_of(names, meeting.1);
    format!(in alloc; "{home} - {away}")
}

/// The games of some meetings, each as a text.
fn meeting_labels(
    alloc: Global,
    names: &[Label],
    meetings: &[(u16, u16)],
) -> Result<Vec<Label>, AllocError>
    requires { All (λ p. (p.0 < length names.now) × (p.1 < length names.now)) meetings.now }
    ensures { IfOk result (λ labels. labels.items ≡ map (demands.meeting_text names.now) meetings.now) }
{
    let mut labels = Vec::new(alloc);
    for meeting in meetings {
        labels.push(Label::new(meeting_text(alloc, names, *meeting)?))?;
    }
    Ok(labels)
}

/// Whether it is one meeting that is to be there or isn't.
fn is_one(bounds: Bounds, meetings: &[(u16, u16)]) -> bool
    ensures { result ≡ sentences.is_one bounds.min bounds.max meetings.now }
{
    meetings.len() == 1 && bounds.min == bounds.max && bounds.max < 2
}

/// What stands before the slots of a game of which so many are to be there.
fn not_text(max: u32) -> &'static str
    ensures { result.now ≡ sentences.not_text max }
{
    if max == 0 { "not " } else { "" }
}

/// The sentence of a GA1 of some meetings.
fn meetings_text(
    alloc: Global,
    names: &[Label],
    bounds: Bounds,
    meetings: &[(u16, u16)],
    season: &str,
) -> Result<String, AllocError>
    requires { All (λ p. (p.0 < length names.now) × (p.1 < length names.now)) meetings.now }
    ensures { IfOk result (λ text. string_bytes text
        ≡ demands.meetings_text names.now bounds.min bounds.max meetings.now season.now) }
{
    let bare = Bare(bounds);
    if meetings.is_empty() {
        return format!(in alloc; "of no game: {bare} in {season}");
    }
    let labels = meeting_labels(alloc, names, meetings)?;
    let games = listed(alloc, "and", &labels)?;
    if is_one(bounds, meetings) {
        let not = not_text(bounds.max);
        return format!(in alloc; "the game {games}: {not}in {season}");
    }
    format!(in alloc; "of the games {games}: {bare} in {season}")
}

/// The sentence of a GA1.
fn ga1_words(
    alloc: Global,
    names: &[Label],
    bounds: Bounds,
    meetings: &PairSet,
    slots: &SlotSet,
) -> Result<String, AllocError>
    requires few { length names.now ≤ 40 }
    requires meetings { IsTrue (are_meetings (length names.now) meetings.now) }
    ensures { IfOk result (λ text. string_bytes text ≡ demands.demand_text (length names.now) names.now
        (Ga1 meetings.now bounds.min bounds.max slots.now)) }
{
    let season = all_slots(alloc, names.len() as u16, slots)?;
    meetings_text(alloc, names, bounds, meetings.numbers(), &season)
}

/// A number that is shown as how far apart two teams may be.
#[derive(Drop)]
struct Apart(u32);

impl fmt::Display for Apart {
    ghost output = { λ x. Some (demands.apart_text x.0) };

    fn fmt<W: fmt::Write>(&self, f: &mut fmt::Formatter<W>) -> fmt::Result {
        if self.0 == 0 {
            return write!(f, "no home game apart after ");
        }
        let games = HowMany {
            count: u64::from(self.0),
            noun: "home game",
        };
        write!(f, "at most {games} apart after ")
    }
}

/// A number that is shown as how many slots are to be between two games.
#[derive(Drop)]
struct Between(u32);

impl fmt::Display for Between {
    ghost output = { λ x. Some (demands.between_text x.0) };

    fn fmt<W: fmt::Write>(&self, f: &mut fmt::Formatter<W>) -> fmt::Result {
        if self.0 == 0 {
            return write!(f, "any number of slots between their games");
        }
        let slots = HowMany {
            count: u64::from(self.0),
            noun: "slot",
        };
        write!(f, "at least {slots} between their games")
    }
}

/// What a class bounds that bounds a number of games or of breaks.
fn bounded_of(class: &Class) -> Bounded<'static>
    requires { IsTrue (sentences.bounds_many class.now) }
    ensures { bounds_text result.bounds.min result.bounds.max result.noun.now ≡ sentences.what class.now }
{
    match class {
        Class::Ca1 { min, max, side, .. }
        | Class::Ca2 { min, max, side, .. }
        | Class::Ca3 { min, max, side, .. }
        | Class::Ca4 { min, max, side, .. } => demanded(*min, *max, game_noun(*side)),
        Class::Ga1 { min, max, .. } => demanded(*min, *max, "game"),
        Class::Br1 { intp, side, .. } => demanded(0, *intp, break_noun(*side)),
        Class::Br2 { intp, .. } => demanded(0, *intp, "break"),
        _ => unreachable!(),
    }
}

/// A class that is shown as what it demands of its teams.
#[derive(Drop)]
struct Demand<'a>(&'a Class);

impl fmt::Display for Demand<'_> {
    ghost output = { λ x. Some (sentences.what x.0.now) };

    fn fmt<W: fmt::Write>(&self, f: &mut fmt::Formatter<W>) -> fmt::Result {
        match self.0 {
            Class::Fa2 { intp, .. } => {
                let what = Apart(*intp);
                write!(f, "{what}")
            }
            Class::Se1 { min, .. } => {
                let what = Between(*min);
                write!(f, "{what}")
            }
            class => {
                let what = bounded_of(class);
                write!(f, "{what}")
            }
        }
    }
}

/// The teams that a constraint is about; nothing for a GA1.
fn who_text(alloc: Global, names: &[Label], class: &Class) -> Result<String, AllocError>
    requires { IsTrue (class_fits (length names.now) class.now) }
    ensures { IfOk result (λ text. string_bytes text ≡ sentences.who (length names.now) names.now class.now) }
{
    match class {
        Class::Ca1 { teams, .. }
        | Class::Ca2 { teams1: teams, .. }
        | Class::Ca3 { teams1: teams, .. }
        | Class::Br1 { teams, .. } => each_team(alloc, names, teams),
        Class::Ca4 { teams1: teams, .. } | Class::Br2 { teams, .. } => {
            all_teams(alloc, names, teams)
        }
        Class::Fa2 { teams, .. } | Class::Se1 { teams, .. } => two_teams(alloc, names, teams),
        Class::Ga1 { .. } => Ok(String::new(alloc)),
    }
}

/// The teams against which games are counted, where only those against some are.
fn against_text(alloc: Global, names: &[Label], class: &Class) -> Result<String, AllocError>
    requires { IsTrue (class_fits (length names.now) class.now) }
    ensures { IfOk result (λ text. string_bytes text ≡ sentences.against (length names.now) names.now class.now) }
{
    match class {
        Class::Ca2 { teams2, .. } | Class::Ca3 { teams2, .. } | Class::Ca4 { teams2, .. } => {
            against_teams(alloc, names, teams2)
        }
        _ => Ok(String::new(alloc)),
    }
}

/// What stands before the slots of a constraint.
fn link(class: &Class) -> &'static str
    ensures { result.now ≡ sentences.link class.now }
{
    match class {
        Class::Ca3 { .. } | Class::Ga1 { .. } | Class::Fa2 { .. } | Class::Se1 { .. } => "",
        _ => " in ",
    }
}

/// The slots of a constraint of a league of n teams; nothing for a GA1 or an SE1.
fn place_text(alloc: Global, n: u16, class: &Class) -> Result<String, AllocError>
    requires { n ≤ 40 }
    ensures { IfOk result (λ text. string_bytes text ≡ sentences.place n class.now) }
{
    match class {
        Class::Ca1 { slots, .. }
        | Class::Ca2 { slots, .. }
        | Class::Br1 { slots, .. }
        | Class::Br2 { slots, .. } => all_slots(alloc, n, slots),
        Class::Ca3 { intp, .. } => windows(alloc, n, *intp),
        Class::Ca4 { span, slots, .. } => span_slots(alloc, n, *span, slots),
        Class::Fa2 { slots, .. } => each_slot(alloc, n, slots),
        Class::Ga1 { .. } | Class::Se1 { .. } => Ok(String::new(alloc)),
    }
}

/// The sentence of any class but GA1, by its parts.
fn parts_text(alloc: Global, names: &[Label], class: &Class) -> Result<String, AllocError>
    requires few { length names.now ≤ 40 }
    requires fits { IsTrue (class_fits (length names.now) class.now) }
    ensures { IfOk result (λ text. string_bytes text ≡ sentences.parts_text (length names.now) names.now class.now) }
{
    let who = who_text(alloc, names, class)?;
    let what = Demand(class);
    let against = against_text(alloc, names, class)?;
    let link = link(class);
    let place = place_text(alloc, names.len() as u16, class)?;
    format!(in alloc; "{who}: {what}{against}{link}{place}")
}

/// What a constraint demands, in words. The names are those of all teams of the league, by number.
///
/// # Errors
/// Only where memory runs out.
pub fn demand_words(alloc: Global, names: &[Label], class: &Class) -> Result<String, AllocError>
    requires few { length names.now ≤ 40 }
    requires fits { IsTrue (class_fits (length names.now) class.now) }
    ensures { IfOk result (λ text. string_bytes text ≡ demands.demand_text (length names.now) names.now class.now) }
{
    match class {
        Class::Ga1 {
            meetings,
            min,
            max,
            slots,
        } => {
            let (min, max) = (*min, *max);
            ga1_words(alloc, names, Bounds { min, max }, meetings, slots)
        }
        _ => parts_text(alloc, names, class),
    }
}

/// A constraint in words: hard or soft, its number, its class, and what it demands.
///
/// # Errors
/// Only where memory runs out.
pub fn constraint_words(
    alloc: Global,
    names: &[Label],
    number: usize,
    constraint: &Constraint,
) -> Result<String, AllocError>
    requires few { length names.now ≤ 40 }
    requires fits { IsTrue (class_fits (length names.now) constraint.now.class) }
    ensures { IfOk result (λ text. string_bytes text
        ≡ demands.constraint_text (length names.now) names.now number constraint.now) }
{
    let kind = if constraint.hard { "hard" } else { "soft" };
    let class = constraint.class.name().text();
    let demand = demand_words(alloc, names, &constraint.class)?;
    format!(in alloc; "{kind} {number} {class}: {demand}")
}
