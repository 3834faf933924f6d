//! The names that an instance file gives, as its elements come.
ghost use Rattle.std.specs.Prelude.{◌≡◌, ◌≤◌, [], IfOk, map, replicate, slice_set, string_bytes};
ghost use Rattle.robinx.specs.Plain.{IsPlain};
ghost use Rattle.robinx.specs.NamesFile as file;
ghost use Rattle.robinx.specs.Answers.{Changes};

use crate::attribute::Attrs;
use crate::element::Element;
use crate::reads::Reads;
use crate::tag_fault::Stop;
use crate::values::number_in;
use crate::{Names, plain_name};
use league::slot_count;
use std::alloc::{AllocError, Global};
use std::marker::Model;

/// The names of teams and slots by their numbers, as far as they were read.
#[derive(Drop)]
pub(crate) struct Roll {
    teams: Vec<String>,
    slots: Vec<String>,
}

impl Model for Roll {
    ghost use Rattle.std.specs.Prelude.{map, string_bytes};
    ghost use Rattle.robinx.specs.Names as names;

    ghost Value = { names.Names };

    ghost view = { λ r. record { teams = map string_bytes r.teams.items; slots = map string_bytes r.slots.items } };

    ghost invariant = { λ r. names.ArePlain
        (record { teams = map string_bytes r.teams.items; slots = map string_bytes r.slots.items }) };
}

/// A list of so many empty names.
fn unnamed(alloc: Global, count: u16) -> Result<Vec<String>, AllocError>
    ensures { IfOk result (λ names. map string_bytes names.items ≡ replicate count []) }
{
    let mut names = Vec::new(alloc);
    for _place in 0..count {
        names.push(String::new(alloc))?;
    }
    Ok(names)
}

/// The name in an attribute, which is empty where the attribute is absent.
fn named_by(alloc: Global, attrs: &Attrs, attribute: &[u8]) -> Result<String, AllocError>
    ensures value { IfOk result (λ name. string_bytes name ≡ file.named_by attribute.now attrs.now) }
    ensures plain { IfOk result (λ name. IsPlain (string_bytes name)) }
{
    match attrs.get(attribute) {
        Some(value) => plain_name(alloc, value),
        None => plain_name(alloc, b""),
    }
}

/// The name that a tag gives: the public one, or else the other.
fn name_in(alloc: Global, attrs: &Attrs) -> Result<String, AllocError>
    ensures value { IfOk result (λ name. string_bytes name ≡ file.name_in attrs.now) }
    ensures plain { IfOk result (λ name. IsPlain (string_bytes name)) }
{
    let public = named_by(alloc, attrs, b"publicName")?;
    if public.is_empty() {
        return named_by(alloc, attrs, b"name");
    }
    Ok(public)
}

/// Gives a name to what has this number, if there is such a thing.
fn put(names: &mut Vec<String>, number: u32, name: String)
    ensures { map string_bytes names.new.items
        ≡ slice_set (map string_bytes names.old.items) number (string_bytes name) }
{
    let place = number as usize;
    if place < names.len() {
        names[place] = name;
    }
}

impl Roll {
    /// No names for the teams and the slots of a league of n teams.
    pub(crate) fn new(alloc: Global, n: u16) -> Result<Roll, AllocError>
        requires { n ≤ 40 }
        ensures { IfOk result (λ roll. roll ≡ file.nameless n) }
    {
        let teams = unnamed(alloc, n)?;
        let slots = unnamed(alloc, slot_count(n))?;
        Ok(Roll { teams, slots })
    }

    fn take_team(&mut self, alloc: Global, attrs: &Attrs) -> Result<(), Stop>
        ensures { Changes (file.with_team attrs.now self.old) result self.new }
    {
        let id = number_in(attrs, b"id")?;
        let name = name_in(alloc, attrs)?;
        put(&mut self.teams, id, name);
        Ok(())
    }

    fn take_slot(&mut self, alloc: Global, attrs: &Attrs) -> Result<(), Stop>
        ensures { Changes (file.with_slot attrs.now self.old) result self.new }
    {
        let id = number_in(attrs, b"id")?;
        let name = name_in(alloc, attrs)?;
        put(&mut self.slots, id, name);
        Ok(())
    }

    /// The names.
    ///
    /// # Errors
    /// Only where memory runs out.
    pub(crate) fn into_names(self, alloc: Global) -> Result<Names, AllocError>
        ensures { IfOk result (λ names. names ≡ self) }
    {
        let Roll { teams, slots } = self;
        Names::new(alloc, teams, slots)
    }
}

impl Reads for Roll {
    ghost use Rattle.robinx.specs.NamesFile as file;

    ghost meaning = { file.names_meaning };

    fn started(&mut self, alloc: Global, element: Element, attrs: &Attrs) -> Result<(), Stop> {
        match element {
            Element::Team => self.take_team(alloc, attrs),
            Element::Slot => self.take_slot(alloc, attrs),
            _ => Ok(()),
        }
    }

    fn ended(&mut self, _element: Element, _value: &[u8]) -> Result<(), Stop> {
        Ok(())
    }
}
