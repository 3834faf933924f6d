// What an instance file says.
ghost use Rattle.std.specs.Prelude.{◌≡◌, ◌<◌};
ghost use Rattle.std.specs.List.{list_all, range_with_len};
ghost use Rattle.league.specs.Sets.{is_in};
ghost use Rattle.robinx.specs.InstanceFile as instance;
ghost use Rattle.robinx.specs.Answers.{Changes};

use crate::attribute::Attrs;
use crate::classes::constraint_of;
use crate::element::Element;
use crate::reads::Reads;
use crate::tag_fault::{FormKind, Stop};
use crate::values::{number, number_in, only};
use crate::words::game_mode;
use league::{ClassName, Constraint, League, is_team_count, slot_count};
use std::alloc::Global;
use std::marker::Model;

/// The most constraints that a league may have.
const MAX_CONSTRAINTS: usize = 20_000;

/// What was read of an instance. There are `n` teams, or 0 until the End of `Resources`.
#[derive(Drop)]
pub(crate) struct Draft {
    phased: bool,
    teams: Vec<u32>,
    slots: Vec<u32>,
    n: u16,
    constraints: Vec<Constraint>,
}

impl Model for Draft {
    ghost use Rattle.robinx.specs.Drafts.{IsDraft};
    ghost use Rattle.robinx.specs.InstanceFile as instance;

    ghost Value = { instance.Draft };

    ghost view = { λ d. record {
      phased = d.phased;
      teams = d.teams.items;
      slots = d.slots.items;
      n = d.n;
      constraints = d.constraints.items;
    } };

    ghost invariant = { λ d. IsDraft d.n d.teams.items d.constraints.items };
}

/// Whether these ids are those from 0 up, each once.
fn are_ids(ids: &[u32], count: u32) -> bool
    ensures { result ≡ instance.are_ids ids.now (range_with_len 0 count) }
{
    ids.len() == count as usize && contain_all(ids, count)
}

fn contain_all(ids: &[u32], count: u32) -> bool
    ensures { result ≡ list_all (λ id. is_in id ids.now) (range_with_len 0 count) }
{
    for id in 0..count {
        if !contains(ids, id) {
            return false;
        }
    }
    true
}

fn contains(ids: &[u32], id: u32) -> bool
    ensures { result ≡ is_in id ids.now }
{
    ids.iter().any(|known| *known == id)
}

impl Draft {
    /// Nothing yet.
    pub(crate) fn new(alloc: Global) -> Self
        ensures { result ≡ instance.nothing }
    {
        Draft {
            phased: false,
            teams: Vec::new(alloc),
            slots: Vec::new(alloc),
            n: 0,
            constraints: Vec::new(alloc),
        }
    }

    /// Whether there are the teams and the slots of a season.
    fn has_season(&self) -> bool
        ensures { result ≡ instance.is_season self.now.teams self.now.slots }
    {
        let n = self.teams.len();
        if !is_team_count(n as u64) {
            return false;
        }
        let slots = slot_count(n as u16);
        are_ids(&self.teams, n as u32) && are_ids(&self.slots, u32::from(slots))
    }

    fn take_team(&mut self, attrs: &Attrs) -> Result<(), Stop>
        ensures { Changes (instance.with_team attrs.now self.old) result self.new }
    {
        let id = number_in(attrs, b"id")?;
        self.teams.push(id)?;
        Ok(())
    }

    fn take_slot(&mut self, attrs: &Attrs) -> Result<(), Stop>
        ensures { Changes (instance.with_slot attrs.now self.old) result self.new }
    {
        let id = number_in(attrs, b"id")?;
        self.slots.push(id)?;
        Ok(())
    }

    /// The Start of the constraints: the teams and the slots come before it.
    fn begin_constraints(&self) -> Result<(), Stop>
        ensures { Changes (instance.with_season_known self.now) result self.now }
    {
        if self.n == 0 {
            return Err(Stop::Form(FormKind::MissingElement));
        }
        Ok(())
    }

    fn take_game_mode(&mut self, value: &[u8]) -> Result<(), Stop>
        ensures { Changes (instance.with_game_mode value.now self.old) result self.new }
    {
        self.phased = game_mode(value)?;
        Ok(())
    }

    fn take_constraint(
        &mut self,
        alloc: Global,
        class: ClassName,
        attrs: &Attrs,
    ) -> Result<(), Stop>
        ensures { Changes (instance.with_constraint class attrs.now self.old) result self.new }
    {
        if self.constraints.len() >= MAX_CONSTRAINTS {
            return Err(Stop::Form(FormKind::TooMany));
        }
        let constraint = constraint_of(alloc, class, self.n, attrs)?;
        self.constraints.push(constraint)?;
        Ok(())
    }

    /// The End of `Resources`.
    fn take_season(&mut self) -> Result<(), Stop>
        ensures { Changes (instance.with_season self.old) result self.new }
    {
        if !self.has_season() {
            return Err(Stop::Form(FormKind::WrongCounts));
        }
        self.n = self.teams.len() as u16;
        Ok(())
    }

    /// The league, where the teams are known.
    pub(crate) fn into_league(self) -> League
        requires { 0 < self.n }
        ensures { result ≡ instance.league_of self }
    {
        let Draft {
            phased,
            teams: _,
            slots: _,
            n,
            constraints,
        } = self;
        League::new(n, phased, constraints)
    }
}

impl Reads for Draft {
    ghost use Rattle.robinx.specs.InstanceFile as instance;

    ghost meaning = { instance.instance_meaning };

    fn started(&mut self, alloc: Global, element: Element, attrs: &Attrs) -> Result<(), Stop> {
        match element {
            Element::Team => self.take_team(attrs),
            Element::Slot => self.take_slot(attrs),
            Element::Constraints => self.begin_constraints(),
            Element::Class(class) => self.take_constraint(alloc, class, attrs),
            _ => Ok(()),
        }
    }

    fn ended(&mut self, element: Element, value: &[u8]) -> Result<(), Stop> {
        match element {
            Element::NumberRoundRobin => Ok(double(value)?),
            Element::Compactness => Ok(only(value, b"C")?),
            Element::GameMode => self.take_game_mode(value),
            Element::Resources => self.take_season(),
            _ => Ok(()),
        }
    }
}

/// The number of rounds, which has to be 2.
fn double(value: &[u8]) -> Result<(), FormKind>
    ensures { result ≡ instance.double value.now }
{
    if number(value)? != 2 {
        return Err(FormKind::WrongCounts);
    }
    Ok(())
}
