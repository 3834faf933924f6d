//! The nine classes of constraints of the International Timetabling Competition 2021, in the terms of RobinX.
ghost use Rattle.std.specs.Prelude.{◌≡◌, IfOk, IsTrue, codes};
ghost use Rattle.league.specs.Instance.{class_fits, are_teams, are_slots, are_meetings, is_one_side};
ghost use Rattle.league.specs.Names.{name_of, name_text};
ghost use Rattle.league.specs.Shapes.{bounds_of, has_bounds, has_no_side, has_opponents, is_on_a_side};

use crate::pair_set::PairSet;
use crate::slot_set::SlotSet;
use crate::team_set::TeamSet;
use std::alloc::AllocError;

/// Where the games that a constraint counts are played: at home, away, or both.
#[derive(Clone, Copy, Debug, PartialEq, Eq)]
pub enum Side {
    H,
    A,
    Both,
}

/// Whether CA4 bounds all its slots together or each by itself.
#[derive(Clone, Copy, Debug, PartialEq, Eq)]
pub enum Span {
    Global,
    Every,
}

/// How often something may take place: from `min` to `max` times.
#[derive(Clone, Copy)]
pub struct Bounds {
    pub min: u32,
    pub max: u32,
}

/// The name of one of the nine classes.
#[derive(Clone, Copy, Debug, PartialEq, Eq)]
pub enum ClassName {
    Ca1,
    Ca2,
    Ca3,
    Ca4,
    Ga1,
    Br1,
    Br2,
    Fa2,
    Se1,
}

impl ClassName {
    /// The name as RobinX files have it: `CA1` and so on.
    pub fn text(self) -> &'static str
        ensures { result.now ≡ codes (name_text self) }
    {
        match self {
            ClassName::Ca1 => "CA1",
            ClassName::Ca2 => "CA2",
            ClassName::Ca3 => "CA3",
            ClassName::Ca4 => "CA4",
            ClassName::Ga1 => "GA1",
            ClassName::Br1 => "BR1",
            ClassName::Br2 => "BR2",
            ClassName::Fa2 => "FA2",
            ClassName::Se1 => "SE1",
        }
    }
}

/// A constraint's class, with what it speaks of. `specs/Deviation.antt` says what each demands.
#[derive(Drop)]
pub enum Class {
    /// From `min` to `max` games of each team on the side in the slots.
    Ca1 {
        teams: TeamSet,
        min: u32,
        max: u32,
        side: Side,
        slots: SlotSet,
    },
    /// From `min` to `max` games of each of `teams1` against `teams2` in the slots.
    Ca2 {
        teams1: TeamSet,
        teams2: TeamSet,
        min: u32,
        max: u32,
        side: Side,
        slots: SlotSet,
    },
    /// From `min` to `max` games of each of `teams1` against `teams2` in each window of `intp` consecutive slots.
    Ca3 {
        teams1: TeamSet,
        teams2: TeamSet,
        min: u32,
        max: u32,
        intp: u32,
        side: Side,
    },
    /// From `min` to `max` games between `teams1` and `teams2` in the slots, together or each.
    Ca4 {
        teams1: TeamSet,
        teams2: TeamSet,
        min: u32,
        max: u32,
        side: Side,
        span: Span,
        slots: SlotSet,
    },
    /// From `min` to `max` games of the meetings in the slots.
    Ga1 {
        meetings: PairSet,
        min: u32,
        max: u32,
        slots: SlotSet,
    },
    /// At most `intp` breaks of each team at the slots.
    Br1 {
        teams: TeamSet,
        intp: u32,
        side: Side,
        slots: SlotSet,
    },
    /// At most `intp` breaks of all the teams at the slots.
    Br2 {
        teams: TeamSet,
        intp: u32,
        slots: SlotSet,
    },
    /// Home games of each two teams differ by at most `intp` after each of the slots.
    Fa2 {
        teams: TeamSet,
        intp: u32,
        slots: SlotSet,
    },
    /// At least `min` slots between the games of each two teams.
    Se1 {
        teams: TeamSet,
        min: u32,
    },
}

impl Class {
    /// The class's name.
    pub fn name(&self) -> ClassName
        ensures { result ≡ name_of self.now }
    {
        match self {
            Class::Ca1 { .. } => ClassName::Ca1,
            Class::Ca2 { .. } => ClassName::Ca2,
            Class::Ca3 { .. } => ClassName::Ca3,
            Class::Ca4 { .. } => ClassName::Ca4,
            Class::Ga1 { .. } => ClassName::Ga1,
            Class::Br1 { .. } => ClassName::Br1,
            Class::Br2 { .. } => ClassName::Br2,
            Class::Fa2 { .. } => ClassName::Fa2,
            Class::Se1 { .. } => ClassName::Se1,
        }
    }

    /// How often that which it counts may take place, of a class that counts games or breaks: breaks from 0 times on.
    pub fn bounds(&self) -> Bounds
        requires { IsTrue (has_bounds self.now) }
        ensures { result ≡ bounds_of self.now }
    {
        match self {
            Class::Ca1 { min, max, .. }
            | Class::Ca2 { min, max, .. }
            | Class::Ca3 { min, max, .. }
            | Class::Ca4 { min, max, .. }
            | Class::Ga1 { min, max, .. } => Bounds {
                min: *min,
                max: *max,
            },
            Class::Br1 { intp, .. } | Class::Br2 { intp, .. } => Bounds { min: 0, max: *intp },
            Class::Fa2 { .. } | Class::Se1 { .. } => unreachable!(),
        }
    }

    /// An equal class.
    ///
    /// # Errors
    /// Only where memory runs out.
    pub fn copy(&self) -> Result<Class, AllocError>
        ensures { IfOk result (λ copy. copy ≡ self.now) }
    {
        match self {
            Class::Ca1 { .. } | Class::Br1 { .. } => self.copy_on_a_side(),
            Class::Ca2 { .. } | Class::Ca3 { .. } => self.copy_of_opponents(),
            Class::Ca4 {
                teams1,
                teams2,
                min,
                max,
                side,
                span,
                slots,
            } => {
                let (teams1, teams2, slots) = copy_three(teams1, teams2, slots)?;
                Ok(Class::Ca4 {
                    teams1,
                    teams2,
                    min: *min,
                    max: *max,
                    side: *side,
                    span: *span,
                    slots,
                })
            }
            _ => self.copy_without_a_side(),
        }
    }

    /// An equal class, of one that speaks of some teams on a side in some slots.
    fn copy_on_a_side(&self) -> Result<Class, AllocError>
        requires { IsTrue (is_on_a_side self.now) }
        ensures { IfOk result (λ copy. copy ≡ self.now) }
    {
        match self {
            Class::Ca1 {
                teams,
                min,
                max,
                side,
                slots,
            } => {
                let (teams, slots) = copy_two(teams, slots)?;
                Ok(Class::Ca1 {
                    teams,
                    min: *min,
                    max: *max,
                    side: *side,
                    slots,
                })
            }
            Class::Br1 {
                teams,
                intp,
                side,
                slots,
            } => {
                let (teams, slots) = copy_two(teams, slots)?;
                Ok(Class::Br1 {
                    teams,
                    intp: *intp,
                    side: *side,
                    slots,
                })
            }
            _ => unreachable!(),
        }
    }

    /// An equal class, of one that sets teams against teams and has no span.
    fn copy_of_opponents(&self) -> Result<Class, AllocError>
        requires { IsTrue (has_opponents self.now) }
        ensures { IfOk result (λ copy. copy ≡ self.now) }
    {
        match self {
            Class::Ca2 {
                teams1,
                teams2,
                min,
                max,
                side,
                slots,
            } => {
                let (teams1, teams2, slots) = copy_three(teams1, teams2, slots)?;
                Ok(Class::Ca2 {
                    teams1,
                    teams2,
                    min: *min,
                    max: *max,
                    side: *side,
                    slots,
                })
            }
            Class::Ca3 {
                teams1,
                teams2,
                min,
                max,
                intp,
                side,
            } => {
                let (teams1, teams2) = copy_teams(teams1, teams2)?;
                Ok(Class::Ca3 {
                    teams1,
                    teams2,
                    min: *min,
                    max: *max,
                    intp: *intp,
                    side: *side,
                })
            }
            _ => unreachable!(),
        }
    }

    /// An equal class, of one without a side.
    fn copy_without_a_side(&self) -> Result<Class, AllocError>
        requires { IsTrue (has_no_side self.now) }
        ensures { IfOk result (λ copy. copy ≡ self.now) }
    {
        match self {
            Class::Ga1 {
                meetings,
                min,
                max,
                slots,
            } => {
                let slots = slots.copy()?;
                Ok(Class::Ga1 {
                    meetings: meetings.copy()?,
                    min: *min,
                    max: *max,
                    slots,
                })
            }
            Class::Br2 { teams, intp, slots } => {
                let (teams, slots) = copy_two(teams, slots)?;
                let intp = *intp;
                Ok(Class::Br2 { teams, intp, slots })
            }
            Class::Fa2 { teams, intp, slots } => {
                let (teams, slots) = copy_two(teams, slots)?;
                let intp = *intp;
                Ok(Class::Fa2 { teams, intp, slots })
            }
            Class::Se1 { teams, min } => Ok(Class::Se1 {
                teams: teams.copy()?,
                min: *min,
            }),
            _ => unreachable!(),
        }
    }
}

/// Equal sets of teams and of slots. A class is made of copies that are all there, so that no way out holds some.
fn copy_two(teams: &TeamSet, slots: &SlotSet) -> Result<(TeamSet, SlotSet), AllocError>
    ensures teams { IfOk result (λ copies. copies.0 ≡ teams.now) }
    ensures slots { IfOk result (λ copies. copies.1 ≡ slots.now) }
{
    Ok((teams.copy()?, slots.copy()?))
}

/// Equal sets of teams.
fn copy_teams(teams1: &TeamSet, teams2: &TeamSet) -> Result<(TeamSet, TeamSet), AllocError>
    ensures teams1 { IfOk result (λ copies. copies.0 ≡ teams1.now) }
    ensures teams2 { IfOk result (λ copies. copies.1 ≡ teams2.now) }
{
    Ok((teams1.copy()?, teams2.copy()?))
}

/// Equal sets of teams, and of slots.
fn copy_three(
    teams1: &TeamSet,
    teams2: &TeamSet,
    slots: &SlotSet,
) -> Result<(TeamSet, TeamSet, SlotSet), AllocError>
    ensures teams1 { IfOk result (λ copies. copies.0 ≡ teams1.now) }
    ensures teams2 { IfOk result (λ copies. copies.1 ≡ teams2.now) }
    ensures slots { IfOk result (λ copies. copies.2 ≡ slots.now) }
{
    let (teams1, teams2) = copy_teams(teams1, teams2)?;
    Ok((teams1, teams2, slots.copy()?))
}

/// A constraint of a league: hard or soft, with the penalty, of 32 bits, for each unit of its deviation.
pub struct Constraint {
    pub hard: bool,
    pub penalty: u32,
    pub class: Class,
}

impl Drop for Constraint {
    fn drop(self) {
        let Constraint {
            hard: _,
            penalty: _,
            class: _,
        } = self;
    }
}

impl Constraint {
    /// Whether the constraint can stand in a league of n teams: exactly where every team is below n, every slot below
    /// 2(n - 1), no meeting has one team twice, the side of a CA1 isn't `Both`, and the window of a CA3 has a slot.
    pub fn fits(&self, n: u16) -> bool
        ensures { result ≡ class_fits n self.now.class }
    {
        match &self.class {
            Class::Ca1 {
                teams,
                side,
                slots,
                ..
            } => teams.are_below(n) && slots.are_in_season(n) && *side != Side::Both,
            Class::Ca2 {
                teams1,
                teams2,
                slots,
                ..
            }
            | Class::Ca4 {
                teams1,
                teams2,
                slots,
                ..
            } => teams1.are_below(n) && teams2.are_below(n) && slots.are_in_season(n),
            Class::Ca3 {
                teams1,
                teams2,
                intp,
                ..
            } => teams1.are_below(n) && teams2.are_below(n) && *intp > 0,
            Class::Ga1 {
                meetings,
                slots,
                ..
            } => meetings.are_meetings(n) && slots.are_in_season(n),
            Class::Br1 { teams, slots, .. }
            | Class::Br2 { teams, slots, .. }
            | Class::Fa2 { teams, slots, .. } => teams.are_below(n) && slots.are_in_season(n),
            Class::Se1 { teams, .. } => teams.are_below(n),
        }
    }

    /// An equal constraint, with sets of its own. Their memory is from where this one's is.
    ///
    /// # Errors
    /// Only where memory runs out.
    pub fn copy(&self) -> Result<Constraint, AllocError>
        ensures { IfOk result (λ copy. copy ≡ self.now) }
    {
        Ok(Constraint {
            hard: self.hard,
            penalty: self.penalty,
            class: self.class.copy()?,
        })
    }
}
