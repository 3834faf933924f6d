//! What a part of a constraint measures.

use crate::lists::set_at;
use crate::plays::{Plays, ROW};
use league::{Class, Constraint};
use std::alloc::{AllocError, Global};

/// What a part measures: its deviation follows from it.
#[derive(Drop)]
pub(crate) enum Measure {
    /// A number that is to be from `min` to `max`.
    Count {
        min: u32,
        max: u32,
    },
    /// By how many home games two teams are apart after the slots whose mask is 255: at most so many.
    Lead {
        first: u16,
        second: u16,
        most: u32,
        mask: Vec<u8>,
    },
    /// How many slots are between the games of two teams: at least so many.
    Gap {
        first: u16,
        second: u16,
        least: u32,
    },
    /// Nothing: the part doesn't fit the league, or isn't one that is made.
    Nothing,
}

impl Measure {
    /// What a part measures in a league of n teams.
    ///
    /// # Errors
    /// Only where memory runs out.
    pub(crate) fn of(alloc: Global, n: u16, part: &Constraint) -> Result<Measure, AllocError> {
        if !part.fits(n) {
            return Ok(Measure::Nothing);
        }
        let measure = match &part.class {
            Class::Ca1 { min, max, .. }
            | Class::Ca2 { min, max, .. }
            | Class::Ca4 { min, max, .. }
            | Class::Ga1 { min, max, .. } => Measure::Count {
                min: *min,
                max: *max,
            },
            Class::Br1 { intp, .. } | Class::Br2 { intp, .. } => Measure::Count {
                min: 0,
                max: *intp,
            },
            Class::Fa2 { teams, intp, slots } => {
                lead_of(alloc, teams.numbers(), *intp, slots.numbers())?
            }
            Class::Se1 { teams, min } => gap_of(teams.numbers(), *min),
            Class::Ca3 { .. } => Measure::Nothing,
        };
        Ok(measure)
    }

    /// By how much a part isn't met: for a count where it is this one.
    pub(crate) fn deviation(&self, count: u32, plays: &Plays) -> u64 {
        match self {
            Measure::Count { min, max } => {
                let lacking = min.saturating_sub(count);
                u64::from(lacking.max(count.saturating_sub(*max)))
            }
            Measure::Lead {
                first,
                second,
                most,
                mask,
            } => {
                let lead = u32::from(plays.lead(*first, *second, mask));
                u64::from(lead.saturating_sub(*most))
            }
            Measure::Gap {
                first,
                second,
                least,
            } => {
                let one = plays.slot_of(*first, *second);
                let other = plays.slot_of(*second, *first);
                let between = u32::from(one.abs_diff(other)).saturating_sub(1);
                u64::from(least.saturating_sub(between))
            }
            Measure::Nothing => 0,
        }
    }
}

/// By how many home games the two teams of a part are apart after these slots.
///
/// # Errors
/// Only where memory runs out.
fn lead_of(alloc: Global, teams: &[u16], most: u32, slots: &[u16]) -> Result<Measure, AllocError> {
    let [first, second] = teams else {
        return Ok(Measure::Nothing);
    };
    let mut mask = vec![in alloc; 0; ROW]?;
    for slot in slots {
        set_at(&mut mask, usize::from(*slot), 255);
    }
    Ok(Measure::Lead {
        first: *first,
        second: *second,
        most,
        mask,
    })
}

/// How many slots are between the games of a part's two teams.
fn gap_of(teams: &[u16], least: u32) -> Measure {
    let [first, second] = teams else {
        return Measure::Nothing;
    };
    Measure::Gap {
        first: *first,
        second: *second,
        least,
    }
}
