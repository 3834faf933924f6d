//! Numbers in words, and by how much they are beyond a bound.
ghost use Rattle.std.specs.Prelude.{◌≡◌, ◌≤◌, ◌<◌, ◌^◌, IfOk, Some, string_bytes};
ghost use Rattle.season_misses.specs.Amounts as amounts;

use crate::numbers::HowMany;
use league::{Bounds, slot_count};
use std::alloc::{AllocError, Global};
use std::fmt;

/// A number that is shown as `none`, or as the number.
#[derive(Drop)]
pub(crate) struct Count(pub(crate) u64);

impl fmt::Display for Count {
    ghost output = { λ x. Some (amounts.count_text x.0) };

    fn fmt<W: fmt::Write>(&self, f: &mut fmt::Formatter<W>) -> fmt::Result {
        let count = self.0;
        if count == 0 {
            return write!(f, "none");
        }
        write!(f, "{count}")
    }
}

/// A number that is shown as `there is none`, `there is 1`, `there are 2`.
#[derive(Drop)]
pub(crate) struct There(pub(crate) u64);

impl fmt::Display for There {
    ghost output = { λ x. Some (amounts.there_text x.0) };

    fn fmt<W: fmt::Write>(&self, f: &mut fmt::Formatter<W>) -> fmt::Result {
        let count = self.0;
        if count < 2 {
            let number = Count(count);
            return write!(f, "there is {number}");
        }
        write!(f, "there are {count}")
    }
}

/// A number that is outside of two bounds, shown as by how much, and on which side.
#[derive(Drop)]
pub(crate) struct Beyond {
    pub(crate) bounds: Bounds,
    pub(crate) count: u64,
}

impl fmt::Display for Beyond {
    ghost output = { λ x. Some (amounts.beyond_text x.bounds.min x.bounds.max x.count) };

    fn fmt<W: fmt::Write>(&self, f: &mut fmt::Formatter<W>) -> fmt::Result {
        let few = u64::from(self.bounds.min).saturating_sub(self.count);
        let much = self.count.saturating_sub(u64::from(self.bounds.max));
        if much <= few {
            return write!(f, "{few} too few");
        }
        write!(f, "{much} too many")
    }
}

/// So many slots in a row, from one on, in a league of n teams.
pub(crate) fn stretch_text(
    alloc: Global,
    n: u16,
    first: u16,
    count: u128,
) -> Result<String, AllocError>
    requires teams { n ≤ 40 }
    requires few { count < 2 ^ 66 }
    ensures { IfOk result (λ text. string_bytes text ≡ amounts.stretch_text n first count) }
{
    if count == u128::from(slot_count(n)) {
        return String::from_str(alloc, "the whole season");
    }
    if count == 1 {
        return format!(in alloc; "slot {first}");
    }
    if count == 2 {
        let second = u32::from(first) + 1;
        return format!(in alloc; "slots {first} and {second}");
    }
    let last = (u128::from(first) + count).saturating_sub(1);
    format!(in alloc; "slots {first} to {last}")
}

/// Windows of so many slots, one and some more, shown as how many they are where they are several.
#[derive(Drop)]
pub(crate) struct Runs {
    pub(crate) more: usize,
    pub(crate) intp: u32,
}

impl fmt::Display for Runs {
    ghost output = { λ x. Some (amounts.windows_text x.more x.intp) };

    fn fmt<W: fmt::Write>(&self, f: &mut fmt::Formatter<W>) -> fmt::Result {
        if self.more == 0 {
            return Ok(());
        }
        let windows = self.more as u128 + 1;
        let count = u64::from(self.intp);
        let slots = HowMany {
            count,
            noun: "slot",
        };
        write!(f, " in each of {windows} runs of {slots}")
    }
}
