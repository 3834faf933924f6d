//! How many.
ghost use Rattle.std.specs.Prelude.{Some};
ghost use Rattle.season_misses.specs.Phrases as phrases;

use league::Bounds;
use std::fmt;

/// So many of something, shown as `no game`, `1 game`, `2 games`.
#[derive(Drop)]
pub(crate) struct HowMany<'a> {
    pub(crate) count: u64,
    pub(crate) noun: &'a str,
}

impl fmt::Display for HowMany<'_> {
    ghost output = { λ x. Some (phrases.many x.count x.noun.now) };

    fn fmt<W: fmt::Write>(&self, f: &mut fmt::Formatter<W>) -> fmt::Result {
        let noun = self.noun;
        match self.count {
            0 => write!(f, "no {noun}"),
            1 => write!(f, "1 {noun}"),
            count => write!(f, "{count} {noun}s"),
        }
    }
}

/// From low to high of something.
#[derive(Drop)]
pub(crate) struct Bounded<'a> {
    pub(crate) bounds: Bounds,
    pub(crate) noun: &'a str,
}

impl fmt::Display for Bounded<'_> {
    ghost output = { λ x. Some (phrases.bounds_text x.bounds.min x.bounds.max x.noun.now) };

    fn fmt<W: fmt::Write>(&self, f: &mut fmt::Formatter<W>) -> fmt::Result {
        let low = self.bounds.min;
        let high = self.bounds.max;
        let most = HowMany {
            count: u64::from(high),
            noun: self.noun,
        };
        if high < low {
            return write!(f, "at least {low} and at most {most}, which can't both be,");
        }
        if high == 0 {
            return write!(f, "{most}");
        }
        if low == high {
            return write!(f, "exactly {most}");
        }
        if low == 0 {
            return write!(f, "at most {most}");
        }
        write!(f, "from {low} to {most}")
    }
}

/// From low to high of what was told before.
#[derive(Drop)]
pub(crate) struct Bare(pub(crate) Bounds);

impl fmt::Display for Bare {
    ghost output = { λ x. Some (phrases.bare_bounds_text x.0.min x.0.max) };

    fn fmt<W: fmt::Write>(&self, f: &mut fmt::Formatter<W>) -> fmt::Result {
        let low = self.0.min;
        let high = self.0.max;
        if high < low {
            return write!(f, "at least {low} and at most {high}, which can't both be,");
        }
        if high == 0 {
            return write!(f, "none");
        }
        if low == high {
            return write!(f, "exactly {high}");
        }
        if low == 0 {
            return write!(f, "at most {high}");
        }
        write!(f, "from {low} to {high}")
    }
}
