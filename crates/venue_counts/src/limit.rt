//! Which bound of a CA1 is counted.
ghost use Rattle.std.specs.Prelude.{◌≡◌, ◌≤◌, ◌^◌, ◌<◌};
ghost use Rattle.venue_counts.specs.Needs as needs;

use league::Side;

/// A bound of a CA1.
#[derive(Clone, Copy)]
pub(crate) enum Limit {
    /// At most so many games on the side: in the other slots a team needs games on the other side.
    Most,
    /// At least so many games on the side: a team needs these.
    Least,
}

impl Limit {
    /// How many games a team needs by a CA1 of so many slots: on the other side, or on the side itself.
    pub(crate) fn need(self, min: u32, max: u32, slots: u32) -> u32
        ensures { result ≡ needs.own_need self min max slots }
    {
        match self {
            Limit::Most => slots.saturating_sub(max),
            Limit::Least => min,
        }
    }

    /// Whether the slots' games at home are set against what the teams need: else those away.
    pub(crate) fn counts_home(self, side: Side) -> bool
        ensures { result ≡ needs.counts_home self side }
    {
        match self {
            Limit::Most => side == Side::H,
            Limit::Least => side == Side::A,
        }
    }
}
