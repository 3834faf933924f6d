//! Patterns and their breaks.
ghost use Rattle.std.specs.Prelude.{◌≡◌, ◌<◌, ◌≤◌, ◌++◌, ◌==◌, [], ◌∷◌, length, slice_get, Some, IsTrue, OnOk, OnErr};
ghost use Rattle.league.specs.Instance.{is_one_side};
ghost use Rattle.patterns.specs.Pattern.{IsPattern, breaks_in, is_repeat};

use league::Side;
use std::alloc::{AllocError, Global};
use std::marker::Model;

/// Where one team plays, slot by slot: at home or away, in at most 78 slots.
#[derive(Drop)]
pub struct Pattern {
    sides: Vec<Side>,
}

impl Model for Pattern {
    ghost use Rattle.std.specs.Prelude.{List};
    ghost use Rattle.league.specs.declared.class.Side.{Side};
    ghost use Rattle.patterns.specs.Pattern.{IsPattern};

    ghost Value = { List Side };

    ghost view = { λ p. p.sides.items };

    ghost invariant = { λ p. IsPattern p.sides.items };
}

impl Pattern {
    /// A pattern of no slot. It takes no memory.
    pub fn new(alloc: Global) -> Pattern
        ensures { result ≡ [] }
    {
        Pattern {
            sides: Vec::new(alloc),
        }
    }

    /// Adds where the team plays in the next slot: at home or away, and not `Side::Both`.
    ///
    /// # Errors
    /// Only where memory runs out: then the pattern is as it was.
    pub fn push(&mut self, side: Side) -> Result<(), AllocError>
        requires side { IsTrue (is_one_side side) }
        requires room { length self.old < 78 }
        ensures ok { OnOk result (self.new ≡ self.old ++ side ∷ []) }
        ensures err { OnErr result (self.new ≡ self.old) }
    {
        self.sides.push(side)?;
        Ok(())
    }

    /// The number of slots.
    pub fn len(&self) -> usize
        ensures len { result ≡ length self.now }
        ensures pattern { IsPattern self.now }
    {
        self.sides.len()
    }

    /// Whether there is no slot.
    pub fn is_empty(&self) -> bool
        ensures { result ≡ (length self.now == 0) }
    {
        self.sides.is_empty()
    }

    /// Where the team plays in a slot.
    pub fn side(&self, slot: usize) -> Side
        requires { slot < length self.now }
        ensures { slice_get self.now slot ≡ Some result }
    {
        self.sides[slot]
    }
}

/// The breaks of a pattern: its slots, but for the first, in which the team plays where it played in the slot before.
/// It takes no memory.
pub fn breaks_of(pattern: &Pattern) -> u32
    ensures breaks { result ≡ breaks_in pattern.now }
    ensures at_most { result ≤ 77 }
{
    let mut breaks = 0;
    for slot in 1..pattern.len() {
        breaks += u32::from(plays_again(pattern.side(slot - 1), pattern.side(slot)));
    }
    breaks
}

/// Whether a side is that of the slot before.
fn plays_again(before: Side, side: Side) -> bool
    ensures { result ≡ is_repeat before side }
{
    match (before, side) {
        (Side::H, Side::H) | (Side::A, Side::A) => true,
        _ => false,
    }
}
