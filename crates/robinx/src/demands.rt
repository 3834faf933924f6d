// What the nine classes demand, beside their sets: their numbers and words, from the attributes of their tags.
ghost use Rattle.std.specs.Prelude.{◌≡◌, ◌<◌, true, IfOk};
ghost use Rattle.league.specs.Instance.{is_one_side};
ghost use Rattle.robinx.specs.Demands as demands;

use crate::attribute::Attrs;
use crate::tag_fault::FormKind;
use crate::values::{above_zero_in, number_in, number_or, only_or_none};
use crate::words::{home_or_away_in, side_in, span_in};
use league::{Side, Span};

/// The bounds of a capacity class, of which the lower one is 0 where it is absent.
fn bounds_in(tag: &Attrs) -> Result<(u32, u32), FormKind>
    ensures { result ≡ demands.bounds tag.now }
{
    let min = number_or(tag, b"min", 0)?;
    let max = number_in(tag, b"max")?;
    Ok((min, max))
}

/// The bounds of a CA2, CA3 or CA4, and its side.
fn bounds_on_side_in(tag: &Attrs) -> Result<(u32, u32, Side), FormKind>
    ensures { result ≡ demands.bounds_on_side tag.now }
{
    let (min, max) = bounds_in(tag)?;
    let side = side_in(tag, b"mode1")?;
    Ok((min, max, side))
}

/// A CA1's bounds, and its side, which isn't both.
pub(crate) fn ca1_in(tag: &Attrs) -> Result<(u32, u32, Side), FormKind>
    ensures value { result ≡ demands.ca1 tag.now }
    ensures one_side { IfOk result (λ games. is_one_side games.2 ≡ true) }
{
    let (min, max) = bounds_in(tag)?;
    let side = home_or_away_in(tag, b"mode")?;
    Ok((min, max, side))
}

/// A CA2's bounds, and its side.
pub(crate) fn ca2_in(tag: &Attrs) -> Result<(u32, u32, Side), FormKind>
    ensures { result ≡ demands.ca2 tag.now }
{
    let games = bounds_on_side_in(tag)?;
    only_or_none(tag, b"mode2", b"GLOBAL")?;
    Ok(games)
}

/// A CA3's bounds, its side, and the length of its windows, which isn't 0.
pub(crate) fn ca3_in(tag: &Attrs) -> Result<(u32, u32, Side, u32), FormKind>
    ensures value { result ≡ demands.ca3 tag.now }
    ensures some { IfOk result (λ games. 0 < games.3) }
{
    let (min, max, side) = bounds_on_side_in(tag)?;
    only_or_none(tag, b"mode2", b"SLOTS")?;
    let intp = above_zero_in(tag, b"intp")?;
    Ok((min, max, side, intp))
}

/// A CA4's bounds, its side, and whether they bound its slots together or each.
pub(crate) fn ca4_in(tag: &Attrs) -> Result<(u32, u32, Side, Span), FormKind>
    ensures { result ≡ demands.ca4 tag.now }
{
    let (min, max, side) = bounds_on_side_in(tag)?;
    let span = span_in(tag, b"mode2")?;
    Ok((min, max, side, span))
}

/// A GA1's lower bound and upper bound.
pub(crate) fn ga1_in(tag: &Attrs) -> Result<(u32, u32), FormKind>
    ensures { result ≡ demands.ga1 tag.now }
{
    let min = number_in(tag, b"min")?;
    let max = number_in(tag, b"max")?;
    Ok((min, max))
}

/// A BR1's upper bound, and its side.
pub(crate) fn br1_in(tag: &Attrs) -> Result<(u32, Side), FormKind>
    ensures { result ≡ demands.br1 tag.now }
{
    let intp = number_in(tag, b"intp")?;
    only_or_none(tag, b"mode1", b"LEQ")?;
    let side = side_in(tag, b"mode2")?;
    Ok((intp, side))
}

/// A BR2's upper bound.
pub(crate) fn br2_in(tag: &Attrs) -> Result<u32, FormKind>
    ensures { result ≡ demands.br2 tag.now }
{
    let intp = number_in(tag, b"intp")?;
    only_or_none(tag, b"homeMode", b"HA")?;
    only_or_none(tag, b"mode2", b"LEQ")?;
    Ok(intp)
}

/// An FA2's upper bound.
pub(crate) fn fa2_in(tag: &Attrs) -> Result<u32, FormKind>
    ensures { result ≡ demands.fa2 tag.now }
{
    let intp = number_in(tag, b"intp")?;
    only_or_none(tag, b"mode", b"H")?;
    Ok(intp)
}

/// An SE1's lower bound.
pub(crate) fn se1_in(tag: &Attrs) -> Result<u32, FormKind>
    ensures { result ≡ demands.se1 tag.now }
{
    let min = number_in(tag, b"min")?;
    only_or_none(tag, b"mode1", b"SLOTS")?;
    Ok(min)
}
