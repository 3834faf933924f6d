// The words that attributes and elements have.
ghost use Rattle.std.specs.Prelude.{◌≡◌, codes};
ghost use Rattle.robinx.specs.Values as values;
ghost use Rattle.robinx.specs.Words as words;

use crate::attribute::Attrs;
use crate::tag_fault::FormKind;
use crate::values::{is_word, required};
use league::{Side, Span};

fn home_or_away(text: &[u8]) -> Result<Side, FormKind>
    ensures { result ≡ words.home_or_away text.now }
{
    if is_word(text, b"H") {
        Ok(Side::H)
    } else if is_word(text, b"A") {
        Ok(Side::A)
    } else {
        Err(FormKind::BadChoice)
    }
}

fn side(text: &[u8]) -> Result<Side, FormKind>
    ensures { result ≡ words.side text.now }
{
    if is_word(text, b"H") {
        Ok(Side::H)
    } else if is_word(text, b"A") {
        Ok(Side::A)
    } else if is_word(text, b"HA") {
        Ok(Side::Both)
    } else {
        Err(FormKind::BadChoice)
    }
}

fn span(text: &[u8]) -> Result<Span, FormKind>
    ensures { result ≡ words.span text.now }
{
    if is_word(text, b"GLOBAL") {
        Ok(Span::Global)
    } else if is_word(text, b"EVERY") {
        Ok(Span::Every)
    } else {
        Err(FormKind::BadChoice)
    }
}

fn hardness(text: &[u8]) -> Result<bool, FormKind>
    ensures { result ≡ words.hardness text.now }
{
    if is_word(text, b"HARD") {
        Ok(true)
    } else if is_word(text, b"SOFT") {
        Ok(false)
    } else {
        Err(FormKind::BadChoice)
    }
}

/// The game mode: whether the league is phased.
pub(crate) fn game_mode(text: &[u8]) -> Result<bool, FormKind>
    ensures { result ≡ words.game_mode text.now }
{
    if is_word(text, b"P") {
        Ok(true)
    } else if is_word(text, b"NULL") || is_word(text, b"") {
        Ok(false)
    } else {
        Err(FormKind::BadChoice)
    }
}

/// A side that isn't both.
pub(crate) fn home_or_away_in(attrs: &Attrs, name: &[u8]) -> Result<Side, FormKind>
    ensures { result ≡ values.required name.now words.home_or_away attrs.now }
{
    home_or_away(required(attrs, name)?)
}

/// A side, which may be both.
pub(crate) fn side_in(attrs: &Attrs, name: &[u8]) -> Result<Side, FormKind>
    ensures { result ≡ values.required name.now words.side attrs.now }
{
    side(required(attrs, name)?)
}

/// Whether slots are bounded together or each by itself.
pub(crate) fn span_in(attrs: &Attrs, name: &[u8]) -> Result<Span, FormKind>
    ensures { result ≡ values.required name.now words.span attrs.now }
{
    span(required(attrs, name)?)
}

/// Whether a constraint is hard.
pub(crate) fn hardness_in(attrs: &Attrs) -> Result<bool, FormKind>
    ensures { result ≡ values.required (codes "type") words.hardness attrs.now }
{
    hardness(required(attrs, b"type")?)
}
