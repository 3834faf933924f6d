//! Tags and their attributes.
ghost use Rattle.std.specs.Prelude.{◌≡◌, ◌++◌, OnOk, map, codes, decimal as decimal_text};
ghost use Rattle.std.specs.List.{flat_map, join_with_byte};
ghost use Rattle.std.specs.Str.{byte};
ghost use Rattle.robinx.specs.Attributes.{attribute_text, tag_line};
ghost use Rattle.robinx.specs.SeenValues.{attributes_of, value_text, pair_text, further_text};

use robin_io::put_decimal;
use std::alloc::AllocError;

/// The value of an attribute that is written.
#[derive(Clone, Copy)]
pub(crate) enum Value<'a> {
    Word(&'a str),
    Count(u128),
    Ids(&'a [u16]),
    Pairs(&'a [(u16, u16)]),
}

/// A value and the name of its attribute.
#[derive(Clone, Copy)]
pub(crate) struct NamedValue<'a>(pub &'a str, pub Value<'a>);

/// Adds numbers, each behind a `;`.
fn put_further_ids(text: &mut Vec<u8>, ids: &[u16]) -> Result<(), AllocError>
    ensures { OnOk result (text.new.items ≡ text.old.items ++ flat_map further_text ids.now) }
{
    for id in ids {
        text.extend_from_slice(b";")?;
        put_decimal(text, u128::from(*id))?;
    }
    Ok(())
}

/// Adds numbers with `;` between them.
fn put_ids(text: &mut Vec<u8>, ids: &[u16]) -> Result<(), AllocError>
    ensures { OnOk result (text.new.items ≡ text.old.items ++ join_with_byte (byte ";") (map decimal_text ids.now)) }
{
    let Some((first, others)) = ids.split_first() else {
        return Ok(());
    };
    put_decimal(text, u128::from(*first))?;
    put_further_ids(text, others)?;
    Ok(())
}

/// Adds meetings, each followed by `;`.
fn put_pairs(text: &mut Vec<u8>, pairs: &[(u16, u16)]) -> Result<(), AllocError>
    ensures { OnOk result (text.new.items ≡ text.old.items ++ flat_map pair_text pairs.now) }
{
    for (home, away) in pairs {
        put_decimal(text, u128::from(*home))?;
        text.extend_from_slice(b",")?;
        put_decimal(text, u128::from(*away))?;
        text.extend_from_slice(b";")?;
    }
    Ok(())
}

/// Adds a value.
fn put_value(text: &mut Vec<u8>, value: Value) -> Result<(), AllocError>
    ensures { OnOk result (text.new.items ≡ text.old.items ++ value_text value.entry) }
{
    match value {
        Value::Word(word) => text.extend_from_slice(word.as_bytes()),
        Value::Count(count) => put_decimal(text, count),
        Value::Ids(ids) => put_ids(text, ids),
        Value::Pairs(pairs) => put_pairs(text, pairs),
    }
}

/// Adds attributes, each with the space before it.
pub(crate) fn put_attributes(
    text: &mut Vec<u8>,
    attributes: &[NamedValue],
) -> Result<(), AllocError>
    ensures { OnOk result (text.new.items ≡ text.old.items ++ flat_map attribute_text (attributes_of attributes.now)) }
{
    for attribute in attributes {
        text.extend_from_slice(b" ")?;
        text.extend_from_slice(attribute.0.as_bytes())?;
        text.extend_from_slice(b"=\"")?;
        put_value(text, attribute.1)?;
        text.extend_from_slice(b"\"")?;
    }
    Ok(())
}

/// Adds a line with one Empty tag.
pub(crate) fn put_tag(
    text: &mut Vec<u8>,
    name: &str,
    attributes: &[NamedValue],
) -> Result<(), AllocError>
    ensures { OnOk result (text.new.items ≡ text.old.items ++ tag_line name.now (attributes_of attributes.now)) }
{
    text.extend_from_slice(b"<")?;
    text.extend_from_slice(name.as_bytes())?;
    put_attributes(text, attributes)?;
    text.extend_from_slice(b"/>\n")
}
