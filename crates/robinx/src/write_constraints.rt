//! Constraints in their groups.
ghost use Rattle.std.specs.Prelude.{◌≡◌, ◌++◌, Bool, None, Some, IsTrue, OnOk, codes};
ghost use Rattle.std.specs.List.{All};
ghost use Rattle.std.specs.Option.{option_copied};
ghost use Rattle.robinx.specs.Texts as texts;
ghost use Rattle.robinx.specs.Texts.{opens, closes, between, constraint_line, constraints_after};
ghost use Rattle.robinx.specs.Held.{IsHeld};

use crate::write_class::{group_of, put_class};
use crate::write_tag::{NamedValue, Value, put_attributes};
use league::Constraint;
use std::alloc::AllocError;

/// How a file says whether a constraint is hard: `HARD` or `SOFT`. It takes no memory.
pub fn type_word(hard: bool) -> &'static str
    ensures { result.now ≡ codes (texts.type_word hard) }
{
    if hard { "HARD" } else { "SOFT" }
}

/// Adds the line of a constraint.
fn put_constraint(text: &mut Vec<u8>, constraint: &Constraint) -> Result<(), AllocError>
    ensures written { OnOk result (text.new.items ≡ text.old.items ++ constraint_line constraint.now) }
    ensures held { OnOk result (IsHeld constraint.now) }
{
    text.extend_from_slice(b"<")?;
    text.extend_from_slice(constraint.class.name().text().as_bytes())?;
    put_class(text, &constraint.class)?;
    let penalty = constraint.penalty;
    let attributes = [
        NamedValue("type", Value::Word(type_word(constraint.hard))),
        NamedValue("penalty", Value::Count(u128::from(penalty))),
    ];
    put_attributes(text, &attributes)?;
    text.extend_from_slice(b"/>\n")?;
    Ok(())
}

/// Adds the line that begins a group.
fn put_start(text: &mut Vec<u8>, group: &[u8]) -> Result<(), AllocError>
    ensures { OnOk result (text.new.items ≡ text.old.items ++ opens (Some group.now)) }
{
    text.extend_from_slice(b"<")?;
    text.extend_from_slice(group)?;
    text.extend_from_slice(b">\n")
}

/// Adds the line that ends a group.
fn put_end(text: &mut Vec<u8>, group: &[u8]) -> Result<(), AllocError>
    ensures { OnOk result (text.new.items ≡ text.old.items ++ closes (Some group.now)) }
{
    text.extend_from_slice(b"</")?;
    text.extend_from_slice(group)?;
    text.extend_from_slice(b">\n")
}

/// Adds what stands between constraints of one group, or the front, and of another.
fn put_between(text: &mut Vec<u8>, group: Option<&[u8]>, next: &[u8]) -> Result<(), AllocError>
    ensures { OnOk result (text.new.items ≡ text.old.items ++ between (option_copied group.entry) (Some next.now)) }
{
    if let Some(name) = group {
        if name == next {
            return Ok(());
        }
        put_end(text, name)?;
    }
    put_start(text, next)
}

/// Adds constraints in their order, consecutive ones of one group in one element.
pub(crate) fn put_constraints(
    text: &mut Vec<u8>,
    constraints: &[Constraint],
) -> Result<(), AllocError>
    ensures written { OnOk result (text.new.items ≡ text.old.items ++ constraints_after None constraints.now) }
    ensures held { OnOk result (All IsHeld constraints.now) }
{
    let mut group: Option<&[u8]> = None;
    for constraint in constraints {
        let next = group_of(constraint.class.name()).name();
        put_between(text, group, next)?;
        put_constraint(text, constraint)?;
        group = Some(next);
    }
    if let Some(name) = group {
        put_end(text, name)?;
    }
    Ok(())
}
