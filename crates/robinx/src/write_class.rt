//! The attributes of the nine classes, each in the order of the format.
ghost use Rattle.std.specs.Prelude.{◌≡◌, ◌++◌, OnOk, codes};
ghost use Rattle.league.specs.Names.{name_of};
ghost use Rattle.robinx.specs.Texts as texts;
ghost use Rattle.robinx.specs.Texts.{class_text};
ghost use Rattle.robinx.specs.Held.{IsHeldClass};

use crate::element::GroupName;
use crate::write_tag::{NamedValue, Value, put_attributes};
use league::{Class, ClassName, Side, Span};
use std::alloc::AllocError;

/// The group that holds constraints of a class.
pub(crate) fn group_of(name: ClassName) -> GroupName
    ensures { result ≡ texts.group_of name }
{
    match name {
        ClassName::Ca1 | ClassName::Ca2 | ClassName::Ca3 | ClassName::Ca4 => GroupName::Capacity,
        ClassName::Ga1 => GroupName::Game,
        ClassName::Br1 | ClassName::Br2 => GroupName::Break,
        ClassName::Fa2 => GroupName::Fairness,
        ClassName::Se1 => GroupName::Separation,
    }
}

fn side_word(side: Side) -> &'static str
    ensures { result.now ≡ codes (texts.side_word side) }
{
    match side {
        Side::H => "H",
        Side::A => "A",
        Side::Both => "HA",
    }
}

fn span_word(span: Span) -> &'static str
    ensures { result.now ≡ codes (texts.span_word span) }
{
    match span {
        Span::Global => "GLOBAL",
        Span::Every => "EVERY",
    }
}

/// Adds the attributes of a CA1.
fn put_ca1(text: &mut Vec<u8>, class: &Class) -> Result<(), AllocError>
    requires { name_of class.now ≡ ClassName.Ca1 }
    ensures written { OnOk result (text.new.items ≡ text.old.items ++ class_text class.now) }
    ensures held { IsHeldClass class.now }
{
    let Class::Ca1 {
        teams,
        min,
        max,
        side,
        slots,
    } = class
    else {
        unreachable!()
    };
    let attributes = [
        NamedValue("teams", Value::Ids(teams.numbers())),
        NamedValue("min", Value::Count(u128::from(*min))),
        NamedValue("max", Value::Count(u128::from(*max))),
        NamedValue("mode", Value::Word(side_word(*side))),
        NamedValue("slots", Value::Ids(slots.numbers())),
    ];
    put_attributes(text, &attributes)
}

/// Adds the attributes of a CA2.
fn put_ca2(text: &mut Vec<u8>, class: &Class) -> Result<(), AllocError>
    requires { name_of class.now ≡ ClassName.Ca2 }
    ensures written { OnOk result (text.new.items ≡ text.old.items ++ class_text class.now) }
    ensures held { IsHeldClass class.now }
{
    let Class::Ca2 {
        teams1,
        teams2,
        min,
        max,
        side,
        slots,
    } = class
    else {
        unreachable!()
    };
    let attributes = [
        NamedValue("teams1", Value::Ids(teams1.numbers())),
        NamedValue("teams2", Value::Ids(teams2.numbers())),
        NamedValue("min", Value::Count(u128::from(*min))),
        NamedValue("max", Value::Count(u128::from(*max))),
        NamedValue("mode1", Value::Word(side_word(*side))),
        NamedValue("mode2", Value::Word("GLOBAL")),
        NamedValue("slots", Value::Ids(slots.numbers())),
    ];
    put_attributes(text, &attributes)
}

/// Adds the attributes of a CA3.
fn put_ca3(text: &mut Vec<u8>, class: &Class) -> Result<(), AllocError>
    requires { name_of class.now ≡ ClassName.Ca3 }
    ensures written { OnOk result (text.new.items ≡ text.old.items ++ class_text class.now) }
    ensures held { IsHeldClass class.now }
{
    let Class::Ca3 {
        teams1,
        teams2,
        min,
        max,
        intp,
        side,
    } = class
    else {
        unreachable!()
    };
    let attributes = [
        NamedValue("teams1", Value::Ids(teams1.numbers())),
        NamedValue("teams2", Value::Ids(teams2.numbers())),
        NamedValue("min", Value::Count(u128::from(*min))),
        NamedValue("max", Value::Count(u128::from(*max))),
        NamedValue("mode1", Value::Word(side_word(*side))),
        NamedValue("mode2", Value::Word("SLOTS")),
        NamedValue("intp", Value::Count(u128::from(*intp))),
    ];
    put_attributes(text, &attributes)
}

/// Adds the attributes of a CA4.
fn put_ca4(text: &mut Vec<u8>, class: &Class) -> Result<(), AllocError>
    requires { name_of class.now ≡ ClassName.Ca4 }
    ensures written { OnOk result (text.new.items ≡ text.old.items ++ class_text class.now) }
    ensures held { IsHeldClass class.now }
{
    let Class::Ca4 {
        teams1,
        teams2,
        min,
        max,
        side,
        span,
        slots,
    } = class
    else {
        unreachable!()
    };
    let attributes = [
        NamedValue("teams1", Value::Ids(teams1.numbers())),
        NamedValue("teams2", Value::Ids(teams2.numbers())),
        NamedValue("min", Value::Count(u128::from(*min))),
        NamedValue("max", Value::Count(u128::from(*max))),
        NamedValue("mode1", Value::Word(side_word(*side))),
        NamedValue("mode2", Value::Word(span_word(*span))),
        NamedValue("slots", Value::Ids(slots.numbers())),
    ];
    put_attributes(text, &attributes)
}

/// Adds the attributes of a GA1.
fn put_ga1(text: &mut Vec<u8>, class: &Class) -> Result<(), AllocError>
    requires { name_of class.now ≡ ClassName.Ga1 }
    ensures written { OnOk result (text.new.items ≡ text.old.items ++ class_text class.now) }
    ensures held { IsHeldClass class.now }
{
    let Class::Ga1 {
        meetings,
        min,
        max,
        slots,
    } = class
    else {
        unreachable!()
    };
    let attributes = [
        NamedValue("meetings", Value::Pairs(meetings.numbers())),
        NamedValue("min", Value::Count(u128::from(*min))),
        NamedValue("max", Value::Count(u128::from(*max))),
        NamedValue("slots", Value::Ids(slots.numbers())),
    ];
    put_attributes(text, &attributes)
}

/// Adds the attributes of a BR1.
fn put_br1(text: &mut Vec<u8>, class: &Class) -> Result<(), AllocError>
    requires { name_of class.now ≡ ClassName.Br1 }
    ensures written { OnOk result (text.new.items ≡ text.old.items ++ class_text class.now) }
    ensures held { IsHeldClass class.now }
{
    let Class::Br1 {
        teams,
        intp,
        side,
        slots,
    } = class
    else {
        unreachable!()
    };
    let attributes = [
        NamedValue("teams", Value::Ids(teams.numbers())),
        NamedValue("intp", Value::Count(u128::from(*intp))),
        NamedValue("mode1", Value::Word("LEQ")),
        NamedValue("mode2", Value::Word(side_word(*side))),
        NamedValue("slots", Value::Ids(slots.numbers())),
    ];
    put_attributes(text, &attributes)
}

/// Adds the attributes of a BR2.
fn put_br2(text: &mut Vec<u8>, class: &Class) -> Result<(), AllocError>
    requires { name_of class.now ≡ ClassName.Br2 }
    ensures written { OnOk result (text.new.items ≡ text.old.items ++ class_text class.now) }
    ensures held { IsHeldClass class.now }
{
    let Class::Br2 { teams, intp, slots } = class else {
        unreachable!()
    };
    let attributes = [
        NamedValue("teams", Value::Ids(teams.numbers())),
        NamedValue("intp", Value::Count(u128::from(*intp))),
        NamedValue("homeMode", Value::Word("HA")),
        NamedValue("mode2", Value::Word("LEQ")),
        NamedValue("slots", Value::Ids(slots.numbers())),
    ];
    put_attributes(text, &attributes)
}

/// Adds the attributes of an FA2.
fn put_fa2(text: &mut Vec<u8>, class: &Class) -> Result<(), AllocError>
    requires { name_of class.now ≡ ClassName.Fa2 }
    ensures written { OnOk result (text.new.items ≡ text.old.items ++ class_text class.now) }
    ensures held { IsHeldClass class.now }
{
    let Class::Fa2 { teams, intp, slots } = class else {
        unreachable!()
    };
    let attributes = [
        NamedValue("teams", Value::Ids(teams.numbers())),
        NamedValue("intp", Value::Count(u128::from(*intp))),
        NamedValue("mode", Value::Word("H")),
        NamedValue("slots", Value::Ids(slots.numbers())),
    ];
    put_attributes(text, &attributes)
}

/// Adds the attributes of an SE1.
fn put_se1(text: &mut Vec<u8>, class: &Class) -> Result<(), AllocError>
    requires { name_of class.now ≡ ClassName.Se1 }
    ensures written { OnOk result (text.new.items ≡ text.old.items ++ class_text class.now) }
    ensures held { IsHeldClass class.now }
{
    let Class::Se1 { teams, min } = class else {
        unreachable!()
    };
    let attributes = [
        NamedValue("teams", Value::Ids(teams.numbers())),
        NamedValue("min", Value::Count(u128::from(*min))),
        NamedValue("mode1", Value::Word("SLOTS")),
    ];
    put_attributes(text, &attributes)
}

/// Adds the attributes of a class.
pub(crate) fn put_class(text: &mut Vec<u8>, class: &Class) -> Result<(), AllocError>
    ensures written { OnOk result (text.new.items ≡ text.old.items ++ class_text class.now) }
    ensures held { IsHeldClass class.now }
{
    match class {
        Class::Ca1 { .. } => put_ca1(text, class),
        Class::Ca2 { .. } => put_ca2(text, class),
        Class::Ca3 { .. } => put_ca3(text, class),
        Class::Ca4 { .. } => put_ca4(text, class),
        Class::Ga1 { .. } => put_ga1(text, class),
        Class::Br1 { .. } => put_br1(text, class),
        Class::Br2 { .. } => put_br2(text, class),
        Class::Fa2 { .. } => put_fa2(text, class),
        Class::Se1 { .. } => put_se1(text, class),
    }
}
