// Attributes of a tag.
ghost use Rattle.std.specs.Prelude.{◌≡◌, ◌≤◌, length, ◌++◌, ◌∷◌, [], OnOk, OnErr, option_map, bytes_eq};
ghost use Rattle.std.specs.List.{list_any, find};
ghost use Rattle.robinx.specs.Tags.{has_name, value_of, without_memory};
ghost use Rattle.robinx.specs.SeenAttr.{attribute_of, attributes_of};

use smallvec::SmallVec;
use std::alloc::{AllocFailed, Global};
use std::marker::Model;

/// An attribute, as raw bytes of the file. The value stands without its quotes.
#[derive(Clone, Copy, Default, PartialEq, Eq)]
pub struct Attr<'a> {
    /// The name, which no other attribute of the tag has.
    pub name: &'a [u8],
    /// The bytes between the quotes. An ampersand is a byte like others.
    pub value: &'a [u8],
}

/// The attributes of a tag, in the order of the file.
///
/// A contract sees them as a list. Up to eight take no memory of their own.
#[derive(Drop)]
pub struct Attrs<'a> {
    list: SmallVec<Attr<'a>, 8>,
}

impl<'a> Model for Attrs<'a> {
    ghost use Rattle.std.specs.Prelude.{List};
    ghost use Rattle.robinx.specs.Tags.{Attribute};

    ghost Value = { List Attribute };

    ghost use Rattle.std.specs.Prelude.{◌≤◌};
    ghost use Rattle.robinx.specs.Tags.{without_memory};
    ghost use Rattle.robinx.specs.SeenAttr.{attributes_of};

    ghost view = { λ a. attributes_of a.list.items };

    ghost invariant = { λ a. without_memory ≤ a.list.capacity };
}

impl<'a> Attrs<'a> {
    /// No attributes.
    pub(crate) fn new(alloc: Global) -> Self
        ensures { result ≡ [] }
    {
        Attrs {
            list: SmallVec::new(alloc),
        }
    }

    /// Puts an attribute behind the others. Only from the ninth on this takes memory; where there is none, nothing
    /// changes.
    pub(crate) fn push(&mut self, attr: Attr<'a>) -> Result<(), AllocFailed<Attr<'a>>>
        ensures ok { OnOk result (self.new ≡ self.old ++ attribute_of attr.entry ∷ []) }
        ensures err { OnErr result (self.new ≡ self.old) }
        ensures memory { OnErr result (without_memory ≤ length self.old) }
    {
        self.list.push(attr)
    }

    /// The attributes in order.
    pub fn as_slice(&self) -> &[Attr<'a>]
        ensures { attributes_of result.now ≡ self.now }
    {
        self.list.as_slice()
    }

    /// Whether there is an attribute of this name.
    #[tactic(auto, using(crate::proofs::AttributeLemmas::has_name_in))]
    pub fn contains(&self, name: &[u8]) -> bool
        ensures { result ≡ list_any (has_name name.now) self.now }
    {
        has_name_in(self.list.as_slice(), name)
    }

    /// The value of the attribute of this name, or None where there is none.
    pub fn get(&self, name: &[u8]) -> Option<&'a [u8]>
        ensures { option_map (λ value. value.now) result ≡ value_of name.now self.now }
    {
        value_in(self.list.as_slice(), name)
    }
}

/// Whether one of these has the name.
fn has_name_in(attrs: &[Attr], name: &[u8]) -> bool
    ensures { result ≡ list_any (λ a. bytes_eq a.name.now name.now) attrs.now }
{
    attrs.iter().any(|attr| attr.name == name)
}

/// The value of the first of these that has the name.
fn value_in<'a>(attrs: &[Attr<'a>], name: &[u8]) -> Option<&'a [u8]>
    ensures { option_map (λ value. value.now) result
        ≡ option_map (λ a. a.value.now) (find (λ a. bytes_eq a.name.now name.now) attrs.now) }
{
    let attr = attrs.iter().find(|attr| attr.name == name)?;
    Some(attr.value)
}
