//! The rows in which each literal stands.
ghost use Rattle.std.specs.Prelude.{◌≡◌, ◌+◌, ◌*◌, ◌<◌, ◌++◌, [], ◌∷◌, length, replicate, slice_index_or, slice_set, IfOk, OnOk};
ghost use Rattle.rows.specs.Codes.{code_of};
ghost use Rattle.propagate.specs.Links.{links_of};

use crate::link::{Link, slot};
use rows::{Lit, RowStore, Term};
use std::alloc::{AllocError, Global};
use std::marker::Model;

/// The rows in which one literal stands, side by side: seen as their list.
#[derive(Drop)]
pub(crate) struct Links {
    links: Vec<Link>,
}

impl Model for Links {
    ghost use Rattle.std.specs.Prelude.{List};
    ghost use Rattle.propagate.specs.declared.link.Link.{Link as ALink};

    ghost Value = { List ALink };

    ghost view = { λ l. l.links.items };
}

impl Links {
    /// No row, with room for so many.
    ///
    /// # Errors
    /// Only where memory runs out.
    fn with_room(alloc: Global, count: usize) -> Result<Links, AllocError>
        ensures { IfOk result (λ links. links ≡ []) }
    {
        Ok(Links {
            links: Vec::with_capacity(alloc, count)?,
        })
    }

    /// Adds a row behind the others.
    ///
    /// # Errors
    /// Only where memory runs out.
    fn push(&mut self, link: Link) -> Result<(), AllocError>
        ensures { OnOk result (self.new ≡ self.old ++ link ∷ []) }
    {
        self.links.push(link)?;
        Ok(())
    }

    /// The rows.
    fn all(&self) -> &[Link]
        ensures { result.now ≡ self.now }
    {
        &self.links
    }
}

/// The rows in which each literal stands: seen as lists, by the literals' numbers.
#[derive(Drop)]
pub(crate) struct Lists {
    lists: Vec<Links>,
}

impl Model for Lists {
    ghost use Rattle.std.specs.Prelude.{List};
    ghost use Rattle.propagate.specs.declared.link.Link.{Link as ALink};

    ghost Value = { List (List ALink) };

    ghost view = { λ l. l.lists.items };
}

impl Lists {
    /// An empty list for each literal of so many variables, with room for what these rows need.
    ///
    /// # Errors
    /// Only where memory runs out.
    pub(crate) fn new(alloc: Global, vars: u32, given: &RowStore) -> Result<Lists, AllocError>
        ensures { IfOk result (λ lists. lists ≡ replicate (2 * vars + 2) []) }
    {
        let slots = 2 * vars as usize + 2;
        let counts = counts_of(alloc, given, slots)?;
        let mut lists = Vec::with_capacity(alloc, slots)?;
        for at in 0..slots {
            lists.push(Links::with_room(alloc, counts[at])?)?;
        }
        Ok(Lists { lists })
    }

    /// The rows in which a literal stands.
    pub(crate) fn of(&self, lit: Lit) -> &[Link]
        requires { code_of lit < length self.now }
        ensures { result.now ≡ links_of self.now lit }
    {
        self.lists[slot(lit)].all()
    }

    /// The row at a place among those in which a literal stands.
    pub(crate) fn link(&self, lit: Lit, at: usize) -> Link
        requires slot { code_of lit < length self.now }
        requires there { at < length (links_of self.now lit) }
        ensures { result ≡ slice_index_or (links_of self.now lit) at result }
    {
        self.of(lit)[at]
    }

    /// Adds a row behind those in which a literal stands.
    ///
    /// # Errors
    /// Only where memory runs out.
    pub(crate) fn push(&mut self, lit: Lit, link: Link) -> Result<(), AllocError>
        requires { code_of lit < length self.old }
        ensures { OnOk result (self.new ≡ slice_set self.old (code_of lit) (links_of self.old lit ++ link ∷ [])) }
    {
        self.lists[slot(lit)].push(link)
    }
}

/// How often each literal stands in these rows: no more than a hint.
///
/// # Errors
/// Only where memory runs out.
fn counts_of(alloc: Global, given: &RowStore, slots: usize) -> Result<Vec<usize>, AllocError>
    ensures { IfOk result (λ counts. length counts.items ≡ slots) }
{
    let mut counts = vec![in alloc; 0; slots]?;
    for k in 0..given.len() {
        count_terms(given.terms(k), &mut counts);
    }
    Ok(counts)
}

/// Counts terms by their literals.
fn count_terms(terms: &[Term], counts: &mut [usize])
    ensures { length counts.new ≡ length counts.old }
{
    for term in terms {
        let at = slot(term.lit);
        if at < counts.len() {
            counts[at] = counts[at].saturating_add(1);
        }
    }
}
