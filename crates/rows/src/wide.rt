//! Rows whose coefficients and degree may be as wide as 2^127 - 1.
ghost use Rattle.std.specs.Prelude.{◌≡◌, ℕ, ◌+◌, ◌-◌, ◌*◌, ◌^◌, ◌<◌, ◌≤◌, ◌-ℤ◌, pos, nat_lt, length, drop, slice_get};
ghost use Rattle.std.specs.Prelude.{IfSome, None, OnOk};
ghost use Rattle.std.specs.List.{All, position_from};
ghost use Rattle.rows.specs.Partials as partials;
ghost use Rattle.rows.specs.Partials.{Forces, IsQuietRow};
ghost use Rattle.rows.specs.Forcing.{with_forced};
ghost use Rattle.rows.specs.Trails.{IsListed};
ghost use Rattle.rows.specs.Values.{valued};
ghost use Rattle.rows.specs.Sums.{IsWide, weight_of, widest};

use crate::forcing::make_true_if;
use crate::lit::Lit;
use crate::partial::{Partial, Value};
use std::alloc::AllocError;
use std::marker::Model;

/// A literal with a wide coefficient, seen as a term. It takes 32 bytes.
#[derive(Clone, Copy, Debug, PartialEq, Eq)]
pub struct WideTerm {
    pub coef: u128,
    pub lit: Lit,
}

impl Model for WideTerm {
    ghost use Rattle.rows.specs.declared.lit.Term.{Term};

    ghost Value = { Term };

    ghost view = { λ t. record { coef = t.coef; lit = t.lit } };

    ghost inverse = { λ t. record { coef = t.coef; lit = t.lit } };
}

/// Wide terms that ascend by their variables, and a degree: seen as a row. Their coefficients sum to at most
/// 2^127 - 1, and so much is the degree at most.
#[derive(Drop)]
pub struct WideRow {
    terms: Vec<WideTerm>,
    degree: u128,
}

impl Model for WideRow {
    ghost use Rattle.rows.specs.Rows.{Row};
    ghost use Rattle.rows.specs.Sums.{IsWide};

    ghost Value = { Row };

    ghost view = { λ r. record { terms = r.terms.items; degree = r.degree } };

    ghost invariant = { λ r. IsWide (record { terms = r.terms.items; degree = r.degree }) };
}

impl WideRow {
    /// A row of these terms and this degree.
    pub(crate) fn new(terms: Vec<WideTerm>, degree: u128) -> WideRow
        requires { IsWide (record { terms = terms.items; degree = degree }) }
        ensures { result ≡ record { terms = terms.items; degree = degree } }
    {
        WideRow { terms, degree }
    }

    /// The row's terms, in the order of their variables.
    pub fn terms(&self) -> &[WideTerm]
        ensures terms { result.now ≡ self.now.terms }
        ensures wide { IsWide self.now }
    {
        &self.terms
    }

    /// The row's degree.
    pub fn degree(&self) -> u128
        ensures degree { result ≡ self.now.degree }
        ensures at_most { result ≤ widest }
    {
        self.degree
    }
}

/// The reach of a wide row, whose coefficients sum to at most 2^127 - 1: those of its literals that aren't false,
/// summed. Where it is below the degree the row is in conflict. It takes no memory.
pub fn wide_reach(terms: &[WideTerm], partial: &Partial) -> u128
    requires known { All (λ t. t.lit.var ≤ length partial.now) terms.now }
    requires total { weight_of terms.now ≤ widest }
    ensures reach { result ≡ partials.reach (valued partial.now) terms.now }
    ensures at_most { result ≤ widest }
{
    let mut sum = 0;
    for term in terms {
        if partial.value(term.lit) != Value::False {
            sum += term.coef;
        }
    }
    sum
}

/// The slack of a wide row, whose coefficients sum to at most 2^127 - 1, as its degree is: its reach less its degree.
/// It takes no memory.
pub fn wide_slack(terms: &[WideTerm], degree: u128, partial: &Partial) -> i128
    requires known { All (λ t. t.lit.var ≤ length partial.now) terms.now }
    requires total { weight_of terms.now ≤ widest }
    requires degree { degree ≤ widest }
    ensures { result ≡ pos (partials.reach (valued partial.now) terms.now) -ℤ pos degree }
{
    signed(wide_reach(terms, partial)) - signed(degree)
}

/// The first place at or after `from` whose literal the wide row forces: it is free, and its coefficient is above the
/// slack. None exactly where there is none. It takes no memory.
pub fn wide_forced(
    terms: &[WideTerm],
    degree: u128,
    partial: &Partial,
    from: usize,
) -> Option<usize>
    requires known { All (λ t. t.lit.var ≤ length partial.now) terms.now }
    requires total { weight_of terms.now ≤ widest }
    requires no_conflict { degree ≤ partials.reach (valued partial.now) terms.now }
    ensures first { result
        ≡ position_from (partials.is_forced (valued partial.now) terms.now degree) from (drop from terms.now) }

    // What is found is forced, and a row in which nothing is found from its front on is quiet.
    ensures forces { IfSome result (λ place. IfSome (slice_get terms.now place)
        (Forces (valued partial.now) (record { terms = terms.now; degree = degree }))) }
    ensures quiet { from ≡ 0 → result ≡ None
        → IsQuietRow (valued partial.now) (record { terms = terms.now; degree = degree }) }
{
    let reached = wide_reach(terms, partial);
    let mut place = from;
    'places: while place < terms.len() {
        let term = terms[place];
        if partial.value(term.lit) == Value::Free && is_needed(reached, degree, term.coef) {
            return Some(place);
        }
        place += 1;
    }
    None
}

/// Makes all literals true at once that the wide row forces, and lists their variables. `reached` is the row's reach,
/// which the row has before and after; a row in conflict forces each of its free literals.
///
/// # Errors
/// Only where memory runs out: then the trail still lists each variable that has a value.
pub fn wide_force(
    terms: &[WideTerm],
    degree: u128,
    reached: u128,
    partial: &mut Partial,
    trail: &mut Vec<u32>,
) -> Result<(), AllocError>
    requires known { All (λ t. t.lit.var ≤ length partial.old) terms.now }
    requires reached { reached ≡ partials.reach (valued partial.old) terms.now }
    requires narrow { reached ≤ widest }
    requires listed { IsListed partial.old trail.old.items }
    ensures values { OnOk result
        (valued partial.new ≡ with_forced (valued partial.old) (record { terms = terms.now; degree = degree })) }

    // The next clauses also hold where memory ran out.
    ensures length { length partial.new ≡ length partial.old }
    ensures listed { IsListed partial.new trail.new.items }
{
    for term in terms {
        let needed = is_needed(reached, degree, term.coef);
        make_true_if(needed, term.lit, partial, trail)?;
    }
    Ok(())
}

/// Whether a coefficient is above the slack.
fn is_needed(reached: u128, degree: u128, coef: u128) -> bool
    requires { reached ≤ widest }
    ensures { result ≡ nat_lt reached (degree + coef) }
{
    reached < degree.saturating_add(coef)
}

/// A number below 2^127 as one with a sign.
fn signed(number: u128) -> i128
    requires { number ≤ widest }
    ensures { result ≡ pos number }
{
    number as i128
}
