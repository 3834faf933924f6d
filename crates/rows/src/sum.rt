//! Rows added up: the sums of cutting planes.
ghost use Rattle.std.specs.Prelude.{◌≡◌, ℕ, ◌+◌, ◌-◌, ◌*◌, ◌^◌, ◌<◌, ◌≤◌, ◌==◌, ◌⊎◌, [], ◌∷◌, ◌++◌, length, map};
ghost use Rattle.std.specs.Prelude.{true, false, if◌then◌else◌, min, nat_lt, slice_set, IfOk, OnOk, OnErr, vec_len};
ghost use Rattle.std.specs.Prelude.{vec_capacity};
ghost use Rattle.std.specs.Int.{div_ceil};
ghost use Rattle.std.specs.List.{All};
ghost use Rattle.std.specs.List.Sorted.{IsSorted};
ghost use Rattle.std.specs.Ordering.{nat_cmp};
ghost use Rattle.rows.specs.Codes.{code_of};
ghost use Rattle.rows.specs.Literals.{Literal};
ghost use Rattle.rows.specs.Sums.{cancelled, count_in, divided, divided_term, is_same, is_too_wide};
ghost use Rattle.rows.specs.Sums.{no_totals, plus, top_of, weight_of, widest};
ghost use Rattle.rows.specs.Tables.{AreCancelled, AreTouched, AreUpTo, common_at, count_at, left_at, totals_of};
ghost use Rattle.rows.specs.declared.sum.SumFault.TheVariants as fault;

use crate::lit::{Lit, Term};
use crate::wide::{WideRow, WideTerm};
use std::alloc::{AllocError, Global};
use std::marker::Model;

/// The greatest total: 2^127 - 1.
const WIDEST: u128 = 170_141_183_460_469_231_731_687_303_715_884_105_727;

/// Why a row can't be added.
#[derive(Clone, Copy, Debug, PartialEq, Eq)]
pub enum SumFault {
    /// The total of all coefficients or that of the degrees, each with its factor, would be above 2^127 - 1.
    TooWide,
    /// Memory ran out.
    Mem,
}

impl From<AllocError> for SumFault {
    ghost from_gives = { λ _ e. e ≡ fault.Mem };

    fn from(_: AllocError) -> SumFault {
        SumFault::Mem
    }
}

/// Rows that were added up, each with a factor: seen as the table of what their literals count. The table takes
/// 32 bytes for each variable up to the greatest one.
#[derive(Drop)]
pub struct Sum {
    counts: Vec<u128>,
    touched: Vec<u32>,
    top: u32,
    total: u128,
    degree: u128,
}

impl Model for Sum {
    ghost use Rattle.rows.specs.Tables.{IsKept, Table};

    ghost Value = { Table };

    ghost view = { λ s. record { top = s.top; counts = s.counts.items; weight = s.total; degree = s.degree } };

    ghost invariant = { λ s.
        IsKept (record { top = s.top; counts = s.counts.items; weight = s.total; degree = s.degree }) s.touched.items };
}

impl Sum {
    /// The sum of no row. It takes no memory.
    pub fn new(alloc: Global) -> Sum
        ensures { totals_of result ≡ no_totals }
    {
        Sum {
            counts: Vec::new(alloc),
            touched: Vec::new(alloc),
            top: 0,
            total: 0,
            degree: 0,
        }
    }

    /// Adds a row, times a factor from 1.
    ///
    /// # Errors
    /// `TooWide` exactly where a total would be above 2^127 - 1, and `Mem` where memory runs out. The sum is then as it
    /// was.
    pub fn add(&mut self, factor: u64, terms: &[Term], degree: u64) -> Result<(), SumFault>
        requires { 1 ≤ factor }
        ensures ok { OnOk result (totals_of self.new
            ≡ plus (totals_of self.old) factor (record { terms = terms.now; degree = degree })) }
        ensures narrow { OnOk result
            (is_too_wide (plus (totals_of self.old) factor (record { terms = terms.now; degree = degree })) ≡ false) }

        // What each error says.
        ensures too_wide { result ≡ Err SumFault.TooWide
            → is_too_wide (plus (totals_of self.old) factor (record { terms = terms.now; degree = degree })) ≡ true }
        ensures mem { result ≡ Err SumFault.Mem
            → is_too_wide (plus (totals_of self.old) factor (record { terms = terms.now; degree = degree })) ≡ false }
        ensures err { OnErr result (totals_of self.new ≡ totals_of self.old) }
    {
        let (more, top) = measure(terms);
        if !are_narrow(self.total, self.degree, factor, more, u128::from(degree)) {
            return Err(SumFault::TooWide);
        }
        add_terms(&mut self.counts, &mut self.touched, factor, terms, top)?;
        self.top = self.top.max(top);
        self.total = raised(self.total, factor, more);
        self.degree = raised(self.degree, factor, u128::from(degree));
        Ok(())
    }

    /// Adds a wide row, times a factor from 1.
    ///
    /// # Errors
    /// `TooWide` exactly where a total would be above 2^127 - 1, and `Mem` where memory runs out. The sum is then as it
    /// was.
    pub fn add_wide(
        &mut self,
        factor: u64,
        terms: &[WideTerm],
        degree: u128,
    ) -> Result<(), SumFault>
        requires { 1 ≤ factor }
        ensures ok { OnOk result (totals_of self.new
            ≡ plus (totals_of self.old) factor (record { terms = terms.now; degree = degree })) }
        ensures narrow { OnOk result
            (is_too_wide (plus (totals_of self.old) factor (record { terms = terms.now; degree = degree })) ≡ false) }

        // What each error says.
        ensures too_wide { result ≡ Err SumFault.TooWide
            → is_too_wide (plus (totals_of self.old) factor (record { terms = terms.now; degree = degree })) ≡ true }
        ensures mem { result ≡ Err SumFault.Mem
            → is_too_wide (plus (totals_of self.old) factor (record { terms = terms.now; degree = degree })) ≡ false }
        ensures err { OnErr result (totals_of self.new ≡ totals_of self.old) }
    {
        let (more, top) = measure_wide(terms);
        if !are_narrow(self.total, self.degree, factor, more, degree) {
            return Err(SumFault::TooWide);
        }
        add_wide_terms(&mut self.counts, &mut self.touched, factor, terms, top)?;
        self.top = self.top.max(top);
        self.total = raised(self.total, factor, more);
        self.degree = raised(self.degree, factor, degree);
        Ok(())
    }

    /// The row of the sum: each literal against its negation, then each number divided by a divisor from 1, rounding
    /// up.
    ///
    /// # Errors
    /// Only where memory runs out.
    pub fn divide(&self, alloc: Global, divisor: u64) -> Result<WideRow, AllocError>
        requires { 1 ≤ divisor }
        ensures { IfOk result (λ row. row ≡ divided divisor (cancelled (totals_of self.now))) }
    {
        let mut order = Vec::from_slice(alloc, &self.touched)?;
        order.sort_unstable();
        let divisor = u128::from(divisor);
        let mut terms = Vec::with_capacity(alloc, order.len())?;
        let left = cancel_all(&self.counts, &order, self.degree, divisor, &mut terms)?;
        Ok(WideRow::new(terms, left.div_ceil(divisor)))
    }

    /// Makes the sum that of no row. It keeps its memory, and writes only what rows touched.
    pub fn clear(&mut self)
        ensures { totals_of self.new ≡ no_totals }
    {
        clear_touched(&mut self.counts, &self.touched);
        self.touched.clear();
        self.top = 0;
        self.total = 0;
        self.degree = 0;
    }
}

/// The total of the coefficients, and the greatest variable, or 0.
fn measure(terms: &[Term]) -> (u128, u32)
    ensures total { result.0 ≡ weight_of terms.now }
    ensures top { result.1 ≡ top_of terms.now }
    ensures few { result.1 ≤ 2147483647 }
{
    let mut total: u128 = 0;
    let mut top = 0;
    for term in terms {
        total += u128::from(term.coef);
        top = term.lit.var().max(top);
    }
    (total, top)
}

/// The total of the coefficients, or the greatest number of 128 bits where it is above that, and the greatest variable,
/// or 0.
fn measure_wide(terms: &[WideTerm]) -> (u128, u32)
    ensures total { result.0 ≡ min (weight_of terms.now) (2 ^ 128 - 1) }
    ensures top { result.1 ≡ top_of terms.now }
    ensures few { result.1 ≤ 2147483647 }
{
    let mut total: u128 = 0;
    let mut top = 0;
    for term in terms {
        total = total.saturating_add(term.coef);
        top = term.lit.var().max(top);
    }
    (total, top)
}

/// Whether both totals stay within what is allowed, where a row of so much is added so often.
fn are_narrow(total: u128, degree: u128, factor: u64, more: u128, more_degree: u128) -> bool
    requires factor { 1 ≤ factor }
    requires total { total ≤ widest }
    requires degree { degree ≤ widest }
    ensures yes { result ≡ true → (total + factor * more ≤ widest) × (degree + factor * more_degree ≤ widest) }
    ensures no { result ≡ false → (widest < total + factor * more) ⊎ (widest < degree + factor * more_degree) }
{
    is_room(total, factor, more) && is_room(degree, factor, more_degree)
}

/// Whether a total stays within what is allowed, where so much is added so often.
fn is_room(total: u128, factor: u64, more: u128) -> bool
    requires factor { 1 ≤ factor }
    requires total { total ≤ widest }
    ensures room { result ≡ true → total + factor * more ≤ widest }
    ensures none { result ≡ false → widest < total + factor * more }
{
    more <= (WIDEST - total) / u128::from(factor)
}

/// A total after a row of so much is added so often.
fn raised(total: u128, factor: u64, more: u128) -> u128
    requires { total + factor * more ≤ widest }
    ensures { result ≡ total + factor * more }
{
    total + u128::from(factor) * more
}

/// Adds terms, times a factor, to a table and its touched variables, of which none is above `top`.
fn add_terms(
    counts: &mut Vec<u128>,
    touched: &mut Vec<u32>,
    factor: u64,
    terms: &[Term],
    top: u32,
) -> Result<(), AllocError>
    requires top { top ≤ 2147483647 }
    requires known { All (λ t. t.lit.var ≤ top) terms.now }
    requires fits { (l : Literal) → count_at counts.old.items l + factor * count_in terms.now l < 2 ^ 128 }
    requires touched { AreTouched (count_at counts.old.items) touched.old.items }
    ensures counts { OnOk result
        ((l : Literal) → count_at counts.new.items l ≡ count_at counts.old.items l + factor * count_in terms.now l) }
    ensures touched { OnOk result (AreTouched (count_at counts.new.items) touched.new.items) }
    ensures up_to { OnOk result ((limit : ℕ) → AreUpTo limit touched.old.items → All (λ t. t.lit.var ≤ limit) terms.now
        → AreUpTo limit touched.new.items) }
    ensures same_counts { OnErr result (count_at counts.new.items ≡ count_at counts.old.items) }
    ensures same_touched { OnErr result (touched.new.items ≡ touched.old.items) }
{
    make_room(counts, touched, top, terms.len())?;
    add_counts(counts, touched, factor, terms);
    Ok(())
}

/// Adds wide terms, times a factor, to a table and its touched variables, of which none is above `top`.
fn add_wide_terms(
    counts: &mut Vec<u128>,
    touched: &mut Vec<u32>,
    factor: u64,
    terms: &[WideTerm],
    top: u32,
) -> Result<(), AllocError>
    requires top { top ≤ 2147483647 }
    requires known { All (λ t. t.lit.var ≤ top) terms.now }
    requires fits { (l : Literal) → count_at counts.old.items l + factor * count_in terms.now l < 2 ^ 128 }
    requires touched { AreTouched (count_at counts.old.items) touched.old.items }
    ensures counts { OnOk result
        ((l : Literal) → count_at counts.new.items l ≡ count_at counts.old.items l + factor * count_in terms.now l) }
    ensures touched { OnOk result (AreTouched (count_at counts.new.items) touched.new.items) }
    ensures up_to { OnOk result ((limit : ℕ) → AreUpTo limit touched.old.items → All (λ t. t.lit.var ≤ limit) terms.now
        → AreUpTo limit touched.new.items) }
    ensures same_counts { OnErr result (count_at counts.new.items ≡ count_at counts.old.items) }
    ensures same_touched { OnErr result (touched.new.items ≡ touched.old.items) }
{
    make_room(counts, touched, top, terms.len())?;
    add_wide_counts(counts, touched, factor, terms);
    Ok(())
}

/// Room for the literals of variables up to `top` in the table, and for so many touched variables more.
fn make_room(
    counts: &mut Vec<u128>,
    touched: &mut Vec<u32>,
    top: u32,
    more: usize,
) -> Result<(), AllocError>
    requires { top ≤ 2147483647 }
    ensures counts { count_at counts.new.items ≡ count_at counts.old.items }
    ensures touched { touched.new.items ≡ touched.old.items }
    ensures places { OnOk result (2 * top + 1 < length counts.new.items) }
    ensures room { OnOk result (vec_len touched.new + more ≤ vec_capacity touched.new) }
{
    touched.reserve(more)?;
    let needed = 2 * top as usize + 2;
    if counts.len() < needed {
        grow(counts, needed)?;
    }
    Ok(())
}

/// Zeros behind the table, up to so many places.
fn grow(counts: &mut Vec<u128>, needed: usize) -> Result<(), AllocError>
    requires { vec_len counts.old ≤ needed }
    ensures counts { count_at counts.new.items ≡ count_at counts.old.items }
    ensures len { OnOk result (vec_len counts.new ≡ needed) }
{
    counts.resize(needed, 0)?;
    Ok(())
}

/// Adds each coefficient, times the factor, to what its literal counts, and lists the variables for which that was 0.
fn add_counts(counts: &mut [u128], touched: &mut Vec<u32>, factor: u64, terms: &[Term])
    requires places { All (λ t. code_of t.lit < length counts.old) terms.now }
    requires fits { (l : Literal) → count_at counts.old l + factor * count_in terms.now l < 2 ^ 128 }
    requires room { vec_len touched.old + length terms.now ≤ vec_capacity touched.old }
    requires touched { AreTouched (count_at counts.old) touched.old.items }
    ensures counts { (l : Literal) → count_at counts.new l ≡ count_at counts.old l + factor * count_in terms.now l }
    ensures touched { AreTouched (count_at counts.new) touched.new.items }
    ensures up_to { (top : ℕ) → AreUpTo top touched.old.items → All (λ t. t.lit.var ≤ top) terms.now
        → AreUpTo top touched.new.items }
{
    for term in terms {
        add_count(
            counts,
            touched,
            term.lit,
            u128::from(factor) * u128::from(term.coef),
        );
    }
}

/// Adds each wide coefficient, times the factor, to what its literal counts, and lists the variables for which that
/// was 0.
fn add_wide_counts(counts: &mut [u128], touched: &mut Vec<u32>, factor: u64, terms: &[WideTerm])
    requires places { All (λ t. code_of t.lit < length counts.old) terms.now }
    requires fits { (l : Literal) → count_at counts.old l + factor * count_in terms.now l < 2 ^ 128 }
    requires room { vec_len touched.old + length terms.now ≤ vec_capacity touched.old }
    requires touched { AreTouched (count_at counts.old) touched.old.items }
    ensures counts { (l : Literal) → count_at counts.new l ≡ count_at counts.old l + factor * count_in terms.now l }
    ensures touched { AreTouched (count_at counts.new) touched.new.items }
    ensures up_to { (top : ℕ) → AreUpTo top touched.old.items → All (λ t. t.lit.var ≤ top) terms.now
        → AreUpTo top touched.new.items }
{
    for term in terms {
        add_count(counts, touched, term.lit, u128::from(factor) * term.coef);
    }
}

/// Adds to what one literal counts, and lists its variable if that was 0.
fn add_count(counts: &mut [u128], touched: &mut Vec<u32>, lit: Lit, more: u128)
    requires place { code_of lit < length counts.old }
    requires fits { count_at counts.old lit + more < 2 ^ 128 }
    requires room { vec_len touched.old < vec_capacity touched.old }
    requires touched { AreTouched (count_at counts.old) touched.old.items }
    ensures counts { (l : Literal)
        → count_at counts.new l ≡ count_at counts.old l + (if is_same lit l then more else 0) }
    ensures touched { AreTouched (count_at counts.new) touched.new.items }
    ensures up_to { (top : ℕ) → AreUpTo top touched.old.items → lit.var ≤ top → AreUpTo top touched.new.items }
    ensures len { vec_len touched.new ≤ vec_len touched.old + 1 }
    ensures capacity { vec_capacity touched.old ≤ vec_capacity touched.new }
{
    let place = place_of(lit);
    note_at(touched, counts[place], lit.var());
    counts[place] += more;
}

/// Lists a variable where nothing was counted.
fn note_at(touched: &mut Vec<u32>, counted: u128, var: u32)
    requires { vec_len touched.old < vec_capacity touched.old }
    ensures items { touched.new.items
        ≡ (if counted == 0 then touched.old.items ++ var ∷ [] else touched.old.items) }
    ensures len { vec_len touched.new ≤ vec_len touched.old + 1 }
    ensures capacity { vec_capacity touched.old ≤ vec_capacity touched.new }
{
    if counted == 0 {
        note(touched, var);
    }
}

/// Lists a variable where there is room.
fn note(touched: &mut Vec<u32>, var: u32)
    requires { vec_len touched.old < vec_capacity touched.old }
    ensures items { touched.new.items ≡ touched.old.items ++ var ∷ [] }
    ensures len { vec_len touched.new ≡ vec_len touched.old + 1 }
    ensures capacity { vec_capacity touched.old ≤ vec_capacity touched.new }
{
    let _ = touched.push(var);
}

/// The place of a literal in the table: its number.
fn place_of(lit: Lit) -> usize
    ensures { result ≡ code_of lit }
{
    lit.var() as usize * 2 + usize::from(!lit.positive())
}

/// What is left of each variable, divided, and the degree less what cancels. `order` are the variables that may count.
fn cancel_all(
    counts: &[u128],
    order: &[u32],
    degree: u128,
    divisor: u128,
    terms: &mut Vec<WideTerm>,
) -> Result<u128, AllocError>
    requires divisor { 1 ≤ divisor }
    requires order { IsSorted nat_cmp order.now }
    requires known { All (λ v. (1 ≤ v) × (v ≤ 2147483647)) order.now }
    requires touched { AreTouched (count_at counts.now) order.now }
    requires empty { terms.old.items ≡ [] }
    ensures { IfOk result (λ left. (top : ℕ) → AreUpTo top order.now
        → AreCancelled (count_at counts.now) degree divisor terms.new.items left (top + 1)) }
{
    let mut left = degree;
    let mut next: u64 = 0;
    for var in order {
        let step = cancel_from(next, counts, *var, left, divisor, terms)?;
        left = step.0;
        next = step.1;
    }
    Ok(left)
}

/// What is left of one variable, divided, and the degree less what cancels; nothing if the variable stands before
/// `next`. Gives what is left of the degree, and the next variable.
fn cancel_from(
    next: u64,
    counts: &[u128],
    var: u32,
    left: u128,
    divisor: u128,
    terms: &mut Vec<WideTerm>,
) -> Result<(u128, u64), AllocError>
    requires divisor { 1 ≤ divisor }
    requires at_least { 1 ≤ var }
    requires at_most { var ≤ 2147483647 }
    ensures passed { var < next
        → IfOk result (λ r. (r.0 ≡ left) × (r.1 ≡ next) × (terms.new.items ≡ terms.old.items)) }
    ensures cancelled { next ≤ var → IfOk result (λ r. (r.0 ≡ left - common_at (count_at counts.now) var)
        × (r.1 ≡ var + 1)
        × (terms.new.items ≡ terms.old.items ++ map (divided_term divisor) (left_at (count_at counts.now) var))) }
{
    if u64::from(var) < next {
        return Ok((left, next));
    }
    let rest = cancel(counts, var, left, divisor, terms)?;
    Ok((rest, u64::from(var) + 1))
}

/// What is left of one variable, divided, and the degree less what cancels.
fn cancel(
    counts: &[u128],
    var: u32,
    left: u128,
    divisor: u128,
    terms: &mut Vec<WideTerm>,
) -> Result<u128, AllocError>
    requires divisor { 1 ≤ divisor }
    requires at_least { 1 ≤ var }
    requires at_most { var ≤ 2147483647 }
    ensures left { IfOk result (λ rest. rest ≡ left - common_at (count_at counts.now) var) }
    ensures terms { OnOk result
        (terms.new.items ≡ terms.old.items ++ map (divided_term divisor) (left_at (count_at counts.now) var)) }
{
    let positive = counted(counts, Lit::new(var, true));
    let negative = counted(counts, Lit::new(var, false));
    push_left(Lit::new(var, true), positive, negative, divisor, terms)?;
    push_left(Lit::new(var, false), negative, positive, divisor, terms)?;
    Ok(left.saturating_sub(positive.min(negative)))
}

/// What is left of a literal that counts more than its negation, divided.
fn push_left(
    lit: Lit,
    count: u128,
    other: u128,
    divisor: u128,
    terms: &mut Vec<WideTerm>,
) -> Result<(), AllocError>
    requires { 1 ≤ divisor }
    ensures { OnOk result (terms.new.items ≡ (if nat_lt other count
        then terms.old.items ++ record { coef = div_ceil (count - other) divisor; lit = lit } ∷ []
        else terms.old.items)) }
{
    if other < count {
        let coef = (count - other).div_ceil(divisor);
        terms.push(WideTerm { coef, lit })?;
    }
    Ok(())
}

/// What a literal counts.
fn counted(counts: &[u128], lit: Lit) -> u128
    ensures { result ≡ count_at counts.now lit }
{
    counts.get(place_of(lit)).copied().unwrap_or(0)
}

/// Zeros where the literals of these variables count.
fn clear_touched(counts: &mut [u128], touched: &[u32])
    requires { AreTouched (count_at counts.old) touched.now }
    ensures { count_at counts.new ≡ (λ l. 0) }
{
    for var in touched {
        clear_place(counts, *var as usize * 2);
        clear_place(counts, *var as usize * 2 + 1);
    }
}

/// Zero at a place, if it is one.
fn clear_place(counts: &mut [u128], place: usize)
    ensures { counts.new ≡ slice_set counts.old place 0 }
{
    if place < counts.len() {
        counts[place] = 0;
    }
}
