//! The row that an analysis works out, as a table by variables.
ghost use Rattle.std.specs.Prelude.{◌≡◌, ◌-◌, ◌^◌, ◌≤◌, ◌-ℤ◌, pos, OnOk};
ghost use Rattle.std.specs.Bool.{OnTrue};
ghost use Rattle.std.specs.Int.{saturate_signed, w64};
ghost use Rattle.planes.specs.Numbers.{divided_up};
ghost use Rattle.planes.specs.Slack.{free_at, free_of, IsActive, most_at, not_false_at, not_false_of, slack_at};

use crate::counts::Counts;
use crate::draft::Draft;
use crate::numbers::{as_divisor, as_signed, as_unsigned, common, divided, size};
use crate::parts::Parts;
use crate::reason::Reason;
use crate::trail::Trail;
use rows::{Lit, Term};
use std::alloc::{AllocError, Global};

/// What isn't false of a literal and its negation at the end of a level, and what is free of them.
#[derive(Clone, Copy)]
struct Share {
    not_false: u64,
    free: u64,
}

/// What a row comes to at the end of a level: its slack, and the greatest coefficient of a literal that is free there.
#[derive(Clone, Copy)]
struct Look {
    slack: i64,
    most: i64,
}

/// A row, and the parts of the step of which it is the sum. It only guides what is planned: nothing need be right of it.
#[derive(Drop)]
pub(crate) struct Plane {
    pub(crate) counts: Counts,
    pub(crate) degree: i64,
    pub(crate) parts: Parts,
    /// The level at whose end the slack is this, and a coefficient that is free there at most so great.
    level: Option<usize>,
    pub(crate) slack: i64,
    pub(crate) most: i64,
}

impl Plane {
    /// The row without terms, for so many variables.
    ///
    /// # Errors
    /// Only where memory runs out.
    pub(crate) fn new(alloc: Global, vars: u32) -> Result<Plane, AllocError> {
        Ok(Plane {
            counts: Counts::new(alloc, vars)?,
            degree: 0,
            parts: Parts::new(alloc),
            level: None,
            slack: 0,
            most: 0,
        })
    }

    /// Makes it the row with this number.
    ///
    /// # Errors
    /// Only where memory runs out.
    pub(crate) fn begin(
        &mut self,
        trail: &Trail,
        terms: &[Term],
        degree: i64,
        number: u64,
    ) -> Result<(), AllocError> {
        self.counts.clear();
        self.parts.begin(number)?;
        self.degree = degree;
        self.level = None;
        for term in terms {
            self.add(trail, term.lit, i64::from(term.coef))?;
        }
        Ok(())
    }

    /// Adds a reason so many times.
    ///
    /// # Errors
    /// Only where memory runs out.
    pub(crate) fn add_reason(
        &mut self,
        trail: &Trail,
        times: i64,
        reason: &Reason,
    ) -> Result<(), AllocError> {
        let more = times.saturating_mul(reason.degree);
        self.degree = self.degree.saturating_add(more);
        self.slack = self.slack.saturating_sub(more);
        self.parts.add(times, reason.number)?;
        for term in &reason.terms {
            if term.coef > 0 {
                self.add(trail, term.lit, times.saturating_mul(term.coef))?;
            }
        }
        Ok(())
    }

    /// Adds to what a literal counts. What its negation counts cancels.
    fn add(&mut self, trail: &Trail, lit: Lit, more: i64) -> Result<(), AllocError> {
        let old = self.counts.coef(lit);
        let new = old.saturating_add(more);
        self.counts.put(lit, new)?;
        if old < 0 {
            let cancelled = old.saturating_neg().min(more);
            self.degree = self.degree.saturating_sub(cancelled);
            self.slack = self.slack.saturating_add(cancelled);
        }
        let Some(level) = self.level else {
            return Ok(());
        };
        let side = trail.side(lit, level);
        self.most = as_signed(free(new, side)).max(self.most);
        let more = as_signed(not_false(new, side)).saturating_sub(as_signed(not_false(old, side)));
        self.slack = self.slack.saturating_add(more);
        Ok(())
    }

    /// What a literal and its negation give the row at the end of a level.
    #[tactic(auto, unfolding(crate::specs::Slack::not_false_at, crate::specs::Slack::free_at))]
    fn share(&self, trail: &Trail, lit: Lit, level: usize) -> Share
        ensures not_false { result.not_false ≡ not_false_at self.now.counts.coefs.items trail.now level lit }
        ensures free { result.free ≡ free_at self.now.counts.coefs.items trail.now level lit }
        ensures not_false_fits { result.not_false ≤ 2 ^ 63 - 1 }
        ensures free_fits { result.free ≤ 2 ^ 63 - 1 }
    {
        let count = self.counts.coef(lit);
        let side = trail.side(lit, level);
        Share {
            not_false: not_false(count, side),
            free: free(count, side),
        }
    }

    /// What the row comes to at the end of a level.
    fn look(&self, trail: &Trail, level: usize) -> Look
        ensures slack { result.slack ≡ saturate_signed w64 (slack_at self.now trail.now level) }
        ensures most { result.most ≡ pos (most_at self.now trail.now level) }
        ensures most_fits { most_at self.now trail.now level ≤ 2 ^ 63 - 1 }
    {
        let mut sum: u64 = 0;
        let mut most: u64 = 0;
        for lit in &self.counts.touched {
            let share = self.share(trail, *lit, level);
            sum = sum.saturating_add(share.not_false);
            most = share.free.max(most);
        }
        Look {
            slack: difference(sum, self.degree),
            most: as_signed(most),
        }
    }

    /// Works the slack and the greatest free coefficient out for the end of a level.
    fn look_at(&mut self, trail: &Trail, level: usize)
        ensures slack { self.new.slack ≡ saturate_signed w64 (slack_at self.new trail.now level) }
        ensures most { self.new.most ≡ pos (most_at self.new trail.now level) }
        ensures most_fits { most_at self.new trail.now level ≤ 2 ^ 63 - 1 }
        ensures counts { self.new.counts ≡ self.old.counts }
    {
        let look = self.look(trail, level);
        self.level = Some(level);
        self.slack = look.slack;
        self.most = look.most;
    }

    /// Whether the row forces a literal at the end of a level, or is in conflict there. It is looked at anew where that isn't
    /// known.
    #[tactic(auto, using(crate::proofs::SlackLemmas::below_saturated))]
    pub(crate) fn is_active(&mut self, trail: &Trail, level: usize) -> bool
        ensures active { OnTrue result (IsActive self.new trail.now level) }
        ensures counts { self.new.counts ≡ self.old.counts }
    {
        if self.level == Some(level) && self.slack >= self.most {
            return false;
        }
        self.look_at(trail, level);
        self.slack < self.most
    }

    /// Whether the row is in conflict at the end of a level; it is looked at anew where the slack isn't of this level.
    pub(crate) fn is_in_conflict(&mut self, trail: &Trail, level: usize) -> bool
        ensures counts { self.new.counts ≡ self.old.counts }
    {
        if self.level != Some(level) {
            self.look_at(trail, level);
        }
        self.slack < 0
    }

    /// Takes so much off what a literal counts, by the row of its negation.
    ///
    /// # Errors
    /// Only where memory runs out.
    pub(crate) fn weaken(&mut self, lit: Lit, less: i64, axiom: u64) -> Result<(), AllocError> {
        let left = self.counts.coef(lit).saturating_sub(less);
        self.counts.write(lit, left);
        self.degree = self.degree.saturating_sub(less);
        self.level = None;
        self.parts.add(less, axiom)
    }

    /// Takes a literal out that is false at level 0, by the step of its negation.
    ///
    /// # Errors
    /// Only where memory runs out.
    pub(crate) fn take_out(&mut self, lit: Lit, unit: u64) -> Result<(), AllocError> {
        let count = self.counts.coef(lit);
        self.counts.write(lit, 0);
        self.level = None;
        self.parts.add(count, unit)
    }

    /// Divides the row, rounding up, and plans its step.
    ///
    /// # Errors
    /// Only where memory runs out.
    pub(crate) fn divide(&mut self, draft: &mut Draft, divisor: i64) -> Result<(), AllocError>
        ensures { OnOk result (self.new.degree ≡ pos (divided_up self.old.degree divisor)) }
    {
        let number = draft.plan_sum(&self.parts, as_divisor(divisor))?;
        self.parts.begin(number)?;
        self.counts.divide(divisor);
        self.degree = divided(self.degree, divisor);
        self.level = None;
        Ok(())
    }

    /// Makes each coefficient 1. The row has degree 1, and its clause is planned as a step.
    ///
    /// # Errors
    /// Only where memory runs out.
    pub(crate) fn make_clause(
        &mut self,
        draft: &mut Draft,
        lits: &mut Vec<Lit>,
    ) -> Result<(), AllocError> {
        lits.clear();
        for k in 0..self.counts.len() {
            if let Some((lit, _coef)) = self.counts.term(k) {
                lits.push(lit)?;
                self.counts.write(lit, 1);
            }
        }
        let hint = self.number();
        let number = draft.plan_clause(lits, &[hint])?;
        self.level = None;
        self.parts.begin(number)
    }

    /// The number of the row, where its step is planned: the first of its parts.
    pub(crate) fn number(&self) -> u64 {
        match self.parts.list.first() {
            Some(part) => part.row,
            None => 0,
        }
    }

    /// The greatest number that divides all coefficients once these are divided, rounding up.
    pub(crate) fn common_divisor(&self, divisor: i64) -> i64 {
        let mut all = 0;
        for k in 0..self.counts.len() {
            if let Some((_lit, coef)) = self.counts.term(k) {
                all = common(as_unsigned(divided(coef, divisor)), all);
            }
        }
        as_signed(all.max(1))
    }
}

/// What isn't false of a literal that counts so much and of its negation.
fn not_false(count: i64, side: Option<bool>) -> u64
    ensures value { result ≡ not_false_of count side }
    ensures fits { result ≤ 2 ^ 63 - 1 }
{
    match side {
        None => size(count),
        Some(true) => as_unsigned(count),
        Some(false) => as_unsigned(count.saturating_neg()),
    }
}

/// What is free of them.
fn free(count: i64, side: Option<bool>) -> u64
    ensures value { result ≡ free_of count side }
    ensures fits { result ≤ 2 ^ 63 - 1 }
{
    match side {
        None => size(count),
        Some(_side) => 0,
    }
}

/// A number less another one: the nearest number of 64 bits.
fn difference(one: u64, other: i64) -> i64
    ensures { result ≡ saturate_signed w64 (pos one -ℤ other) }
{
    let wide = i128::from(one) - i128::from(other);
    if wide > i128::from(i64::MAX) {
        i64::MAX
    } else {
        wide as i64
    }
}
