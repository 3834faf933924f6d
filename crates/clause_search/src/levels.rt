//! The levels of a trail: where its last one begins, to which one a search goes back, and what it takes off then. To go
//! back past levels that had no part in a conflict is the backjumping of GRASP.
ghost use Rattle.std.specs.Prelude.{◌≡◌, ℕ, ◌<◌, ◌≤◌, length, false, None, IfSome};
ghost use Rattle.std.specs.List.{All};
ghost use Rattle.propagate.specs.Trails.{IsQuietBelow, is_decision};
ghost use Rattle.clause_search.specs.Marks.{IsBackLevel, IsLastDecision};
ghost use Rattle.clause_search.specs.Trails.{entry_at};

use crate::order::Order;
use crate::role::{Role, is_kept};
use propagate::Trail;

/// The place of the last decision, if there is one.
pub(crate) fn last_decision(trail: &Trail) -> Option<usize>
    requires { IsQuietBelow trail.now.rows trail.now.entries }
    ensures some { IfSome result (IsLastDecision trail.now) }
    ensures none { result ≡ None
        → ((j : ℕ) → j < length trail.now.entries → is_decision (entry_at trail.now.entries j) ≡ false) }
{
    let mut k = trail.len();
    'places: while k > 0 {
        k -= 1;
        if trail.entry(k).reason.is_none() {
            return Some(k);
        }
    }
    None
}

/// The level to which the learnt clause lets the search go back: the highest of its literals before the last decision,
/// which stands at `start`, or 0.
pub(crate) fn back_level(trail: &Trail, roles: &[Role], start: usize) -> u32
    requires inside { start ≤ length trail.now.entries }
    requires roles { length roles.now ≡ length trail.now.entries }
    ensures { IsBackLevel trail.now.entries roles.now start result }
{
    let mut k = start;
    'places: while k > 0 {
        k -= 1;
        if is_kept(roles[k]) {
            return trail.entry(k).level;
        }
    }
    0
}

/// Puts the variables of all levels above this one back among those that wait for a decision, and keeps their signs.
pub(crate) fn release_above(trail: &Trail, level: u32, order: &mut Order)
    requires { order.old.vars ≡ trail.now.vars }
    ensures { order.new.vars ≡ order.old.vars }
{
    let mut k = trail.len();
    'places: while k > 0 {
        k -= 1;
        let entry = trail.entry(k);
        if entry.level <= level {
            return;
        }
        order.release(entry.lit);
    }
}

/// From how many levels the literals of the learnt clause come, which are among those at these places. It only guides
/// which clauses are forgotten: no clause says what it answers.
pub(crate) fn count_levels(trail: &Trail, roles: &[Role], parts: &[usize]) -> u32
    requires roles { length roles.now ≡ length trail.now.entries }
    requires inside { All (λ k. k < length trail.now.entries) parts.now }
{
    let mut count: u32 = 0;
    let mut level = 0;
    for k in parts {
        let entry = trail.entry(*k);
        if is_kept(roles[*k]) && (count == 0 || entry.level != level) {
            count = count.saturating_add(1);
            level = entry.level;
        }
    }
    count
}

/// Puts the variables of all levels back among those that wait for a decision, and keeps their signs.
pub(crate) fn release_all(trail: &Trail, order: &mut Order)
    requires { order.old.vars ≡ trail.now.vars }
    ensures { order.new.vars ≡ order.old.vars }
{
    for k in 0..trail.len() {
        order.release(trail.entry(k).lit);
    }
}
