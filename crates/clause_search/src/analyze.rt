//! The analysis of a conflict: down the trail, to the first unique implication point or, at level 0, to its front. The
//! clause at that point is what zChaff learns (Zhang, Madigan, Moskewicz and Malik 2001). It is minimised on the way,
//! by local minimisation (Sörensson and Biere 2009).
ghost use Rattle.std.specs.Prelude.{◌≡◌, ◌≢◌, ℕ, ◌+◌, ◌<◌, ◌≤◌, ◌⊎◌, length, true, false};
ghost use Rattle.std.specs.List.{All};
ghost use Rattle.propagate.specs.Trails.{NamesConflict, is_decision, values_of};
ghost use Rattle.clause_search.specs.Marks.{IsLastDecision, IsTraced, IsWalked, role_at};
ghost use Rattle.clause_search.specs.Trails.{entry_at};

use crate::mark::{brings_nothing, mark};
use crate::role::{Role, is_kept};
use propagate::{Conflict, Trail};
use rows::Term;

/// Gives each place of a trail in conflict its part: it goes down the trail and resolves what the conflict needs, until
/// one literal of the last level is left. Of the literals of lower levels those are resolved whose reasons bring no
/// others. The answer is the place of the one literal.
pub(crate) fn analyze(trail: &Trail, conflict: Conflict, start: usize, roles: &mut [Role]) -> usize
    requires roles { length roles.old ≡ length trail.now.entries }
    requires apart { (j : ℕ) → role_at roles.old j ≡ Role.Apart }
    requires conflict { NamesConflict trail.now.rows (values_of trail.now.entries) conflict }
    requires start { IsLastDecision trail.now start }
    ensures { IsWalked trail.now conflict.row start roles.new result 0 }
{
    let len = trail.len();
    let terms = trail.terms(conflict.row);
    let mut lowest = mark(trail, terms, len, start, len, roles);
    let mut k = len;
    'walk: while k > 0 {
        k -= 1;
        lowest = resolve(trail, conflict, k, start, lowest, roles);
    }
    lowest
}

/// Resolves the literal at a place, if it is kept and isn't to stay.
fn resolve(
    trail: &Trail,
    conflict: Conflict,
    k: usize,
    start: usize,
    lowest: usize,
    roles: &mut [Role],
) -> usize
    requires there { k < length trail.now.entries }
    requires start { IsLastDecision trail.now start }
    requires walked { IsWalked trail.now conflict.row start roles.old lowest (k + 1) }
    ensures { IsWalked trail.now conflict.row start roles.new result k }
{
    let _len = trail.len();
    if !is_kept(roles[k]) {
        return lowest;
    }
    let reason = match trail.entry(k).reason {
        Some(reason) => reason,
        None => return lowest,
    };
    let terms = trail.terms(reason);
    if stays(trail, terms, k, start, lowest, roles) {
        return lowest;
    }
    roles[k] = Role::Used;
    mark(trail, terms, k, start, lowest, roles)
}

/// Whether the literal at a place stays in the clause: the lowest of the last level, and on a lower level each whose
/// reason brings further literals.
fn stays(
    trail: &Trail,
    terms: &[Term],
    k: usize,
    start: usize,
    lowest: usize,
    roles: &[Role],
) -> bool
    requires known { All (λ t. t.lit.var ≤ trail.now.vars) terms.now }
    requires within { k ≤ length trail.now.entries }
    requires roles { length roles.now ≡ length trail.now.entries }
    requires above { start ≤ lowest }
    ensures stays { result ≡ true → k ≤ lowest }
    ensures goes { result ≡ false → (lowest < k) ⊎ (k < start) }
{
    if start <= k {
        return k <= lowest;
    }
    !brings_nothing(trail, terms, k, roles)
}

/// Gives each place of a trail in conflict at level 0 its part: it goes down the trail and resolves what the conflict
/// needs.
pub(crate) fn trace(trail: &Trail, conflict: Conflict, roles: &mut [Role])
    requires roles { length roles.old ≡ length trail.now.entries }
    requires apart { (j : ℕ) → role_at roles.old j ≡ Role.Apart }
    requires conflict { NamesConflict trail.now.rows (values_of trail.now.entries) conflict }
    requires forced { (j : ℕ) → j < length trail.now.entries → is_decision (entry_at trail.now.entries j) ≡ false }
    ensures { IsTraced trail.now conflict.row roles.new 0 }
{
    let len = trail.len();
    let terms = trail.terms(conflict.row);
    let _lowest = mark(trail, terms, len, len, len, roles);
    let mut k = len;
    'walk: while k > 0 {
        k -= 1;
        trace_place(trail, conflict, k, roles);
    }
}

/// Resolves the literal at a place, if it is kept.
fn trace_place(trail: &Trail, conflict: Conflict, k: usize, roles: &mut [Role])
    requires there { k < length trail.now.entries }
    requires forced { (j : ℕ) → j < length trail.now.entries → is_decision (entry_at trail.now.entries j) ≡ false }
    requires traced { IsTraced trail.now conflict.row roles.old (k + 1) }
    ensures { IsTraced trail.now conflict.row roles.new k }
{
    let len = trail.len();
    if !is_kept(roles[k]) {
        return;
    }
    let reason = match trail.entry(k).reason {
        Some(reason) => reason,
        None => return,
    };
    let terms = trail.terms(reason);
    roles[k] = Role::Used;
    let _lowest = mark(trail, terms, k, len, len, roles);
}
