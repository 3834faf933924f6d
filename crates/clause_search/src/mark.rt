//! Which places of a trail play a part in a conflict.
ghost use Rattle.std.specs.Prelude.{◌≡◌, ◌≢◌, ℕ, ◌<◌, ◌≤◌, length, slice_set, None, IfSome};
ghost use Rattle.std.specs.List.{All};
ghost use Rattle.rows.specs.Literals.{negate};
ghost use Rattle.rows.specs.Partials.{value_of};
ghost use Rattle.clause_search.specs.Marks.{Marks, role_at};
ghost use Rattle.clause_search.specs.Trails.{before, lit_at};

use crate::role::Role;
use propagate::Trail;
use rows::{Lit, Term, Value};

/// Marks each place before `limit` whose literal makes one of these terms' literals false. The answer is the lowest
/// place from `start` on that was marked so, or `lowest`, if none was below it.
pub(crate) fn mark(
    trail: &Trail,
    terms: &[Term],
    limit: usize,
    start: usize,
    lowest: usize,
    roles: &mut [Role],
) -> usize
    requires known { All (λ t. t.lit.var ≤ trail.now.vars) terms.now }
    requires within { limit ≤ length trail.now.entries }
    requires roles { length roles.old ≡ length trail.now.entries }
    requires unused { (j : ℕ) → j < limit → role_at roles.old j ≢ Role.Used }
    ensures { Marks trail.now.entries terms.now (length terms.now) limit start lowest roles.old roles.new result }
{
    let mut now = lowest;
    for term in terms {
        match false_place(trail, term.lit, limit) {
            Some(place) => now = mark_place(place, start, now, roles),
            None => {}
        }
    }
    now
}

/// Whether each place before `limit` whose literal makes one of these terms' literals false has a part already. It only
/// guides an analysis: no clause says what it answers.
pub(crate) fn brings_nothing(trail: &Trail, terms: &[Term], limit: usize, roles: &[Role]) -> bool
    requires known { All (λ t. t.lit.var ≤ trail.now.vars) terms.now }
    requires within { limit ≤ length trail.now.entries }
    requires roles { length roles.now ≡ length trail.now.entries }
{
    for term in terms {
        if let Some(place) = false_place(trail, term.lit, limit) {
            if let Role::Apart = roles[place] {
                return false;
            }
        }
    }
    true
}

/// The place before `limit` at which a literal became false.
fn false_place(trail: &Trail, lit: Lit, limit: usize) -> Option<usize>
    requires known { lit.var ≤ trail.now.vars }
    requires within { limit ≤ length trail.now.entries }
    ensures before { IfSome result (λ place. place < limit) }
    ensures stands { IfSome result (λ place. lit_at trail.now.entries place ≡ negate lit) }
    ensures none { result ≡ None → value_of (before trail.now.entries limit) lit ≢ Value.False }
{
    let _len = trail.len();
    if let Value::False = trail.value(lit) {
        let place = trail.place(lit);
        if place < limit {
            return Some(place);
        }
    }
    None
}

/// Keeps a place. The answer is the lower of it and `lowest`, if it isn't below `start`.
fn mark_place(place: usize, start: usize, lowest: usize, roles: &mut [Role]) -> usize
    requires { place < length roles.old }
    ensures roles { roles.new ≡ slice_set roles.old place Role.Kept }
    ensures lower { start ≤ place → place < lowest → result ≡ place }
    ensures same { (start ≤ place → lowest ≤ place) → result ≡ lowest }
{
    roles[place] = Role::Kept;
    if start <= place && place < lowest {
        place
    } else {
        lowest
    }
}
