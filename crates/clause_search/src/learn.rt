//! What is learnt from a conflict.
ghost use Rattle.std.specs.Prelude.{◌≡◌, ◌⊎◌, ◌++◌, ℕ, ◌^◌, ◌<◌, [], ◌∷◌, length, false, replicate, IfOk, OnOk};
ghost use Rattle.std.specs.List.{All};
ghost use Rattle.propagate.specs.Trails.{IsQuietBelow, NamesConflict, is_decision, values_of};
ghost use Rattle.clause_search.specs.Analysis.{clause_below, hint_of, hints_below, literal_of};
ghost use Rattle.clause_search.specs.Marks.{IsAnalyzed, IsLastDecision, IsTraced, role_at};
ghost use Rattle.clause_search.specs.Trails.{entry_at, lit_at, reason_at};
ghost use Rattle.clause_search.specs.Turns.{Closes, IsLearnable, Learns};

use crate::analyze::{analyze, trace};
use crate::desk::Desk;
use crate::levels::{back_level, count_levels, release_above};
use crate::order::Order;
use crate::role::Role;
use propagate::{Conflict, Trail};
use refutation::Log;
use rows::Lit;
use std::alloc::AllocError;

/// Learns from a conflict above level 0: the clause comes behind the rows and into the log, and the trail goes back to
/// the highest level of the clause's literals before the last decision, where the clause forces its last literal; or to
/// level 0, where the search begins again.
///
/// # Errors
/// Only where memory runs out.
pub(crate) fn learn(
    trail: &mut Trail,
    log: &mut Log,
    desk: &mut Desk,
    conflict: Conflict,
    start: usize,
) -> Result<(), AllocError>
    requires conflict { NamesConflict trail.old.rows (values_of trail.old.entries) conflict }
    requires start { IsLastDecision trail.old start }
    requires below { IsQuietBelow trail.old.rows trail.old.entries }
    requires vars { desk.old.order.vars ≡ trail.old.vars }
    ensures learns { OnOk result (Learns desk.old.given desk.old.kept.places.items trail.old trail.new log.old log.new) }
    ensures kept { OnOk result (desk.new.kept.places.items ≡ desk.old.kept.places.items ++ length log.old ∷ []) }
    ensures room { OnOk result (desk.new.kept.room ≡ desk.old.kept.room) }
    ensures given { desk.new.given ≡ desk.old.given }
    ensures vars { desk.new.order.vars ≡ desk.old.order.vars }
{
    let _len = trail.len();
    let back = explain(trail, desk, conflict, start)?;
    desk.kept.need(&desk.hints, desk.given, log.len() as u64);
    let level = desk.restarts.level(back);
    release_above(trail, level, &mut desk.order);
    keep(trail, log, desk, level)
}

/// Works out the clause of a conflict above level 0, and its hints. The answer is the level to go back to.
///
/// # Errors
/// Only where memory runs out.
fn explain(
    trail: &Trail,
    desk: &mut Desk,
    conflict: Conflict,
    start: usize,
) -> Result<u32, AllocError>
    requires conflict { NamesConflict trail.now.rows (values_of trail.now.entries) conflict }
    requires start { IsLastDecision trail.now start }
    requires vars { desk.old.order.vars ≡ trail.now.vars }
    ensures learnable { IfOk result (IsLearnable trail.now desk.new.clause.items desk.new.hints.items) }
    ensures given { desk.new.given ≡ desk.old.given }
    ensures kept { desk.new.kept.places.items ≡ desk.old.kept.places.items }
    ensures room { desk.new.kept.room ≡ desk.old.kept.room }
    ensures vars { desk.new.order.vars ≡ desk.old.order.vars }
{
    let _len = trail.len();
    find_roles(trail, conflict, start, &mut desk.roles)?;
    collect(
        trail,
        conflict,
        &desk.roles,
        &mut desk.clause,
        &mut desk.hints,
        &mut desk.parts,
    )?;
    raise_all(trail, &desk.parts, &mut desk.order);
    desk.levels = count_levels(trail, &desk.roles, &desk.parts);
    Ok(back_level(trail, &desk.roles, start))
}

/// Makes the variables at these places, which have a part in a conflict, more active.
pub(crate) fn raise_all(trail: &Trail, parts: &[usize], order: &mut Order)
    requires vars { order.old.vars ≡ trail.now.vars }
    requires inside { All (λ k. k < length trail.now.entries) parts.now }
    ensures { order.new.vars ≡ order.old.vars }
{
    let _len = trail.len();
    for k in parts {
        order.raise(trail.entry(*k).lit);
    }
    order.age();
}

/// The desk's clause comes behind the rows, and with the log's numbers into the log, and the trail goes back to a level.
fn keep(trail: &mut Trail, log: &mut Log, desk: &mut Desk, level: u32) -> Result<(), AllocError>
    requires learnable { IsLearnable trail.old desk.old.clause.items desk.old.hints.items level }
    requires below { IsQuietBelow trail.old.rows trail.old.entries }
    ensures learns { OnOk result (Learns desk.old.given desk.old.kept.places.items trail.old trail.new log.old log.new) }
    ensures kept { OnOk result (desk.new.kept.places.items ≡ desk.old.kept.places.items ++ length log.old ∷ []) }
    ensures room { OnOk result (desk.new.kept.room ≡ desk.old.kept.room) }
    ensures given { desk.new.given ≡ desk.old.given }
    ensures vars { desk.new.order.vars ≡ desk.old.order.vars }
{
    let _len = trail.len();
    trail.back_to(level);
    let _number = trail.add(&desk.clause)?;
    desk.name_hints()?;
    let place = log.len();
    log.push(&desk.clause, &desk.names)?;
    desk.kept.push(place, desk.levels)?;
    Ok(())
}

/// Learns the empty clause from a conflict at level 0: it comes into the log.
///
/// # Errors
/// Only where memory runs out.
pub(crate) fn refute(
    trail: &Trail,
    log: &mut Log,
    desk: &mut Desk,
    conflict: Conflict,
) -> Result<(), AllocError>
    requires conflict { NamesConflict trail.now.rows (values_of trail.now.entries) conflict }
    requires forced { (j : ℕ) → j < length trail.now.entries → is_decision (entry_at trail.now.entries j) ≡ false }
    ensures closes { OnOk result (Closes desk.old.given desk.old.kept.places.items trail.now log.old log.new) }
    ensures given { desk.new.given ≡ desk.old.given }
    ensures vars { desk.new.order.vars ≡ desk.old.order.vars }
{
    let _len = trail.len();
    find_root_roles(trail, conflict, &mut desk.roles)?;
    collect(
        trail,
        conflict,
        &desk.roles,
        &mut desk.clause,
        &mut desk.hints,
        &mut desk.parts,
    )?;
    desk.name_hints()?;
    log.push(&[], &desk.names)?;
    Ok(())
}

/// The part of each place of a trail in conflict above level 0.
fn find_roles(
    trail: &Trail,
    conflict: Conflict,
    start: usize,
    roles: &mut Vec<Role>,
) -> Result<(), AllocError>
    requires conflict { NamesConflict trail.now.rows (values_of trail.now.entries) conflict }
    requires start { IsLastDecision trail.now start }
    ensures { OnOk result (IsAnalyzed trail.now conflict.row start roles.new.items) }
{
    set_apart(roles, trail.len())?;
    let _point = analyze(trail, conflict, start, roles);
    Ok(())
}

/// The part of each place of a trail in conflict at level 0.
fn find_root_roles(
    trail: &Trail,
    conflict: Conflict,
    roles: &mut Vec<Role>,
) -> Result<(), AllocError>
    requires conflict { NamesConflict trail.now.rows (values_of trail.now.entries) conflict }
    requires forced { (j : ℕ) → j < length trail.now.entries → is_decision (entry_at trail.now.entries j) ≡ false }
    ensures { OnOk result (IsTraced trail.now conflict.row roles.new.items 0) }
{
    set_apart(roles, trail.len())?;
    trace(trail, conflict, roles);
    Ok(())
}

/// Makes the roles those of so many places, none of which has a part.
fn set_apart(roles: &mut Vec<Role>, len: usize) -> Result<(), AllocError>
    ensures { OnOk result (roles.new.items ≡ replicate len Role.Apart) }
{
    roles.clear();
    roles.resize(len, Role::Apart)
}

/// The negations of the literals that are kept, the reasons of those that are used, and the places of both, all in the
/// trail's order; the row in conflict is the last hint.
///
/// # Errors
/// Only where memory runs out.
fn collect(
    trail: &Trail,
    conflict: Conflict,
    roles: &[Role],
    clause: &mut Vec<Lit>,
    hints: &mut Vec<u64>,
    parts: &mut Vec<usize>,
) -> Result<(), AllocError>
    requires { length roles.now ≡ length trail.now.entries }
    ensures clause { OnOk result (clause.new.items
        ≡ clause_below (lit_at trail.now.entries) (role_at roles.now) (length trail.now.entries)) }
    ensures hints { OnOk result (hints.new.items
        ≡ hints_below (reason_at trail.now.entries) (role_at roles.now) (length trail.now.entries)
        ++ conflict.row ∷ []) }
    ensures small { OnOk result (All (λ hint. hint < 2 ^ 64) hints.new.items) }
    ensures parts { OnOk result (All (λ k. k < length trail.now.entries) parts.new.items) }
{
    clause.clear();
    hints.clear();
    parts.clear();
    for k in 0..trail.len() {
        collect_place(trail, k, roles[k], clause, hints, parts)?;
    }
    hints.push(conflict.row)?;
    Ok(())
}

/// What a place with this part adds to the clause, to the hints, and to the places with a part.
fn collect_place(
    trail: &Trail,
    k: usize,
    role: Role,
    clause: &mut Vec<Lit>,
    hints: &mut Vec<u64>,
    parts: &mut Vec<usize>,
) -> Result<(), AllocError>
    requires { k < length trail.now.entries }
    ensures clause { OnOk result (clause.new.items ≡ clause.old.items ++ literal_of (lit_at trail.now.entries k) role) }
    ensures hints { OnOk result (hints.new.items ≡ hints.old.items ++ hint_of (reason_at trail.now.entries k) role) }
    ensures parts { OnOk result ((parts.new.items ≡ parts.old.items) ⊎ (parts.new.items ≡ parts.old.items ++ k ∷ [])) }
{
    match role {
        Role::Kept => {
            parts.push(k)?;
            let lit = trail.entry(k).lit;
            clause.push(lit.negate())?;
            Ok(())
        }
        Role::Used => {
            parts.push(k)?;
            let reason = trail.entry(k).reason;
            hints.push(reason.unwrap_or(0))?;
            Ok(())
        }
        Role::Apart => Ok(()),
    }
}
