//! Groups that are written one after another.
ghost use Rattle.std.specs.Prelude.{◌≡◌, ◌≤◌, [], ◌∷◌, map, length, IsTrue, OnOk};
ghost use Rattle.std.specs.List.{All};
ghost use Rattle.league.specs.Instance.{IsTeamCount, class_fits};
ghost use Rattle.bound_rows.specs.BoundRows.{group_of, groups_of};
ghost use Rattle.bound_rows.specs.Parts as parts;
ghost use Rattle.bound_rows.specs.Drafts.{Extends, HasRoom};

use crate::base::is_paid;
use crate::{Units, add_softened, parts_of, unit_count};
use encoding::{Season, write_class};
use league::{Class, Constraint};
use rows::RowStore;
use std::alloc::{AllocError, Global};

/// The rows so far, the units of the groups that are written, and the number of the next unit variable.
#[derive(Drop)]
pub(crate) struct Draft {
    pub(crate) rows: RowStore,
    pub(crate) groups: Vec<Units>,
    pub(crate) next: u32,
}

/// Adds the groups of the constraints that are paid for.
pub(crate) fn add_paid(
    draft: &mut Draft,
    alloc: Global,
    season: &Season,
    constraints: &[Constraint],
) -> Result<(), AllocError>
    requires fit { All (λ c. IsTrue (class_fits season.now c.class)) constraints.now }
    requires room { HasRoom draft.old (groups_of season.now constraints.now) }
    ensures { OnOk result (Extends draft.old draft.new (groups_of season.now constraints.now)) }
{
    for constraint in constraints {
        add_if_paid(draft, alloc, season, constraint)?;
    }
    Ok(())
}

/// Adds the groups of one constraint, where it is paid for.
fn add_if_paid(
    draft: &mut Draft,
    alloc: Global,
    season: &Season,
    constraint: &Constraint,
) -> Result<(), AllocError>
    requires fits { IsTrue (class_fits season.now constraint.now.class) }
    requires room { HasRoom draft.old (groups_of season.now (constraint.now ∷ [])) }
    ensures { OnOk result (Extends draft.old draft.new (groups_of season.now (constraint.now ∷ []))) }
{
    if is_paid(constraint) {
        add_constraint(draft, alloc, season, constraint)?;
    }
    Ok(())
}

/// Adds the groups of one constraint.
fn add_constraint(
    draft: &mut Draft,
    alloc: Global,
    season: &Season,
    constraint: &Constraint,
) -> Result<(), AllocError>
    requires fits { IsTrue (class_fits season.now constraint.now.class) }
    requires room { HasRoom draft.old (map (group_of season.now constraint.now.penalty)
        (parts.parts_of season.now constraint.now.class)) }
    ensures { OnOk result (Extends draft.old draft.new (map (group_of season.now constraint.now.penalty)
        (parts.parts_of season.now constraint.now.class))) }
{
    let parts = parts_of(alloc, season.n(), constraint)?;
    add_parts(draft, alloc, season, constraint.penalty, &parts)
}

/// Adds the groups of some parts, in order.
fn add_parts(
    draft: &mut Draft,
    alloc: Global,
    season: &Season,
    penalty: u32,
    parts: &[Class],
) -> Result<(), AllocError>
    requires fit { All (λ part. IsTrue (class_fits season.now part)) parts.now }
    requires room { HasRoom draft.old (map (group_of season.now penalty) parts.now) }
    ensures { OnOk result (Extends draft.old draft.new (map (group_of season.now penalty) parts.now)) }
{
    for part in parts {
        add_part(draft, alloc, season, penalty, part)?;
    }
    Ok(())
}

/// Adds the group of one part.
fn add_part(
    draft: &mut Draft,
    alloc: Global,
    season: &Season,
    penalty: u32,
    part: &Class,
) -> Result<(), AllocError>
    requires fits { IsTrue (class_fits season.now part.now) }
    requires room { HasRoom draft.old (group_of season.now penalty part.now ∷ []) }
    ensures { OnOk result (Extends draft.old draft.new (group_of season.now penalty part.now ∷ [])) }
{
    let group = write_class(alloc, season, part)?;
    let units = unit_count(part, &group) as u32;
    add_softened(&mut draft.rows, alloc, &group, draft.next, units)?;
    draft.groups.push(Units { penalty, units })?;
    draft.next += units;
    Ok(())
}
