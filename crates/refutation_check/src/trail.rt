//! The assignment of a replay, undone.
ghost use Rattle.std.specs.Prelude.{◌≡◌, [], length};
ghost use Rattle.rows.specs.Trails.{IsListed};
ghost use Rattle.rows.specs.Values.{valued};
ghost use Rattle.refutation.specs.Following.{all_free};

use rows::Partial;

/// Frees each variable that has a value, by their trail, and empties the trail.
pub(crate) fn undo(partial: &mut Partial, trail: &mut Vec<u32>)
    requires { IsListed partial.old trail.old.items }
    ensures values { valued partial.new ≡ all_free }
    ensures length { length partial.new ≡ length partial.old }
    ensures trail { trail.new.items ≡ [] }
{
    free_all(trail, partial);
    trail.clear();
}

/// Frees these variables, which are all that have a value.
fn free_all(vars: &[u32], partial: &mut Partial)
    requires { IsListed partial.old vars.now }
    ensures values { valued partial.new ≡ all_free }
    ensures length { length partial.new ≡ length partial.old }
{
    for var in vars {
        partial.unset(*var);
    }
}
