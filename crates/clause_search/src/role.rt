//! The parts that the literals of a trail play in an analysis.
ghost use Rattle.std.specs.Prelude.{◌≡◌, ◌≢◌, true, false};

/// What an analysis of a conflict does with a literal of the trail.
#[derive(Clone, Copy)]
pub(crate) enum Role {
    /// The literal plays no part in the conflict.
    Apart,
    /// The literal's negation stands in the learnt clause.
    Kept,
    /// The literal is resolved: its reason is a hint.
    Used,
}

/// Whether the negation stands in the learnt clause.
pub(crate) fn is_kept(role: Role) -> bool
    ensures kept { result ≡ true → role ≡ Role.Kept }
    ensures other { result ≡ false → role ≢ Role.Kept }
{
    matches!(role, Role::Kept)
}
