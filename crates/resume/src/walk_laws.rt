//! Laws of moves that leave slots alone: functions that do nothing and whose contracts are proved.
ghost use Rattle.resume.specs.Alone.{EditsKeep};

/// An edit of a double round robin touches no game of the first k slots exactly where the same games take place in them
/// before and after: so the moves whose edits do are exactly the legal moves that keep these slots.
pub fn edits_keep()
    ensures { EditsKeep }
{}
