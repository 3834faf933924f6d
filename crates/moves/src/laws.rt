//! Laws of moves: functions that do nothing and whose contracts are proved.
ghost use Rattle.moves.specs.Closure.{ClosuresAreLeast};
ghost use Rattle.moves.specs.Undo.{LegalMovesUndo};

/// The set that k steps reach from a number below k, in any relation of numbers, is the least set that holds it and,
/// with each number, those below k that are next to it. So the teams of a part round swap and the slots of a part team
/// swap are the least sets that these moves speak of.
pub fn least_sets()
    ensures { ClosuresAreLeast }
{}

/// Each legal move undoes itself: on the double round robin that it leads to the same move is legal, and it leads back.
pub fn undo()
    ensures { LegalMovesUndo }
{}
