//! Laws of descents: functions that do nothing and whose contracts are proved.
ghost use Rattle.descent.specs.Trail.{TrailsClimbBack, TrailsStayFeasible};

/// Taken backwards, the moves of a trail lead back to where it began, and each of them is legal and raises the score.
pub fn climbs_back()
    ensures { TrailsClimbBack }
{}

/// Where nothing is infeasible at a trail's start, nothing is at its end, and each of its moves lowers the objective.
/// So a descent that may make as many moves as its first objective says is settled at its end.
pub fn stays_feasible()
    ensures { TrailsStayFeasible }
{}
