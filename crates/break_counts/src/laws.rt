//! The laws of break counts: functions that do nothing and whose contracts are proved.
ghost use Rattle.break_counts.specs.BreakCounts.{FewBreaksAllowNone};
ghost use Rattle.break_counts.specs.Sums.{AddedBreaksAllowNone};

/// A league that allows its teams too few breaks accepts no schedule.
pub fn few_breaks_allow_none()
    ensures { FewBreaksAllowNone }
{}

/// A league some of whose hard constraints allow its teams too few breaks together accepts no schedule.
pub fn added_breaks_allow_none()
    ensures { AddedBreaksAllowNone }
{}
