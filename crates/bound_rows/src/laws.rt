//! Laws of bound rows: functions that do nothing and whose contracts are proved.
ghost use Rattle.bound_rows.specs.Cost.{CostsAreBounded};
ghost use Rattle.bound_rows.specs.Faithful.{AnswersAreBounded, BoundedHaveValues, RefutedBoundsHold};

/// The bound rows are faithful both ways, for every league and bound. An accepted schedule with an objective of at most
/// the bound gives values that satisfy them; an assignment that satisfies them decodes to such a schedule. So where no
/// assignment satisfies the rows of one less than a number, every accepted schedule has an objective of at least it.
pub fn faithful()
    ensures values { BoundedHaveValues }
    ensures answers { AnswersAreBounded }
    ensures refuted { RefutedBoundsHold }
{}

/// The objective of an accepted schedule is at most the largest penalty times the number of terms of the bound rows.
pub fn bounded_costs()
    ensures { CostsAreBounded }
{}
