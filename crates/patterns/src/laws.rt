//! Laws of patterns: functions that do nothing and whose contracts are proved.
ghost use Rattle.patterns.specs.FewestBreaks.{DistinctPatterns, FewestBreaks};

/// The law of the fewest breaks (de Werra): in each single round robin of an even number n of teams, from 2 to 40, no
/// two teams have one pattern, and the teams have at least n - 2 breaks together.
pub fn fewest_breaks()
    ensures distinct { DistinctPatterns }
    ensures breaks { FewestBreaks }
{}
