//! Laws of rows with a sum that is to be least: functions that do nothing and whose contracts are proved.
ghost use Rattle.command_rows.specs.Least.{ObjectivesAreSums, SumsAreEnough};

/// The least sum is the least objective, for every league. An assignment that satisfies the rows decodes to an accepted
/// schedule that costs at most the sum; and an accepted schedule that costs at most 2^64 - 1 gives values that satisfy
/// the rows, with a sum of at most what it costs.
pub fn least_sums()
    ensures enough { SumsAreEnough }
    ensures reached { ObjectivesAreSums }
{}
