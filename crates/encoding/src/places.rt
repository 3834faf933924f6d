//! A place among numbers that don't fall.
ghost use Rattle.std.specs.Prelude.{◌≡◌, ℕ, ◌<◌, ◌≤◌, length};
ghost use Rattle.std.specs.List.{slice_index_or};
ghost use Rattle.std.specs.List.Sorted.{IsNonDecreasingBy};

/// How many of some numbers, which don't fall, are at most so much.
pub(crate) fn count_at_most(numbers: &[usize], most: usize) -> usize
    requires { IsNonDecreasingBy (λ (k : ℕ). k) numbers.now }
    ensures few { result ≤ length numbers.now }
    ensures below { (k d : ℕ) → k < result → slice_index_or numbers.now k d ≤ most }
    ensures above { (k d : ℕ) → result ≤ k → k < length numbers.now → most < slice_index_or numbers.now k d }
{
    numbers.partition_point(|number| *number <= most)
}
