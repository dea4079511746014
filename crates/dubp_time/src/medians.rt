ghost use Rattle.std.specs.Prelude.{[], ◌∷◌, None, ◌≡◌, ◌<◌, ◌-◌, ◌+◌, ◌/◌, ℕ, List, Some, IfOk, length, slice_index, IsPermutation};
ghost use Rattle.std.specs.List.Sorted.{IsNonDecreasing};
ghost use Rattle.dubp_time.specs.Median.{median_of, SameTimes};

use dubp_atoms::NoMemory;
use std::alloc::Global;

/// The median of some times: of an even number of them the mean of the middle two, rounded down.
///
/// None exactly where there are no times. `NoMemory` where there is no memory to put them in order.
pub fn median(alloc: Global, times: &[u64]) -> Result<Option<u64>, NoMemory>
    ensures { IfOk result (λ median. median ≡ median_of times.now) }
{
    let mut rising = copy(alloc, times)?;
    rising.sort_unstable();
    Ok(middle_of(rising.as_slice()))
}

/// What the median is, as laws of `median_of`. It makes no call.
pub fn median_laws()
    // the order of the list does not matter, only how often each time stands in it
    ensures any_order { (xs ys : List ℕ) → IsPermutation xs ys → median_of xs ≡ median_of ys }
    ensures same_times { (xs ys : List ℕ) → SameTimes xs ys → median_of xs ≡ median_of ys }

    // of times in rising order it is the mean of the middle two
    ensures rising { (xs : List ℕ) → 0 < length xs → IsNonDecreasing xs →
        median_of xs
        ≡ Some ((slice_index xs ((length xs - 1) / 2) + slice_index xs (length xs / 2)) / 2) }

    // two of its values
    ensures of_none { median_of [] ≡ None }
    ensures of_two { median_of (1301 ∷ 1000 ∷ []) ≡ Some 1150 }
{}

/// A copy of the times.
fn copy(alloc: Global, times: &[u64]) -> Result<Vec<u64>, NoMemory>
    ensures { IfOk result (λ copied. copied.items ≡ times.now) }
{
    times.to_vec(alloc).map_err(|_| NoMemory)
}

/// The median of times that stand in rising order.
pub(crate) fn middle_of(rising: &[u64]) -> Option<u64>
    requires { IsNonDecreasing rising.now }
    ensures { result ≡ median_of rising.now }
{
    let last = rising.len().checked_sub(1)?;
    let low = rising[last / 2];
    let high = rising[rising.len() / 2];
    Some(low.midpoint(high))
}
