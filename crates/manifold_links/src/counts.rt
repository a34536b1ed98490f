//! How often numbers are listed.
ghost use Rattle.std.specs.Prelude.{◌≡◌, ◌+◌, ◌<◌, ◌^◌, ℕ, cond, count_by, length, nat_eq, slice_index_or, IfOk};
ghost use Rattle.std.specs.List.{All};

use memory::Memory;
use std::alloc::Global;

/// Zeros for the numbers below `n`. `Err` is want of memory.
pub(crate) fn zeros(alloc: Global, n: u32) -> Result<Vec<u32>, Memory>
    ensures zero { IfOk result (λ counts. (q : ℕ) → slice_index_or counts.items q 0 ≡ 0) }
    ensures fits { IfOk result (λ counts. length counts.items ≡ n) }
{
    let counts = vec![in alloc; 0; n as usize]?;
    Ok(counts)
}

/// Adds to the counts of numbers how often each is listed. A step for each that is listed.
pub(crate) fn count_all(counts: &mut [u32], ids: &[u32])
    requires within { All (λ id. id < length counts.old) ids.now }
    requires small { All (λ n. n + length ids.now < 2 ^ 32) counts.old }
    ensures counted { (q : ℕ) → slice_index_or counts.new q 0 ≡ slice_index_or counts.old q 0 + count_by (λ t. nat_eq q t) ids.now }
    ensures fits { length counts.new ≡ length counts.old }
{
    for id in ids {
        count(counts, *id);
    }
}

/// Adds one to the count of a number. At once.
fn count(counts: &mut [u32], id: u32)
    requires there { id < length counts.old }
    requires small { slice_index_or counts.old id 0 + 1 < 2 ^ 32 }
    ensures counted { (q : ℕ) → slice_index_or counts.new q 0 ≡ slice_index_or counts.old q 0 + cond (nat_eq q id) 1 0 }
    ensures fits { length counts.new ≡ length counts.old }
{
    counts[id as usize] += 1;
}
