//! Lists for the ids below a number, one behind another in one list.
ghost use Rattle.std.specs.Prelude.{◌≡◌, ℕ, true, ◌+◌, ◌<◌, ◌≤◌, ◌^◌, List, ◌++◌, length, nat_eq, count_by, replicate, slice_index, slice_set, IfOk};
ghost use Rattle.std.specs.List.{All};
ghost use Rattle.homology.specs.Sets.{set_of};
ghost use Rattle.manifold_links.specs.Entries.{AreLaid, HaveRoom, before};

use memory::Memory;
use std::alloc::Global;

/// Where lists of these lengths begin, and where the last one ends. `Err` is want of memory.
pub(crate) fn starts_of(alloc: Global, lengths: &[u32]) -> Result<Vec<usize>, Memory>
    requires { length lengths.now < 2 ^ 32 }
    ensures starts { IfOk result (λ starts. (x : ℕ) → x ≤ length lengths.now → slice_index starts.items x ≡ before lengths.now x) }
    ensures fits { IfOk result (λ starts. length starts.items ≡ length lengths.now + 1) }
{
    let mut starts = Vec::with_capacity(alloc, lengths.len() + 1)?;
    let mut end: usize = 0;
    for one in lengths {
        starts.push(end)?;
        end += *one as usize;
    }
    starts.push(end)?;
    Ok(starts)
}

/// Enters an id at the ends of these lists. A step for each.
pub(crate) fn enter_all(lists: &[u32], id: u32, ends: &mut [usize], ids: &mut [u32])
    requires { (x : ℕ) → set_of lists.now x ≡ true
        → (x < length ends.old) × (slice_index ends.old x + count_by (λ y. nat_eq x y) lists.now ≤ length ids.old) }
    ensures laid { (n : ℕ) (starts : List ℕ) (list : ℕ → List ℕ) → AreLaid n starts list ends.old ids.old → All (λ x. x < n) lists.now
        → HaveRoom starts (λ x. length (list x) + count_by (λ y. nat_eq x y) lists.now) n
        → AreLaid n starts (λ x. list x ++ replicate (count_by (λ y. nat_eq x y) lists.now) id) ends.new ids.new }
    ensures fits { length ids.new ≡ length ids.old }
{
    for list in lists {
        enter(*list, id, ends, ids);
    }
}

/// Enters an id at the end of a list. At once.
fn enter(list: u32, id: u32, ends: &mut [usize], ids: &mut [u32])
    requires there { list < length ends.old }
    requires room { slice_index ends.old list < length ids.old }
    ensures ends { ends.new ≡ slice_set ends.old list (slice_index ends.old list + 1) }
    ensures ids { ids.new ≡ slice_set ids.old (slice_index ends.old list) id }
{
    let end = ends[list as usize];
    ids[end] = id;
    ends[list as usize] = end + 1;
}
