//! Sets of ids as marks: a place for each id, which tells whether it is a member.
ghost use Rattle.std.specs.Prelude.{◌≡◌, ◌<◌, ◌≤◌, ◌^◌, length, IfOk};
ghost use Rattle.std.specs.List.{All};
ghost use Rattle.std.specs.List.Sorted.{IsStrictlyIncreasing};
ghost use Rattle.homology.specs.Sets.{empty, plus, set_of, single};
ghost use Rattle.homology.specs.ListSums.{odd_over, sum_over};
ghost use Rattle.cochain_values.specs.Marks.{marked};

use f2_chains::Chain;
use memory::Memory;
use std::alloc::Global;

/// Marks for the ids below `n`, of which none is a member. `Err` is want of memory.
pub fn unmarked(alloc: Global, n: u32) -> Result<Vec<bool>, Memory>
    ensures set { IfOk result (λ marks. marked marks.items ≡ empty) }
    ensures fits { IfOk result (λ marks. length marks.items ≡ n) }
{
    let marks = vec![in alloc; false; n as usize]?;
    Ok(marks)
}

/// Marks for the ids below `n`, of which the listed ones are members. `Err` is want of memory.
pub fn marks_of(alloc: Global, n: u32, ids: &[u32]) -> Result<Vec<bool>, Memory>
    requires ascending { IsStrictlyIncreasing ids.now }
    requires within { All (λ id. id < n) ids.now }
    ensures set { IfOk result (λ marks. marked marks.items ≡ set_of ids.now) }
    ensures fits { IfOk result (λ marks. length marks.items ≡ n) }
{
    let mut marks = unmarked(alloc, n)?;
    toggle_all(&mut marks, ids);
    Ok(marks)
}

/// Adds each id of the list to the set: it comes in where it was not, and goes where it was.
pub(crate) fn toggle_all(marks: &mut [bool], ids: &[u32])
    requires { All (λ id. id < length marks.old) ids.now }
    ensures set { marked marks.new ≡ plus (marked marks.old) (sum_over ids.now single) }
    ensures fits { length marks.new ≡ length marks.old }
{
    for id in ids {
        toggle(marks, *id as usize);
    }
}

/// Adds one id. At once.
pub fn toggle(marks: &mut [bool], id: usize)
    requires { id < length marks.old }
    ensures set { marked marks.new ≡ plus (marked marks.old) (single id) }
    ensures fits { length marks.new ≡ length marks.old }
{
    marks[id] = !marks[id];
}

/// Whether an odd number of the listed ids are members. A look at each.
pub fn parity(marks: &[bool], ids: &[u32]) -> bool
    requires { All (λ id. id < length marks.now) ids.now }
    ensures { result ≡ odd_over ids.now (marked marks.now) }
{
    let mut odd = false;
    for id in ids {
        if marks[*id as usize] {
            odd = !odd;
        }
    }
    odd
}

/// The set as a chain: one pass over all ids. `Err` is want of memory.
pub fn chain_of(alloc: Global, marks: &[bool]) -> Result<Chain, Memory>
    requires { length marks.now ≤ 2 ^ 32 }
    ensures { IfOk result (λ c. set_of c ≡ marked marks.now) }
{
    let mut ids = Vec::new(alloc);
    for (id, mark) in marks.iter().enumerate() {
        if *mark {
            ids.push(id as u32)?;
        }
    }
    Chain::from_ascending(alloc, &ids)
}
