//! f of all simplices.
ghost use Rattle.std.specs.Prelude.{IfOk, IfSome};
ghost use Rattle.wu_classes.specs.Sums.{AreMaps};

use class_cache::Cached;
use f2_chains::Chain;
use memory::Memory;

/// How many members f of all simplices may have together.
const MOST_MEMBERS: usize = 4_000_000;

/// How many simplices for each class there are at most where f of all simplices is less work than a pass over the model for each class.
const SIMPLICES_OF_A_CLASS: u32 = 64;

/// f of each simplex, where the complex of dimension `n` has a class for 64 simplices, their canonical cocycles are not kept, and f has no
/// more than 4,000,000 members; else `None`. One reduction a simplex. `Err` is want of memory.
pub(crate) fn maps_if_few(m: &Cached, n: u8) -> Result<Option<Vec<Chain>>, Memory>
    ensures { IfOk result (λ o. IfSome o (λ maps. AreMaps m.now maps.items)) }
{
    if classes(m, n) < m.len() / SIMPLICES_OF_A_CLASS || are_kept(m, n) {
        return Ok(None);
    }
    let maps = maps(m)?;
    Ok(maps)
}

/// How many classes there are in the degrees up to `n`.
fn classes(m: &Cached, n: u8) -> u32 {
    let mut classes = 0u32;
    for p in 0..n {
        classes = classes.saturating_add(m.betti(p));
    }
    classes.saturating_add(m.betti(n))
}

/// Whether the canonical cocycles of all classes of the degrees up to `n` are kept.
fn are_kept(m: &Cached, n: u8) -> bool {
    for p in 0..n {
        if !are_kept_of(m, p) {
            return false;
        }
    }
    are_kept_of(m, n)
}

/// The same of the classes of a degree.
fn are_kept_of(m: &Cached, degree: u8) -> bool {
    for k in 0..m.betti(degree) {
        if m.kept_cocycle(degree, k).is_none() {
            return false;
        }
    }
    true
}

/// f of each simplex; `None` where it has more than 4,000,000 members.
fn maps(m: &Cached) -> Result<Option<Vec<Chain>>, Memory>
    ensures { IfOk result (λ o. IfSome o (λ maps. AreMaps m.now maps.items)) }
{
    let mut maps = Vec::with_capacity(m.complex().allocator(), m.len() as usize)?;
    let mut members = 0usize;
    for t in 0..m.len() {
        let f = m.f_of(t)?;
        members = members.saturating_add(f.ids().len());
        if members > MOST_MEMBERS {
            return Ok(None);
        }
        maps.push(f)?;
    }
    Ok(Some(maps))
}
