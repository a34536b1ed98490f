//! Sums of f of back faces over the simplices of the greatest dimension.
ghost use Rattle.std.specs.Prelude.{◌≡◌, ℕ, ◌<◌, ◌≤◌, [], length, slice_index_or, IfOk, IfSome, OnOk};
ghost use Rattle.std.specs.List.{All};
ghost use Rattle.homology.specs.Sets.{plus, set_of, single};
ghost use Rattle.homology.specs.ListSums.{sum_over};
ghost use Rattle.homology.specs.Complexes.{dim};
ghost use Rattle.homology.specs.Kinds.{ids};
ghost use Rattle.wu_classes.specs.Sums.{AreEnds, AreMaps, AreSums, where_odd};

use complex_store::{Complex, faces};
use f2_chains::Chain;
use memory::Memory;
use std::alloc::Global;

/// How many steps the sums of a degree may take.
const MOST_STEPS: usize = 4_000_000;

/// For each simplex h the sum of f of the back faces of the simplices of dimension `n` with h in f of the front face of dimension `p`;
/// `None` where it takes more than 4,000,000 steps: one for each pair of members of f of the two faces. `Err` is want of memory.
pub(crate) fn face_sums(
    k: &Complex,
    maps: &[Chain],
    n: u8,
    p: u8,
) -> Result<Option<Vec<Chain>>, Memory>
    requires maps { AreMaps k.now maps.now }
    requires degree { p ≤ n }
    ensures sums { IfOk result (λ o. IfSome o (λ sums. AreSums k.now p (ids k.now n) sums.items)) }
    ensures fits { IfOk result (λ o. IfSome o (λ sums. length sums.items ≡ length k.now)) }
{
    let simplices = k.of_dimension(n);
    let mut sums = no_chains(k.allocator(), k.len())?;
    let mut steps = 0usize;
    for place in 0..simplices.len() {
        let x = *simplices.at(place);
        let ends = ends_of(k, maps, n, p, x);
        steps = steps.saturating_add(ends.steps());
        if steps > MOST_STEPS {
            return Ok(None);
        }
        add_to(&mut sums, ends.front.ids(), ends.back.ids())?;
    }
    Ok(Some(sums))
}

/// f of the two faces of a simplex that share one vertex.
#[derive(Drop)]
struct Ends<'a> {
    front: &'a Chain,
    back: &'a Chain,
}

impl<'a> Ends<'a> {
    /// How many pairs of members there are.
    fn steps(&self) -> usize {
        self.front.ids().len().saturating_mul(self.back.ids().len())
    }
}

/// f of the front face of dimension `p` of a simplex of dimension `n`, and of the back face. A step for each vertex.
fn ends_of<'a>(k: &Complex, maps: &'a [Chain], n: u8, p: u8, x: u32) -> Ends<'a>
    requires maps { AreMaps k.now maps.now }
    requires degree { p ≤ n }
    requires there { x < length k.now }
    requires dimension { dim k.now x ≡ n }
    ensures ends { AreEnds k.now p x result.front.now result.back.now }
    ensures within { All (λ h. h < length k.now) result.front.now }
{
    let _ = k.len();
    let front = faces::front(k, x, usize::from(n - p));
    let back = faces::back(k, x, usize::from(p));
    Ends {
        front: &maps[front as usize],
        back: &maps[back as usize],
    }
}

/// So many empty chains.
fn no_chains(alloc: Global, count: u32) -> Result<Vec<Chain>, Memory>
    ensures empty { IfOk result (λ sums. (h : ℕ) → slice_index_or sums.items h [] ≡ []) }
    ensures count { IfOk result (λ sums. length sums.items ≡ count) }
{
    let mut sums = Vec::with_capacity(alloc, count as usize)?;
    for k in 0..count {
        sums.push(Chain::new(alloc))?;
    }
    Ok(sums)
}

/// Adds the listed simplices of `more` to the chains of these simplices.
fn add_to(sums: &mut [Chain], ids: &[u32], more: &[u32]) -> Result<(), Memory>
    requires { All (λ h. h < length sums.old) ids.now }
    ensures rows { OnOk result ((h : ℕ) → set_of (slice_index_or sums.new h [])
        ≡ plus (set_of (slice_index_or sums.old h [])) (where_odd ids.now h (sum_over more.now single))) }
    ensures fits { length sums.new ≡ length sums.old }
{
    for h in ids {
        toggle_all(&mut sums[*h as usize], more)?;
    }
    Ok(())
}

/// Adds the listed simplices one by one.
fn toggle_all(chain: &mut Chain, ids: &[u32]) -> Result<(), Memory>
    ensures { OnOk result (set_of chain.new ≡ plus (set_of chain.old) (sum_over ids.now single)) }
{
    for id in ids {
        chain.toggle(*id)?;
    }
    Ok(())
}
