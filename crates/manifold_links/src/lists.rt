//! Lists of numbers.
ghost use Rattle.std.specs.Prelude.{◌≡◌, [], ◌∷◌, IfOk};
ghost use Rattle.homology.specs.Simplices.{same_list};

use memory::Memory;
use std::alloc::Global;

/// One number.
pub(crate) fn only(alloc: Global, id: u32) -> Result<Vec<u32>, Memory>
    ensures { IfOk result (λ one. one.items ≡ id ∷ []) }
{
    let mut one = Vec::new(alloc);
    one.push(id)?;
    Ok(one)
}

/// Whether two lists are equal.
pub(crate) fn are_same(one: &[u32], other: &[u32]) -> bool
    ensures { result ≡ same_list one.now other.now }
{
    one == other
}
