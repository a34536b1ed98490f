//! The model that grows with the line.
ghost use Rattle.std.specs.Prelude.{◌≡◌, ◌≤◌, ◌∷◌, [], length, slice_index_or, IfOk, OnOk, OnErr};
ghost use Rattle.lines.specs.Lines.{grown, simplices};
ghost use Rattle.version_roots.specs.Kept.{Stands};
ghost use Rattle.version_roots.specs.declared.growing.Growing.TheVariants as state;

use crate::{Entry, Line};
use at_model::Model;
use complex_store::AttachRefusal;
use facet_growth::attach;
use memory::Memory;
use std::alloc::Global;

/// The growing model, which nobody else holds.
#[derive(Drop)]
pub enum Growing {
    /// The model of the line's simplices.
    Standing(Model),
    /// There was no memory for it: it is grown anew when it is asked for.
    Lost,
}

/// Sees to it that the growing model stands. `Err` is want of memory, and leaves it lost.
pub fn revive(
    growing: &mut Growing,
    alloc: Global,
    line: &Line,
    versions: &[Model],
) -> Result<(), Memory>
    requires stands { Stands growing.old (simplices line.now) }
    requires versions { [] ∷ versions.now ≡ (grown line.now).versions }
    ensures revived { OnOk result (growing.new ≡ state.Standing (simplices line.now)) }
    ensures lost { OnErr result (growing.new ≡ state.Lost) }
{
    if let Growing::Lost = growing {
        *growing = Growing::Standing(grown_anew(alloc, line, versions)?);
    }
    Ok(())
}

/// The model of the line's simplices, grown from a version and the simplices that came in since.
fn grown_anew(alloc: Global, line: &Line, versions: &[Model]) -> Result<Model, Memory>
    requires versions { [] ∷ versions.now ≡ (grown line.now).versions }
    ensures { IfOk result (λ m. m ≡ simplices line.now) }
{
    let (base, start) = line.base();
    let mut model = version_share(alloc, versions, base)?;
    for k in start..line.len() {
        let Some(Entry::Attach { simplex, .. }) = line.get(k) else {
            unreachable!()
        };
        if let Err(refusal) = attach(&mut model, simplex) {
            let AttachRefusal::Memory = refusal else {
                unreachable!()
            };
            return Err(Memory);
        }
    }
    Ok(model)
}

/// A share of the model of a version, where those from version 1 on are listed.
pub fn version_share(alloc: Global, versions: &[Model], version: u32) -> Result<Model, Memory>
    requires { version ≤ length versions.now }
    ensures { IfOk result (λ m. m ≡ slice_index_or ([] ∷ versions.now) version []) }
{
    if version == 0 {
        return Ok(Model::empty(alloc));
    }
    versions[version as usize - 1].share()
}
