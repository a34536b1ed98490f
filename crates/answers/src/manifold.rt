//! Questions about closed complexes.
ghost use Rattle.std.specs.Prelude.{◌≡◌, [], ◌∷◌, IfOk};
ghost use Rattle.language.specs.Language.{Closed, Links};
ghost use Rattle.transcript.specs.Answers.{answer};
ghost use Rattle.answers.specs.Answers.{Answers};

use crate::stop::Stop;
use at_model::Model;
use manifold_links::{closed as closed_of, links as links_of};
use memory::Memory;
use reply_text::Shown;
use std::alloc::Global;

/// The dimension of a closed complex.
///
/// `Refused`: the complex is not closed, as [`manifold_links::closed`] tells. `Memory`: none was left. A step for each face of each simplex.
pub fn closed(model: &Model) -> Result<Shown, Stop>
    ensures { Answers (answer model.now Closed) result }
{
    let dimension = closed_of(model)?;
    let numbers = alone(model.complex().allocator(), u32::from(dimension))?;
    Ok(Shown::Numbers(numbers))
}

/// That the links of all simplices have the Betti numbers of spheres.
///
/// `Refused`: the first simplex whose link has not, with those that it has. `Memory`: none was left. The time of [`manifold_links::links`].
pub fn links(model: &Model) -> Result<Shown, Stop>
    ensures { Answers (answer model.now Links) result }
{
    links_of(model)?;
    Ok(Shown::Passed)
}

/// One number alone.
fn alone(alloc: Global, number: u32) -> Result<Vec<u32>, Memory>
    ensures { IfOk result (λ numbers. numbers.items ≡ number ∷ []) }
{
    let numbers = vec![in alloc; number]?;
    Ok(numbers)
}
