//! The Bockstein.
ghost use Rattle.std.specs.Prelude.{◌≡◌, ◌+◌, ◌≤◌, None, IfOk, IfErr};
ghost use Rattle.homology.specs.Sets.{Ids, set_of};
ghost use Rattle.homology.specs.Chains.{AreCohomologous, IsCocycle};
ghost use Rattle.cohomology.specs.Searches.{first_broken};
ghost use Rattle.cohomology.specs.Classes.{class_of};
ghost use Rattle.cohomology_operations.specs.Squares.{square};
ghost use Rattle.cohomology_operations.specs.Bocksteins.{bockstein};
ghost use Rattle.cochain_values.specs.Cochains.{StandsOn};
ghost use Rattle.class_solver.specs.Refusals.{IsTestedCocycle, OpRefuses};

use crate::squares::{square_cochain_of_cocycle, square_of_cocycle};
use at_model::Model;
use class_cache::Cached;
use class_solver::{ClassWord, OpRefusal, require_cocycle};
use cochain_values::Cochain;
use memory::Memory;

/// The Bockstein of a cocycle, one degree up: the coboundary with alternating signs of its values as the integers 0 and 1, halved,
/// modulo 2. It is its Sq^1.
///
/// `NotCocycle`: the coboundary of `a` is not empty, and this is the first simplex at which it is 1. `Memory`: none was left. The time
/// of a coboundary, and of that square. Source: A. Hatcher, Algebraic Topology, section 3.E.
pub fn bockstein_cochain(m: &Model, a: &Cochain) -> Result<Cochain, OpRefusal>
    requires stands { StandsOn m.now a.now }
    requires small { a.now.degree ≤ 99 }
    ensures tested { IfOk result (λ c. first_broken m.now (set_of a.now.ids) ≡ None) }
    ensures degree { IfOk result (λ c. c.degree ≡ a.now.degree + 1) }
    ensures bockstein { IfOk result (λ c. set_of c.ids ≡ bockstein m.now (set_of a.now.ids)) }
    ensures square { IfOk result (λ c. set_of c.ids ≡ square m.now 1 a.now.degree (set_of a.now.ids)) }
    ensures cocycle { IfOk result (λ c. IsCocycle m.now c.degree (set_of c.ids)) }
    ensures refused { IfErr result (OpRefuses m.now (set_of a.now.ids)) }
{
    let _ = m.complex();
    require_cocycle(m, a)?;
    let cochain = square_cochain_of_cocycle(m, 1, a)?;
    Ok(cochain)
}

/// The Bockstein of the class of a cocycle: the class word of its Bockstein. It is the same for every choice of a cocycle in the
/// class.
///
/// `NotCocycle`: the coboundary of `a` is not empty, and this is the first simplex at which it is 1. `Memory`: none was left. The time
/// of the Bockstein of the cochain, and of a class word.
pub fn bockstein(version: &Cached, a: &Cochain) -> Result<ClassWord, OpRefusal>
    requires stands { StandsOn version.now a.now }
    requires small { a.now.degree ≤ 99 }
    ensures tested { IfOk result (λ w. first_broken version.now (set_of a.now.ids) ≡ None) }
    ensures degree { IfOk result (λ w. w.degree ≡ a.now.degree + 1) }
    ensures word { IfOk result (λ w. w.numbers.items ≡ class_of version.now (a.now.degree + 1) (bockstein version.now (set_of a.now.ids))) }
    ensures every_choice { IfOk result (λ w. (c : Ids) → AreCohomologous version.now a.now.degree (set_of a.now.ids) c
        → w.numbers.items ≡ class_of version.now (a.now.degree + 1) (bockstein version.now c)) }
    ensures refused { IfErr result (OpRefuses version.now (set_of a.now.ids)) }
{
    let _ = version.complex();
    let cochain = bockstein_cochain(version.model(), a)?;
    let word = version.coordinates_of_cocycle(&cochain)?;
    Ok(word)
}

/// The same of a cochain that is known to be a cocycle. `Err` is want of memory. The time of its Sq^1 and of a class word.
pub fn bockstein_of_cocycle(version: &Cached, a: &Cochain) -> Result<ClassWord, Memory>
    requires tested { IsTestedCocycle version.now a.now.degree (set_of a.now.ids) }
    requires small { a.now.degree ≤ 99 }
    ensures degree { IfOk result (λ w. w.degree ≡ a.now.degree + 1) }
    ensures word { IfOk result (λ w. w.numbers.items ≡ class_of version.now (a.now.degree + 1) (bockstein version.now (set_of a.now.ids))) }
    ensures every_choice { IfOk result (λ w. (c : Ids) → AreCohomologous version.now a.now.degree (set_of a.now.ids) c
        → w.numbers.items ≡ class_of version.now (a.now.degree + 1) (bockstein version.now c)) }
{
    let _ = version.complex();
    let word = square_of_cocycle(version, 1, a)?;
    Ok(word)
}
