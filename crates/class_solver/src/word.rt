//! The class word of a cocycle.
ghost use Rattle.std.specs.Prelude.{◌≡◌, ◌≤◌, None, OnOk, IfOk, IfErr};
ghost use Rattle.homology.specs.Sets.{set_of};
ghost use Rattle.homology.specs.Chains.{IsCocycle};
ghost use Rattle.cohomology.specs.Searches.{first_broken};
ghost use Rattle.cohomology.specs.Classes.{class_of, essentials};
ghost use Rattle.cochain_values.specs.Cochains.{StandsOn};
ghost use Rattle.class_solver.specs.Refusals.{IsTestedCocycle, OpRefuses};

use crate::OpRefusal;
use crate::along_phi::{broken, numbers_among, pulled};
use at_model::Model;
use cochain_values::Cochain;
use memory::Memory;

/// A class of cocycles: its degree, and the numbers of the classes that it is the sum of, ascending; the zero class has none.
/// Class #k of a degree is born with the essential simplex at place k of that degree, counted from 0.
#[derive(Debug, Drop)]
pub struct ClassWord {
    /// The degree.
    pub degree: u8,
    /// The class numbers, ascending, each once.
    pub numbers: Vec<u32>,
}

/// The class word of a cocycle: the word of the one sum of classes whose canonical cocycle differs from it by a coboundary.
///
/// `NotCocycle`: the coboundary of `a` is not empty, and this is the first simplex at which it is 1. `Memory`: none was left. The
/// time of the coboundary, and one pass over the model.
pub fn coordinates(m: &Model, a: &Cochain) -> Result<ClassWord, OpRefusal>
    requires stands { StandsOn m.now a.now }
    requires small { a.now.degree ≤ 254 }
    ensures tested { IfOk result (λ w. first_broken m.now (set_of a.now.ids) ≡ None) }
    ensures degree { IfOk result (λ w. w.degree ≡ a.now.degree) }
    ensures word { IfOk result (λ w. w.numbers.items ≡ class_of m.now a.now.degree (set_of a.now.ids)) }
    ensures refused { IfErr result (OpRefuses m.now (set_of a.now.ids)) }
{
    require_cocycle(m, a)?;
    let word = coordinates_of_cocycle(m, a)?;
    Ok(word)
}

/// The same of a cochain that is known to be a cocycle. `Err` is want of memory. One pass over the model.
pub fn coordinates_of_cocycle(m: &Model, a: &Cochain) -> Result<ClassWord, Memory>
    requires { IsCocycle m.now a.now.degree (set_of a.now.ids) }
    ensures degree { IfOk result (λ w. w.degree ≡ a.now.degree) }
    ensures word { IfOk result (λ w. w.numbers.items ≡ class_of m.now a.now.degree (set_of a.now.ids)) }
{
    let essential = m.essential(a.degree())?;
    let word = coordinates_among(m, essential.as_slice(), a)?;
    Ok(word)
}

/// The same, where the essential simplices of its degree are known. `Err` is want of memory. One pass over the model.
pub fn coordinates_among(m: &Model, essential: &[u32], a: &Cochain) -> Result<ClassWord, Memory>
    requires essential { essential.now ≡ essentials m.now a.now.degree }
    requires cocycle { IsCocycle m.now a.now.degree (set_of a.now.ids) }
    ensures degree { IfOk result (λ w. w.degree ≡ a.now.degree) }
    ensures word { IfOk result (λ w. w.numbers.items ≡ class_of m.now a.now.degree (set_of a.now.ids)) }
{
    let u = pulled(m, a)?;
    let numbers = numbers_among(m, essential, a, &u)?;
    Ok(ClassWord {
        degree: a.degree(),
        numbers,
    })
}

/// That a cochain is a cocycle. `NotCocycle`: its coboundary is not empty, and this is the first simplex at which it is 1.
/// `Memory`: none was left. The time of the coboundary.
pub fn require_cocycle(m: &Model, a: &Cochain) -> Result<(), OpRefusal>
    requires stands { StandsOn m.now a.now }
    requires small { a.now.degree ≤ 254 }
    ensures tested { OnOk result (IsTestedCocycle m.now a.now.degree (set_of a.now.ids)) }
    ensures refused { IfErr result (OpRefuses m.now (set_of a.now.ids)) }
{
    match broken(m, a)? {
        Some(x) => Err(OpRefusal::NotCocycle(x)),
        None => Ok(()),
    }
}
