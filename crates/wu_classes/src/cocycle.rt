//! Canonical cocycles of class words.
ghost use Rattle.std.specs.Prelude.{◌≡◌, ◌<◌, ◌∷◌, [], length, IfOk};
ghost use Rattle.homology.specs.Sets.{empty, set_of};
ghost use Rattle.cohomology.specs.Classes.{IsClass};
ghost use Rattle.cochain_values.specs.Cochains.{StandsOn};
ghost use Rattle.class_solver.specs.Refusals.{IsTestedCocycle};
ghost use Rattle.wu_classes.specs.Duals.{IsCocycleOf};

use class_cache::Cached;
use class_solver::WordRefusal;
use cochain_values::Cochain;
use f2_chains::Chain;
use memory::Memory;

/// The canonical cocycle of a class word. At once for the zero class; in the time of the cocycles where they are kept; else one pass over
/// the model. `Err` is want of memory.
pub(crate) fn cocycle(m: &Cached, degree: u8, numbers: &[u32]) -> Result<Cochain, Memory>
    requires { IsClass m.now degree numbers.now }
    ensures cocycle { IfOk result (IsCocycleOf m.now degree numbers.now) }
    ensures tested { IfOk result (λ a. IsTestedCocycle m.now degree (set_of a.ids)) }
{
    let _ = m.complex();
    if numbers.is_empty() {
        let none = zero(m, degree)?;
        return Ok(none);
    }
    match m.canonical(degree, numbers) {
        Ok(a) => Ok(a),
        Err(WordRefusal::NoClass(_)) => unreachable!(),
        Err(WordRefusal::Memory) => Err(Memory),
    }
}

/// The zero cochain. `Err` is want of memory.
pub(crate) fn zero(m: &Cached, degree: u8) -> Result<Cochain, Memory>
    ensures degree { IfOk result (λ a. a.degree ≡ degree) }
    ensures zero { IfOk result (λ a. set_of a.ids ≡ empty) }
    ensures stands { IfOk result (StandsOn m.now) }
{
    let complex = m.complex();
    let none = Chain::new(complex.allocator());
    let zero = Cochain::from_ids(complex, degree, &none)?;
    Ok(zero)
}
