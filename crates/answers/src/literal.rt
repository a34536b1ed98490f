//! Sets of simplices as lists, and as they are shown.
ghost use Rattle.std.specs.Prelude.{◌≡◌, ◌∷◌, [], ◌++◌, ◌<◌, IfOk, OnOk, length, map};
ghost use Rattle.homology.specs.Sets.{set_of};
ghost use Rattle.homology.specs.Complexes.{simplex_at};
ghost use Rattle.transcript.specs.Answers.{literal};
ghost use Rattle.transcript.specs.Answers as definition;
ghost use Rattle.reply_text.specs.Answers.{shown_of};
ghost use Rattle.answers.specs.Literals.{there};

use cochain_values::Cochain;
use complex_store::Complex;
use f2_chains::Chain;
use memory::Memory;
use reply_text::Shown;
use simplex_order::{Simplex, sort};

/// A cochain as it is shown.
pub(crate) fn shown_cochain(complex: &Complex, a: &Cochain) -> Result<Shown, Memory>
    ensures { IfOk result (λ s. shown_of s ≡ definition.Cochain a.now.degree (literal complex.now (set_of a.now.ids))) }
{
    let simplices = literal(complex, a.support())?;
    Ok(Shown::Cochain {
        degree: a.degree(),
        simplices,
    })
}

/// A chain as it is shown.
pub(crate) fn shown_chain(complex: &Complex, degree: u8, c: &Chain) -> Result<Shown, Memory>
    ensures { IfOk result (λ s. shown_of s ≡ definition.Chain degree (literal complex.now (set_of c.now))) }
{
    let simplices = literal(complex, c)?;
    Ok(Shown::Chain { degree, simplices })
}

/// The simplices of a set, in simplex order. They are looked up and sorted.
pub(crate) fn literal(complex: &Complex, set: &Chain) -> Result<Vec<Simplex>, Memory>
    ensures { IfOk result (λ simplices. simplices.items ≡ literal complex.now (set_of set.now)) }
{
    let mut simplices = listed(complex, set.ids())?;
    sort(simplices.as_mut_slice());
    Ok(simplices)
}

/// The simplices with these ids, in the order of the list; an id of no simplex is passed over.
pub(crate) fn listed(complex: &Complex, ids: &[u32]) -> Result<Vec<Simplex>, Memory>
    ensures { IfOk result (λ simplices. simplices.items ≡ map (simplex_at complex.now) (there complex.now ids.now)) }
{
    let mut simplices = Vec::with_capacity(complex.allocator(), ids.len())?;
    for id in ids {
        push_simplex(complex, *id, &mut simplices)?;
    }
    Ok(simplices)
}

/// Appends the simplex with this id, where there is one.
fn push_simplex(complex: &Complex, id: u32, simplices: &mut Vec<Simplex>) -> Result<(), Memory>
    ensures { OnOk result
        (simplices.new.items ≡ simplices.old.items ++ map (simplex_at complex.now) (there complex.now (id ∷ []))) }
{
    match complex.simplex(id) {
        Some(simplex) => {
            simplices.push(simplex)?;
            Ok(())
        }
        None => Ok(()),
    }
}

/// The simplex with this id.
pub(crate) fn simplex_at(complex: &Complex, id: u32) -> Simplex
    requires { id < length complex.now }
    ensures { result ≡ simplex_at complex.now id }
{
    let Some(simplex) = complex.simplex(id) else {
        unreachable!()
    };
    simplex
}
