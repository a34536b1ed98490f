//! What the words of a question stand for.
ghost use Rattle.std.specs.Prelude.{◌≡◌, ◌≤◌, Ok, IfOk, MatchResult};
ghost use Rattle.homology.specs.Sets.{set_of};
ghost use Rattle.homology.specs.Chains.{IsChain};
ghost use Rattle.cochain_values.specs.Cochains.{StandsOn};
ghost use Rattle.class_solver.specs.Refusals.{IsTestedCocycle};
ghost use Rattle.language.specs.Language as language;
ghost use Rattle.transcript.specs.Words.{cochain_of, cocycle_of, chain_of};
ghost use Rattle.facet_reader.specs.Meanings.{cochain_meant, chain_meant};
ghost use Rattle.answers.specs.Answers.{Stops};

use crate::stop::{Stop, not_cocycle};
use class_cache::Cached;
use class_solver::{OpRefusal, cycles};
use cochain_values::Cochain;
use f2_chains::Chain;
use facet_reader::{ChainWord, CochainWord, Degree};

/// The cochain that a word names.
pub(crate) fn cochain(version: &Cached, word: &CochainWord) -> Result<Cochain, Stop>
    ensures word { MatchResult result
        (λ a. cochain_of version.now (cochain_meant word.now) ≡ Ok (a.degree, set_of a.ids))
        (Stops (cochain_of version.now (cochain_meant word.now))) }
    ensures stands { IfOk result (StandsOn version.now) }
    ensures small { IfOk result (λ a. a.degree ≤ 99) }
{
    match word {
        CochainWord::Literal { degree, simplices } => {
            let a = Cochain::from_simplices(version.complex(), degree.get(), simplices.items())?;
            Ok(a)
        }
        CochainWord::Classes { degree, numbers } => sum_of_classes(
            version,
            *degree,
            numbers.items(),
        ),
    }
}

/// The sum of the canonical cocycles of the classes with these numbers, which is a cocycle.
fn sum_of_classes(version: &Cached, degree: Degree, numbers: &[u32]) -> Result<Cochain, Stop>
    ensures word { MatchResult result
        (λ a. cochain_of version.now (language.CochainWord.Classes degree numbers.now) ≡ Ok (a.degree, set_of a.ids))
        (Stops (cochain_of version.now (language.CochainWord.Classes degree numbers.now))) }
    ensures stands { IfOk result (StandsOn version.now) }
    ensures small { IfOk result (λ a. a.degree ≤ 99) }
    ensures tested { IfOk result (λ a. IsTestedCocycle version.now a.degree (set_of a.ids)) }
{
    let a = version.canonical(degree.get(), numbers)?;
    Ok(a)
}

/// The cocycle that a word names. Listed simplices are tested, in the time of the coboundary; a sum of classes is one.
pub(crate) fn cocycle(version: &Cached, word: &CochainWord) -> Result<Cochain, Stop>
    ensures word { MatchResult result
        (λ a. cocycle_of version.now (cochain_meant word.now) ≡ Ok (a.degree, set_of a.ids))
        (Stops (cocycle_of version.now (cochain_meant word.now))) }
    ensures stands { IfOk result (StandsOn version.now) }
    ensures small { IfOk result (λ a. a.degree ≤ 99) }
    ensures tested { IfOk result (λ a. IsTestedCocycle version.now a.degree (set_of a.ids)) }
{
    match word {
        CochainWord::Literal { .. } => tested(version, word),
        CochainWord::Classes { degree, numbers } => {
            let a = sum_of_classes(version, *degree, numbers.items())?;
            Ok(a)
        }
    }
}

/// The cocycle that a word names, by the test of its coboundary.
fn tested(version: &Cached, word: &CochainWord) -> Result<Cochain, Stop>
    ensures word { MatchResult result
        (λ a. cocycle_of version.now (cochain_meant word.now) ≡ Ok (a.degree, set_of a.ids))
        (Stops (cocycle_of version.now (cochain_meant word.now))) }
    ensures stands { IfOk result (StandsOn version.now) }
    ensures small { IfOk result (λ a. a.degree ≤ 99) }
    ensures tested { IfOk result (λ a. IsTestedCocycle version.now a.degree (set_of a.ids)) }
{
    let a = cochain(version, word)?;
    match version.require_cocycle(&a) {
        Ok(()) => Ok(a),
        Err(OpRefusal::NotCocycle(id)) => Err(not_cocycle(version.complex(), id)),
        Err(OpRefusal::Memory) => Err(Stop::Memory),
    }
}

/// The chain that a word names, with its degree.
pub(crate) fn chain(version: &Cached, word: &ChainWord) -> Result<(u8, Chain), Stop>
    ensures word { MatchResult result
        (λ c. chain_of version.now (chain_meant word.now) ≡ Ok (c.0, set_of c.1))
        (Stops (chain_of version.now (chain_meant word.now))) }
    ensures chain { IfOk result (λ c. IsChain version.now c.0 (set_of c.1)) }
    ensures small { IfOk result (λ c. c.0 ≤ 99) }
{
    match word {
        ChainWord::Literal { degree, simplices } => {
            let listed = Cochain::from_simplices(
                version.complex(),
                degree.get(),
                simplices.items(),
            )?;
            let chain = listed.support().copy()?;
            Ok((degree.get(), chain))
        }
        ChainWord::Cycles { degree, numbers } => {
            let chain = cycles(version.model(), degree.get(), numbers.items())?;
            Ok((degree.get(), chain))
        }
    }
}
