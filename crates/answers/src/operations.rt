//! Questions about operations on chains and cochains. A word is stopped as told in [`Stop`].
ghost use Rattle.language.specs.Language.{Delta, Boundary, ClassOf, Bound, Cup, CupI, Square, Bockstein, Cap};
ghost use Rattle.transcript.specs.Answers.{answer};
ghost use Rattle.facet_reader.specs.Meanings.{cochain_meant, chain_meant};
ghost use Rattle.answers.specs.Answers.{Answers};

use crate::literal::{shown_chain, shown_cochain};
use crate::stop::{Stop, differs, not_cocycle};
use crate::words::{chain, cochain, cocycle};
use class_cache::Cached;
use class_solver::{BoundRefusal, OpRefusal, bound as bound_of};
use cochain_values::boundary_of_chain;
use cup_i::{CapRefusal, cap as cap_of, cup_i as cup_i_of};
use facet_reader::{ChainWord, CochainWord, Degree};
use reply_text::{Shown, Why};
use steenrod::{bockstein_of_cocycle, product_of_cocycles, square_of_cocycle};

/// The coboundary of the cochain that a word names, one degree up.
///
/// `Refused`: what stops the word. `Memory`: none was left. The time of the word and of the coboundary.
pub fn delta(version: &Cached, word: &CochainWord) -> Result<Shown, Stop>
    ensures { Answers (answer version.now (Delta (cochain_meant word.now))) result }
{
    let a = cochain(version, word)?;
    let coboundary = a.coboundary(version.complex())?;
    let shown = shown_cochain(version.complex(), &coboundary)?;
    Ok(shown)
}

/// The boundary of the chain that a word names, one degree down; in degree 0 the empty chain of degree 0.
///
/// `Refused`: what stops the word. `Memory`: none was left. The time of the word and of the boundary.
pub fn boundary(version: &Cached, word: &ChainWord) -> Result<Shown, Stop>
    ensures { Answers (answer version.now (Boundary (chain_meant word.now))) result }
{
    let (degree, c) = chain(version, word)?;
    let boundary = boundary_of_chain(version.complex(), degree, &c)?;
    let shown = shown_chain(version.complex(), degree.saturating_sub(1), &boundary)?;
    Ok(shown)
}

/// The class of the cocycle that a word names.
///
/// `Refused`: what stops the word, or else the first simplex at which its coboundary is 1. `Memory`: none was left. The time of the word, of
/// its coboundary and of a class word.
pub fn class(version: &Cached, word: &CochainWord) -> Result<Shown, Stop>
    ensures { Answers (answer version.now (ClassOf (cochain_meant word.now))) result }
{
    let a = cochain(version, word)?;
    match version.coordinates(&a) {
        Ok(class) => Ok(Shown::Class(class)),
        Err(OpRefusal::NotCocycle(id)) => Err(not_cocycle(version.complex(), id)),
        Err(OpRefusal::Memory) => Err(Stop::Memory),
    }
}

/// The canonical bound of the coboundary that a word names, one degree down.
///
/// `Refused`: what stops the word; or else the first simplex at which its coboundary is 1; or else the essential simplex of the first class
/// of its class word. `Memory`: none was left. The time of the word and of its coboundary, and one pass over the model.
pub fn bound(version: &Cached, word: &CochainWord) -> Result<Shown, Stop>
    ensures { Answers (answer version.now (Bound (cochain_meant word.now))) result }
{
    let e = cochain(version, word)?;
    match bound_of(version.model(), &e) {
        Ok(u) => {
            let shown = shown_cochain(version.complex(), &u)?;
            Ok(shown)
        }
        Err(BoundRefusal::NotCocycle(id)) => Err(not_cocycle(version.complex(), id)),
        Err(BoundRefusal::Differs(id)) => Err(differs(version.complex(), id)),
        Err(BoundRefusal::Memory) => Err(Stop::Memory),
    }
}

/// The class of the cup product of the two cocycles that the words name.
///
/// `Refused`: what stops the first word as one of a cocycle, or else the second. `Memory`: none was left. The time of the two words and of
/// their product, and of a class word.
pub fn cup(version: &Cached, first: &CochainWord, second: &CochainWord) -> Result<Shown, Stop>
    ensures { Answers (answer version.now (Cup (cochain_meant first.now) (cochain_meant second.now))) result }
{
    let a = cocycle(version, first)?;
    let b = cocycle(version, second)?;
    let class = product_of_cocycles(version, &a, &b)?;
    Ok(Shown::Class(class))
}

/// The class of Sq^k of the cocycle that a word names, `k` degrees up.
///
/// `Refused`: what stops the word as one of a cocycle. `Memory`: none was left. The time of the word, of the square and of a class word.
pub fn square(version: &Cached, k: Degree, word: &CochainWord) -> Result<Shown, Stop>
    ensures { Answers (answer version.now (Square k (cochain_meant word.now))) result }
{
    let a = cocycle(version, word)?;
    let class = square_of_cocycle(version, k.get(), &a)?;
    Ok(Shown::Class(class))
}

/// The class of the Bockstein of the cocycle that a word names, one degree up.
///
/// `Refused`: what stops the word as one of a cocycle. `Memory`: none was left. The time of the word, of its Sq^1 and of a class word.
pub fn bockstein(version: &Cached, word: &CochainWord) -> Result<Shown, Stop>
    ensures { Answers (answer version.now (Bockstein (cochain_meant word.now))) result }
{
    let a = cocycle(version, word)?;
    let class = bockstein_of_cocycle(version, &a)?;
    Ok(Shown::Class(class))
}

/// The cup-i product of the two cochains that the words name.
///
/// `Refused`: what stops the first word, or else the second. `Memory`: none was left. The time of the two words, and of [`cup_i::cup_i`].
pub fn cup_i(
    version: &Cached,
    i: Degree,
    first: &CochainWord,
    second: &CochainWord,
) -> Result<Shown, Stop>
    ensures { Answers (answer version.now (CupI i (cochain_meant first.now) (cochain_meant second.now))) result }
{
    let a = cochain(version, first)?;
    let b = cochain(version, second)?;
    let product = cup_i_of(version.complex(), i.get(), &a, &b)?;
    let shown = shown_cochain(version.complex(), &product)?;
    Ok(shown)
}

/// The cap product of the cochain and the chain that the words name, of the degree of the chain less that of the cochain.
///
/// `Refused`: what stops the first word, or else the second; or else the two degrees, where that of the cochain is greater. `Memory`: none
/// was left. The time of the two words, and of [`cup_i::cap`].
pub fn cap(version: &Cached, first: &CochainWord, second: &ChainWord) -> Result<Shown, Stop>
    ensures { Answers (answer version.now (Cap (cochain_meant first.now) (chain_meant second.now))) result }
{
    let a = cochain(version, first)?;
    let (degree, c) = chain(version, second)?;
    match cap_of(version.complex(), &a, &c, degree) {
        Ok(product) => {
            let shown = shown_chain(version.complex(), degree - a.degree(), &product)?;
            Ok(shown)
        }
        Err(CapRefusal::Degrees { cochain, chain }) => Err(Stop::Refused(Why::Degrees {
            first: cochain,
            second: chain,
        })),
        Err(CapRefusal::Memory) => Err(Stop::Memory),
    }
}
