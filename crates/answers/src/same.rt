//! Questions about the results of one operation on cocycles of one class. A word is stopped as told in [`Stop`], as one of a cocycle, the first of
//! several words first; then a pair that is not of one class stops the question: with its two degrees, or with the first essential simplex
//! at which the class words differ.
ghost use Rattle.std.specs.Prelude.{◌≡◌, Ok, MatchResult};
ghost use Rattle.homology.specs.Sets.{set_of};
ghost use Rattle.cohomology_operations.specs.Cohomologous.{cohomologous};
ghost use Rattle.language.specs.Language.{SameCup, SameSquare, SameBockstein};
ghost use Rattle.transcript.specs.Refusals.{or_why, not_cohomologous};
ghost use Rattle.transcript.specs.Answers.{answer};
ghost use Rattle.facet_reader.specs.Meanings.{cochain_meant};
ghost use Rattle.class_solver.specs.Refusals.{IsTestedCocycle};
ghost use Rattle.answers.specs.Answers.{Answers, Stops};

use crate::literal::shown_cochain;
use crate::stop::{Stop, differs};
use crate::words::cocycle;
use class_cache::Cached;
use cochain_values::Cochain;
use facet_reader::{CochainWord, Degree};
use reply_text::{Shown, Why};
use steenrod::{
    ClassRefusal, bound_of_bocksteins, bound_of_products, bound_of_squares, require_cohomologous,
};

/// The canonical bound of the sum of the cup products of `a` and `b` and of `a2` and `b2`.
///
/// `Refused`: what stops a word; or else the pair `a` and `a2`, or else the pair `b` and `b2`. `Memory`: none was left. The time of the
/// words, of two class words and of the two products, and one pass over the model.
pub fn same_cup(
    version: &Cached,
    a: &CochainWord,
    a2: &CochainWord,
    b: &CochainWord,
    b2: &CochainWord,
) -> Result<Shown, Stop>
    ensures { Answers (answer version.now (SameCup (cochain_meant a.now) (cochain_meant a2.now) (cochain_meant b.now) (cochain_meant b2.now))) result }
{
    let first = cocycle(version, a)?;
    let first_other = cocycle(version, a2)?;
    let second = cocycle(version, b)?;
    let second_other = cocycle(version, b2)?;
    cohomologous(version, &first, &first_other)?;
    cohomologous(version, &second, &second_other)?;
    let bound = bound_of_products(
        version.model(),
        &first,
        &first_other,
        &second,
        &second_other,
    )?;
    let shown = shown_cochain(version.complex(), &bound)?;
    Ok(shown)
}

/// The canonical bound of the sum of Sq^k of two cocycles.
///
/// `Refused`: what stops a word, or else the pair. `Memory`: none was left. The time of the words, of a class word and of the two squares,
/// and one pass over the model.
pub fn same_square(
    version: &Cached,
    k: Degree,
    a: &CochainWord,
    a2: &CochainWord,
) -> Result<Shown, Stop>
    ensures { Answers (answer version.now (SameSquare k (cochain_meant a.now) (cochain_meant a2.now))) result }
{
    let first = cocycle(version, a)?;
    let second = cocycle(version, a2)?;
    cohomologous(version, &first, &second)?;
    let bound = bound_of_squares(version.model(), k.get(), &first, &second)?;
    let shown = shown_cochain(version.complex(), &bound)?;
    Ok(shown)
}

/// The canonical bound of the sum of the Bocksteins of two cocycles.
///
/// `Refused`: what stops a word, or else the pair. `Memory`: none was left. The time of the words, of a class word and of the two Bocksteins,
/// and one pass over the model.
pub fn same_bockstein(version: &Cached, a: &CochainWord, a2: &CochainWord) -> Result<Shown, Stop>
    ensures { Answers (answer version.now (SameBockstein (cochain_meant a.now) (cochain_meant a2.now))) result }
{
    let first = cocycle(version, a)?;
    let second = cocycle(version, a2)?;
    cohomologous(version, &first, &second)?;
    let bound = bound_of_bocksteins(version.model(), &first, &second)?;
    let shown = shown_cochain(version.complex(), &bound)?;
    Ok(shown)
}

/// That two cocycles are of one class.
fn cohomologous(version: &Cached, a: &Cochain, b: &Cochain) -> Result<(), Stop>
    requires first { IsTestedCocycle version.now a.now.degree (set_of a.now.ids) }
    requires second { IsTestedCocycle version.now b.now.degree (set_of b.now.ids) }
    ensures { MatchResult result
        (λ _. cohomologous version.now (a.now.degree, set_of a.now.ids) (b.now.degree, set_of b.now.ids) ≡ Ok tt)
        (Stops (or_why not_cohomologous (cohomologous version.now (a.now.degree, set_of a.now.ids) (b.now.degree, set_of b.now.ids)))) }
{
    match require_cohomologous(version.model(), a, b) {
        Ok(()) => Ok(()),
        Err(ClassRefusal::Degrees { first, second }) => {
            Err(Stop::Refused(Why::Degrees { first, second }))
        }
        Err(ClassRefusal::Differs(id)) => Err(differs(version.complex(), id)),
        Err(ClassRefusal::Memory) => Err(Stop::Memory),
    }
}
