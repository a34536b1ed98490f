//! Questions: the words behind a verb.
ghost use Rattle.std.specs.Prelude.{◌≡◌, MatchOption, MatchResult};
ghost use Rattle.homology.specs.Simplices.{same_list};
ghost use Rattle.language.specs.declared.fault.FaultKind.TheVariants.{Word};
ghost use Rattle.language.specs.Language.{Ask};
ghost use Rattle.language.specs.Verbs.{same_text};
ghost use Rattle.language.specs.Grammar.{chosen, sames, verb_form};
ghost use Rattle.facet_reader.specs.Meanings.{Refuses, compute_meant};
ghost use Rattle.facet_reader.specs.Tables.{Has, Lacks};

use crate::words::Words;
use crate::{Compute, ReadRefusal};
use language::{FaultKind, Verb};
use std::alloc::Global;

/// The question that the words behind a verb complete.
#[tactic(auto, unfolding(language::specs::Grammar::form))]
pub(crate) fn question(alloc: Global, verb: Verb, words: &mut Words) -> Result<Compute, ReadRefusal>
    ensures { MatchResult result (λ q. verb_form verb words.old ≡ Ok (Ask (compute_meant q)))
        (λ e. Refuses (verb_form verb words.old) e) }
{
    match verb {
        Verb::Count => words.alone_question(Compute::Count),
        Verb::Betti => words.alone_question(Compute::Betti),
        Verb::KindOf => Ok(Compute::KindOf(words.alone_simplex()?)),
        Verb::ModelOf => Ok(Compute::ModelOf(words.alone_simplex()?)),
        Verb::Classes => Ok(Compute::Classes(words.alone_degree()?)),
        Verb::Show => Ok(Compute::Show(words.alone_cochain(alloc)?)),
        Verb::ShowChain => Ok(Compute::ShowChain(words.alone_chain(alloc)?)),
        Verb::Delta => Ok(Compute::Delta(words.alone_cochain(alloc)?)),
        Verb::Boundary => Ok(Compute::Boundary(words.alone_chain(alloc)?)),
        Verb::ClassOf => Ok(Compute::ClassOf(words.alone_cochain(alloc)?)),
        Verb::Bound => Ok(Compute::Bound(words.alone_cochain(alloc)?)),
        Verb::Cup => words.cup(alloc),
        Verb::CupI => words.cup_i(alloc),
        Verb::Square => words.square(alloc),
        Verb::Bockstein => Ok(Compute::Bockstein(words.alone_cochain(alloc)?)),
        Verb::SameCup => words.same_cup(alloc),
        Verb::SameSquare => words.same_square(alloc),
        Verb::SameBockstein => words.same_bockstein(alloc),
        Verb::Cap => words.cap(alloc),
        Verb::Closed => words.alone_question(Compute::Closed),
        Verb::Links => words.alone_question(Compute::Links),
        Verb::Duality => words.alone_question(Compute::Duality),
        Verb::Wu => words.alone_question(Compute::Wu),
        Verb::Sw => words.alone_question(Compute::Sw),
        Verb::SwNumber => Ok(Compute::SwNumber(words.alone_parts(alloc)?)),
    }
}

/// The question that the words behind `same` make.
pub(crate) fn same(alloc: Global, words: &mut Words) -> Result<Compute, ReadRefusal>
    ensures { MatchResult result (λ q. chosen Word sames words.old ≡ Ok (Ask (compute_meant q)))
        (λ e. Refuses (chosen Word sames words.old) e) }
{
    let word = words.word()?;
    match same_of(word.bytes) {
        Some(verb) => question(alloc, verb, words),
        None => Err(word.bad(FaultKind::Word)),
    }
}

/// Whether a word is `same`.
pub(crate) fn is_same(word: &[u8]) -> bool
    ensures { result ≡ same_list word.now same_text }
{
    word == b"same".as_slice()
}

/// The verb of `same` and a word, if it is one.
fn same_of(word: &[u8]) -> Option<Verb>
    ensures { MatchOption result (Lacks sames word.now) (λ v. Has sames word.now (verb_form v)) }
{
    if word == Verb::Cup.word() {
        return Some(Verb::SameCup);
    }
    if word == Verb::Square.word() {
        return Some(Verb::SameSquare);
    }
    if word == Verb::Bockstein.word() {
        return Some(Verb::SameBockstein);
    }
    None
}
