//! The verbs of questions.
ghost use Rattle.std.specs.Prelude.{◌≡◌, MatchOption};
ghost use Rattle.language.specs.Verbs.{verb};
ghost use Rattle.language.specs.Grammar.{questions, verb_form};
ghost use Rattle.facet_reader.specs.Meanings.{compute_meant};
ghost use Rattle.facet_reader.specs.Tables.{Has, Lacks};

use crate::Compute;
use language::{VERBS, Verb};

/// The verb that a word is, if it is one.
pub(crate) fn verb_of(word: &[u8]) -> Option<Verb>
    ensures { MatchOption result (Lacks questions word.now) (λ v. Has questions word.now (verb_form v)) }
{
    VERBS.iter().find(|verb| word == verb.word()).copied()
}

impl Compute {
    /// What the question asks. Costs nothing.
    pub fn verb(&self) -> Verb
        ensures { result ≡ verb (compute_meant self.now) }
    {
        match self {
            Compute::Count => Verb::Count,
            Compute::Betti => Verb::Betti,
            Compute::KindOf(_) => Verb::KindOf,
            Compute::ModelOf(_) => Verb::ModelOf,
            Compute::Classes(_) => Verb::Classes,
            Compute::Show(_) => Verb::Show,
            Compute::ShowChain(_) => Verb::ShowChain,
            Compute::Delta(_) => Verb::Delta,
            Compute::Boundary(_) => Verb::Boundary,
            Compute::ClassOf(_) => Verb::ClassOf,
            Compute::Bound(_) => Verb::Bound,
            Compute::Cup { .. } => Verb::Cup,
            Compute::CupI { .. } => Verb::CupI,
            Compute::Square { .. } => Verb::Square,
            Compute::Bockstein(_) => Verb::Bockstein,
            Compute::SameCup { .. } => Verb::SameCup,
            Compute::SameSquare { .. } => Verb::SameSquare,
            Compute::SameBockstein { .. } => Verb::SameBockstein,
            Compute::Cap { .. } => Verb::Cap,
            Compute::Closed => Verb::Closed,
            Compute::Links => Verb::Links,
            Compute::Duality => Verb::Duality,
            Compute::Wu => Verb::Wu,
            Compute::Sw => Verb::Sw,
            Compute::SwNumber(_) => Verb::SwNumber,
        }
    }
}
