//! Requests that are steps.
ghost use Rattle.std.specs.Prelude.{◌≡◌, ℕ, MatchOption, MatchResult};
ghost use Rattle.language.specs.Grammar.{steps, step_form};
ghost use Rattle.facet_reader.specs.Meanings.{Refuses, request_meant};
ghost use Rattle.facet_reader.specs.Tables.{Has, Lacks};

use crate::words::Words;
use crate::{ReadRefusal, Request};
use language::{STEPS, Step};
use std::alloc::Global;

/// The greatest number of entries, or of a version, that a caller may ask for.
const GREATEST: u32 = 999_999_999;

/// The most lines of a round.
const LONGEST_ROUND: u32 = 64;

/// The step that a word is, if it is one.
pub(crate) fn step_of(word: &[u8]) -> Option<Step>
    ensures { MatchOption result (Lacks steps word.now) (λ s. Has steps word.now (step_form s)) }
{
    STEPS.iter().find(|step| word == step.word()).copied()
}

/// The request that the words behind the word of a step complete.
#[tactic(auto, unfolding(language::specs::Grammar::form))]
pub(crate) fn step(alloc: Global, step: Step, words: &mut Words) -> Result<Request, ReadRefusal>
    ensures { MatchResult result (λ q. step_form step words.old ≡ Ok (request_meant q))
        (λ e. Refuses (step_form step words.old) e) }
{
    match step {
        Step::Attach => Ok(Request::Attach(words.alone_simplex()?)),
        Step::Facet => Ok(Request::Facet(words.facet(alloc)?)),
        Step::Cut => {
            words.alone_nothing()?;
            Ok(Request::Cut)
        }
        Step::Back => Ok(Request::Back(words.alone_number(0, GREATEST)?)),
        Step::See => {
            words.alone_nothing()?;
            Ok(Request::See)
        }
        Step::After => Ok(Request::After(words.alone_number(0, GREATEST)?)),
        Step::Hold => Ok(Request::Hold(words.alone_name()?)),
        Step::Take => Ok(Request::Take(words.alone_name()?)),
        Step::Release => Ok(Request::Release(words.alone_name()?)),
        Step::Round => Ok(Request::Round(words.alone_number(1, LONGEST_ROUND)? as u8)),
        Step::Quit => {
            words.alone_nothing()?;
            Ok(Request::Quit)
        }
    }
}
