//! Requests that begin with a request word.
ghost use Rattle.std.specs.Prelude.{◌≡◌, MatchResult};
ghost use Rattle.language.specs.declared.fault.FaultKind.TheVariants.{Request as RequestKind};
ghost use Rattle.language.specs.Grammar.{chosen, requests};
ghost use Rattle.facet_reader.specs.Meanings.{Refuses, request_meant};

use crate::question::{is_same, question, same};
use crate::step::{step, step_of};
use crate::verb::verb_of;
use crate::words::Words;
use crate::{ReadRefusal, Request};
use language::FaultKind;
use std::alloc::Global;

/// The request that a request word and the words behind it make.
pub(crate) fn worded(alloc: Global, words: &mut Words) -> Result<Request, ReadRefusal>
    ensures { MatchResult result (λ r. chosen RequestKind requests words.old ≡ Ok (request_meant r))
        (λ e. Refuses (chosen RequestKind requests words.old) e) }
{
    let word = words.word()?;
    if let Some(kind) = step_of(word.bytes) {
        return step(alloc, kind, words);
    }
    if let Some(verb) = verb_of(word.bytes) {
        let question = question(alloc, verb, words)?;
        return Ok(Request::Ask(question));
    }
    if is_same(word.bytes) {
        let question = same(alloc, words)?;
        return Ok(Request::Ask(question));
    }
    Err(word.bad(FaultKind::Request))
}
