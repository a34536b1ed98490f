//! The reading of a line.
ghost use Rattle.std.specs.Prelude.{◌≡◌, ℕ, ◌≤◌, ◌||◌, ◌==◌, length, IfOk, MatchResult, Some};
ghost use Rattle.language.specs.Grammar.{reading, request};
ghost use Rattle.facet_reader.specs.Meanings.{Refuses, request_meant, asked_meant};
ghost use Rattle.facet_reader.specs.Fronts.{front, TakesCaller};

use crate::brackets::brackets;
use crate::run::is_digit;
use crate::small_word::caller;
use crate::worded::worded;
use crate::words::Words;
use crate::{Asked, ReadRefusal, Request, Simplices};
use language::Fault;
use std::alloc::Global;

/// Reads a line of at most 1,048,575 bytes.
///
/// `Bad`: the line asks for nothing; this is its first word that cannot stand at its place, and why.
/// `Memory`: there was no memory for the lists in its words; nothing else takes any. Each byte is looked
/// at a bounded number of times.
pub fn read_request(alloc: Global, line: &[u8]) -> Result<Asked, ReadRefusal>
    requires { length line.now ≤ 1048575 }
    ensures asked { IfOk result (λ a. reading line.now ≡ Ok (asked_meant a)) }
    ensures bad { (b : Fault) → result ≡ Err (ReadRefusal.Bad b) → reading line.now ≡ Err b }
{
    let mut words = Words::of(line);
    let caller = words.caller()?;
    let request = read_words(alloc, &mut words)?;
    Ok(Asked { caller, request })
}

impl Words<'_> {
    /// Takes a caller word, where the next word begins as one.
    fn caller(&mut self) -> Result<Option<u8>, ReadRefusal>
        ensures { TakesCaller self.old self.new result }
    {
        if self.first_byte() != Some(b'@') {
            return Ok(None);
        }
        let word = self.word()?;
        match caller(word.bytes) {
            Ok(caller) => Ok(Some(caller)),
            Err(kind) => Err(word.bad(kind)),
        }
    }
}

/// The request of the words behind a caller word.
fn read_words(alloc: Global, words: &mut Words) -> Result<Request, ReadRefusal>
    ensures { MatchResult result (λ r. request words.old ≡ Ok (request_meant r)) (λ e. Refuses (request words.old) e) }
{
    let Some(first) = words.first_byte() else {
        return Ok(Request::Blank)
    };
    if begins_comment(first) {
        return Ok(Request::Blank);
    }
    if first == b'[' {
        return bracketed(alloc, words);
    }
    if is_digit(first) {
        return Ok(Request::Facet(words.facet(alloc)?));
    }
    worded(alloc, words)
}

/// The facets in brackets that the line ends with, from the next word on.
fn bracketed(alloc: Global, words: &mut Words) -> Result<Request, ReadRefusal>
    requires { front words.old.words ≡ Some 91 }
    ensures { MatchResult result (λ r. request words.old ≡ Ok (request_meant r)) (λ e. Refuses (request words.old) e) }
{
    let word = words.word()?;
    match brackets(alloc, words.line_from(word.column)) {
        Ok(facets) => Ok(Request::Facet(Simplices::new(facets))),
        Err(refusal) => Err(word.refused(refusal)),
    }
}

/// Whether a byte begins a comment.
fn begins_comment(c: u8) -> bool
    ensures { result ≡ (c == 37 || c == 35) }
{
    c == b'%' || c == b'#'
}
