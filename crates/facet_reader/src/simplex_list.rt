//! Lists of simplex words, joined by `,`.
ghost use Rattle.std.specs.Prelude.{◌≡◌, ℕ, true, false, MatchResult};
ghost use Rattle.std.specs.List.{list_all};
ghost use Rattle.language.specs.Arguments.{has_shape, has_numbers, is_narrow, listed};
ghost use Rattle.facet_reader.specs.Meanings.{RefusesWord};
ghost use Rattle.facet_reader.specs.Lists.{made};

use crate::refusal::WordRefusal;
use crate::simplex_word::{has_numbers, has_shape, is_narrow, simplex_of};
use language::FaultKind;
use simplex_order::Simplex;
use std::alloc::Global;

/// Whether all words of a list have the shape of a simplex.
pub(crate) fn all_shaped(list: &[u8]) -> bool
    ensures { result ≡ list_all has_shape (listed list.now) }
{
    if list.is_empty() {
        return true;
    }
    list.split(|c| *c == b',').all(|word| has_shape(word))
}

/// Whether none of their runs is too long.
pub(crate) fn all_numbers(list: &[u8]) -> bool
    ensures { result ≡ list_all has_numbers (listed list.now) }
{
    if list.is_empty() {
        return true;
    }
    list.split(|c| *c == b',').all(|word| has_numbers(word))
}

/// Whether none has too many vertices.
pub(crate) fn all_narrow(list: &[u8]) -> bool
    ensures { result ≡ list_all is_narrow (listed list.now) }
{
    if list.is_empty() {
        return true;
    }
    list.split(|c| *c == b',').all(|word| is_narrow(word))
}

/// The simplices of a list whose words are right in shape, numbers and width.
pub(crate) fn simplices_of(alloc: Global, list: &[u8]) -> Result<Vec<Simplex>, WordRefusal>
    requires shape { list_all has_shape (listed list.now) ≡ true }
    requires numbers { list_all has_numbers (listed list.now) ≡ true }
    requires narrow { list_all is_narrow (listed list.now) ≡ true }
    ensures { MatchResult result (λ v. made list.now ≡ Ok v.items) (λ e. RefusesWord (made list.now) e) }
{
    let mut simplices = Vec::new(alloc);
    if list.is_empty() {
        return Ok(simplices);
    }
    for word in list.split(|c| *c == b',') {
        let simplex = match simplex_of(word) {
            Some(simplex) => simplex,
            None => return Err(WordRefusal::Bad(FaultKind::Repeat)),
        };
        let Ok(()) = simplices.push(simplex) else {
            return Err(WordRefusal::Memory)
        };
    }
    Ok(simplices)
}
