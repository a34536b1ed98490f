//! Words of a degree and a body: cochains and chains.
ghost use Rattle.std.specs.Prelude.{◌≡◌, ℕ, ◌-◌, ◌+◌, ◌<◌, ◌≤◌, ◌==◌, true, false, length, slice_range, IfSome, MatchOption, MatchResult};
ghost use Rattle.std.specs.List.{position_or_len};
ghost use Rattle.language.specs.Arguments.{is_run, is_enclosed, body_word, zero_word, literal_word, numbered_word, graded_word, cochain_word, chain_word};
ghost use Rattle.facet_reader.specs.Meanings.{RefusesWord, graded_meant, cochain_meant, chain_meant, signs_meant};

use crate::item_list::{all_items, all_short, numbers_of};
use crate::refusal::WordRefusal;
use crate::run::{degree_of, is_run};
use crate::simplex_list::{all_narrow, all_numbers, all_shaped, simplices_of};
use crate::{ChainWord, CochainWord, Degree, Numbers, Simplices};
use language::FaultKind;
use std::alloc::Global;

/// What a word of a degree and a body stands for.
#[derive(Drop)]
pub(crate) enum Graded {
    /// Simplices of this degree.
    Literal {
        degree: Degree,
        simplices: Simplices,
    },
    /// Classes of this degree, by their numbers.
    Numbered {
        degree: Degree,
        numbers: Numbers,
    },
}

/// The bytes around a list of simplices, and the one before each number.
#[derive(Drop)]
struct Signs {
    left: u8,
    right: u8,
    mark: u8,
}

/// The cochain that a word names.
pub(crate) fn cochain(alloc: Global, word: &[u8]) -> Result<CochainWord, WordRefusal>
    ensures { MatchResult result (λ a. cochain_word word.now ≡ Ok (cochain_meant a)) (λ e. RefusesWord (cochain_word word.now) e) }
{
    match graded_word(
        alloc,
        &Signs {
            left: b'{',
            right: b'}',
            mark: b'#',
        },
        word,
    )? {
        Graded::Literal { degree, simplices } => Ok(CochainWord::Literal { degree, simplices }),
        Graded::Numbered { degree, numbers } => Ok(CochainWord::Classes { degree, numbers }),
    }
}

/// The chain that a word names.
pub(crate) fn chain(alloc: Global, word: &[u8]) -> Result<ChainWord, WordRefusal>
    ensures { MatchResult result (λ c. chain_word word.now ≡ Ok (chain_meant c)) (λ e. RefusesWord (chain_word word.now) e) }
{
    match graded_word(
        alloc,
        &Signs {
            left: b'[',
            right: b']',
            mark: b'*',
        },
        word,
    )? {
        Graded::Literal { degree, simplices } => Ok(ChainWord::Literal { degree, simplices }),
        Graded::Numbered { degree, numbers } => Ok(ChainWord::Cycles { degree, numbers }),
    }
}

/// A word whose degree ends at its first `:`.
#[tactic(auto, unfolding(language::specs::Arguments::graded_word))]
fn graded_word(alloc: Global, signs: &Signs, word: &[u8]) -> Result<Graded, WordRefusal>
    ensures { MatchResult result (λ g. graded_word (signs_meant signs.now) word.now ≡ Ok (graded_meant g))
        (λ e. RefusesWord (graded_word (signs_meant signs.now) word.now) e) }
{
    let colon = colon(word);
    let degree = &word[..colon];
    if !is_run(degree) {
        return Err(WordRefusal::Bad(FaultKind::Word));
    }
    if colon == word.len() {
        return Err(WordRefusal::Bad(FaultKind::Word));
    }
    body(alloc, signs, degree, &word[colon + 1..])
}

/// Where the first `:` stands, or the length of the word.
fn colon(word: &[u8]) -> usize
    ensures place { result ≡ position_or_len (λ c. c == 58) word.now }
    ensures bound { result ≤ length word.now }
{
    word.iter().position(|c| *c == b':').unwrap_or(word.len())
}

/// What stands behind the `:`.
#[tactic(auto, unfolding(language::specs::Arguments::body_word))]
fn body(alloc: Global, signs: &Signs, degree: &[u8], body: &[u8]) -> Result<Graded, WordRefusal>
    requires { is_run degree.now ≡ true }
    ensures { MatchResult result (λ g. body_word (signs_meant signs.now) degree.now body.now ≡ Ok (graded_meant g))
        (λ e. RefusesWord (body_word (signs_meant signs.now) degree.now body.now) e) }
{
    if body == b"0".as_slice() {
        return zero(alloc, degree);
    }
    match enclosed(signs, body) {
        Some(list) => literal(alloc, degree, list),
        None => numbered(alloc, signs.mark, degree, body),
    }
}

/// What stands between the two bytes around a list.
fn enclosed<'a>(signs: &Signs, body: &'a [u8]) -> Option<&'a [u8]>
    ensures { MatchOption result (is_enclosed (signs_meant signs.now) body.now ≡ false)
        (λ list. (is_enclosed (signs_meant signs.now) body.now ≡ true) × (list.now ≡ slice_range body.now 1 (length body.now - 1))) }
{
    match body {
        [first, list @ .., last] => (*first == signs.left && *last == signs.right).then_some(list),
        _ => None,
    }
}

/// The zero of a degree.
#[tactic(auto, unfolding(language::specs::Arguments::zero_word))]
fn zero(alloc: Global, degree: &[u8]) -> Result<Graded, WordRefusal>
    requires { is_run degree.now ≡ true }
    ensures { MatchResult result (λ g. zero_word degree.now ≡ Ok (graded_meant g)) (λ e. RefusesWord (zero_word degree.now) e) }
{
    let Some(degree) = degree_of(degree) else {
        return Err(WordRefusal::Bad(FaultKind::Number))
    };
    let numbers = Numbers::new(Vec::new(alloc));
    Ok(Graded::Numbered { degree, numbers })
}

/// A list of simplices of a degree.
#[tactic(auto, unfolding(language::specs::Arguments::literal_word))]
fn literal(alloc: Global, degree: &[u8], list: &[u8]) -> Result<Graded, WordRefusal>
    requires { is_run degree.now ≡ true }
    ensures { MatchResult result (λ g. literal_word degree.now list.now ≡ Ok (graded_meant g))
        (λ e. RefusesWord (literal_word degree.now list.now) e) }
{
    if !all_shaped(list) {
        return Err(WordRefusal::Bad(FaultKind::Word));
    }
    let Some(degree) = degree_of(degree) else {
        return Err(WordRefusal::Bad(FaultKind::Number))
    };
    if !all_numbers(list) {
        return Err(WordRefusal::Bad(FaultKind::Number));
    }
    if !all_narrow(list) {
        return Err(WordRefusal::Bad(FaultKind::Wide));
    }
    let simplices = Simplices::new(simplices_of(alloc, list)?);
    Ok(Graded::Literal { degree, simplices })
}

/// A list of class numbers of a degree.
#[tactic(auto, unfolding(language::specs::Arguments::numbered_word))]
fn numbered(alloc: Global, mark: u8, degree: &[u8], list: &[u8]) -> Result<Graded, WordRefusal>
    requires { is_run degree.now ≡ true }
    ensures { MatchResult result (λ g. numbered_word mark degree.now list.now ≡ Ok (graded_meant g))
        (λ e. RefusesWord (numbered_word mark degree.now list.now) e) }
{
    if !all_items(list, mark) {
        return Err(WordRefusal::Bad(FaultKind::Word));
    }
    let Some(degree) = degree_of(degree) else {
        return Err(WordRefusal::Bad(FaultKind::Number))
    };
    if !all_short(list) {
        return Err(WordRefusal::Bad(FaultKind::Number));
    }
    let Ok(numbers) = numbers_of(alloc, list) else {
        return Err(WordRefusal::Memory)
    };
    let numbers = Numbers::new(numbers);
    Ok(Graded::Numbered { degree, numbers })
}
