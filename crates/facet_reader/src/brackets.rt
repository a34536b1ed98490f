//! Facets in brackets: parts in brackets, joined by `,`, each with runs of digits joined by `,`.
//!
//! All parts of a list are read one after another, each run once. What is wrong with one of them is told after the last,
//! since a later part may hold a graver fault.
ghost use Rattle.std.specs.Prelude.{◌≡◌, ℕ, ◌<◌, ◌==◌, true, false, count_by, drop, take, slice_index, MatchOption, MatchResult, Ok, Err};
ghost use Rattle.std.specs.List.{list_all};
ghost use Rattle.language.specs.Arguments.{parts};
ghost use Rattle.language.specs.Brackets.{past_gaps, is_blank, begins, behind, facets_word, bracket_word};
ghost use Rattle.facet_reader.specs.Meanings.{RefusesWord};
ghost use Rattle.facet_reader.specs.Lists.{graver, number_of, numbers_of, facet_of};

use crate::refusal::WordRefusal;
use crate::run::{is_run, is_short, value};
use crate::words::{gaps, is_gap, run_of_bytes};
use arrayvec::ArrayVec;
use language::FaultKind;
use simplex_order::{MOST_VERTICES, Simplex};
use std::alloc::Global;

/// The facets that a list in brackets names.
pub(crate) fn brackets(alloc: Global, list: &[u8]) -> Result<Vec<Simplex>, WordRefusal>
    ensures { MatchResult result (λ v. bracket_word list.now ≡ Ok v.items) (λ e. RefusesWord (bracket_word list.now) e) }
{
    let ends = brackets_in(list);
    if ends < 2 {
        return Err(WordRefusal::Bad(FaultKind::Word));
    }
    if !all_blank(list, ends - 1) {
        return Err(WordRefusal::Bad(FaultKind::Word));
    }
    facets_of(alloc, list, ends - 1)
}

/// How many `]` there are.
fn brackets_in(bytes: &[u8]) -> usize
    ensures { result ≡ count_by (λ c. c == 93) bytes.now }
{
    bytes.iter().filter(|c| **c == b']').count()
}

/// Whether there are only gaps and `]` behind so many `]`.
fn all_blank(list: &[u8], count: usize) -> bool
    ensures { result ≡ list_all is_blank (drop count (parts 93 list.now)) }
{
    list.split(|c| *c == b']')
        .skip(count)
        .all(|part| is_blank(part))
}

/// The facets of so many parts.
fn facets_of(alloc: Global, list: &[u8], count: usize) -> Result<Vec<Simplex>, WordRefusal>
    ensures { MatchResult result (λ v. facets_word (take count (parts 93 list.now)) ≡ Ok v.items)
        (λ e. RefusesWord (facets_word (take count (parts 93 list.now))) e) }
{
    let mut facets = Vec::new(alloc);
    let mut fault = None;
    let mut mark = b'[';
    for part in list.split(|c| *c == b']').take(count) {
        match facet(part, mark) {
            Ok(facet) => {
                if fault.is_none() {
                    let Ok(()) = facets.push(facet) else {
                        return Err(WordRefusal::Memory)
                    };
                }
            }
            Err(kind) => fault = Some(graver(kind, fault)),
        }
        mark = b',';
    }
    match fault {
        Some(kind) => Err(WordRefusal::Bad(kind)),
        None => Ok(facets),
    }
}

/// The facet of a part that stands behind this byte.
fn facet(part: &[u8], mark: u8) -> Result<Simplex, FaultKind>
    requires { 0 < mark }
    ensures { MatchResult result (λ s. facet_of mark part.now ≡ Ok s) (λ k. facet_of mark part.now ≡ Err k) }
{
    let Some(rest) = behind(part, mark) else {
        return Err(FaultKind::Word)
    };
    let Some(words) = behind(rest, b'[') else {
        return Err(FaultKind::Word)
    };
    let numbers = numbers(words)?;
    let Ok(facet) = Simplex::from_vertices(numbers.as_slice()) else {
        return Err(FaultKind::Repeat)
    };
    Ok(facet)
}

/// The numbers that runs joined by `,` write.
fn numbers(words: &[u8]) -> Result<ArrayVec<u32, MOST_VERTICES>, FaultKind>
    ensures { MatchResult result (λ ns. numbers_of (parts 44 words.now) ≡ Ok ns.items)
        (λ k. numbers_of (parts 44 words.now) ≡ Err k) }
{
    let mut numbers = ArrayVec::new();
    let mut fault = None;
    for word in words.split(|c| *c == b',') {
        match number(word) {
            Ok(number) => {
                if fault.is_none() {
                    if numbers.len() < MOST_VERTICES {
                        numbers.push(number);
                    } else {
                        fault = Some(FaultKind::Wide);
                    }
                }
            }
            Err(kind) => fault = Some(graver(kind, fault)),
        }
    }
    match fault {
        Some(kind) => Err(kind),
        None => Ok(numbers),
    }
}

/// The number that a run with gaps around it writes.
fn number(word: &[u8]) -> Result<u32, FaultKind>
    ensures { MatchResult result (λ n. number_of word.now ≡ Ok n) (λ k. number_of word.now ≡ Err k) }
{
    let word = past_gaps(word);
    let end = run_of_bytes(word);
    let run = &word[..end];
    if !is_run(run) || !is_blank(&word[end..]) {
        return Err(FaultKind::Word);
    }
    if !is_short(run) {
        return Err(FaultKind::Number);
    }
    Ok(value(run))
}

/// Of the fault of a part and the gravest of those before it the one that is told.
fn graver(kind: FaultKind, before: Option<FaultKind>) -> FaultKind
    ensures { result ≡ graver kind before }
{
    match (kind, before) {
        (FaultKind::Word, _) => kind,
        (FaultKind::Number, Some(FaultKind::Word)) => FaultKind::Word,
        (FaultKind::Number, _) => kind,
        (FaultKind::Wide, Some(FaultKind::Word)) => FaultKind::Word,
        (FaultKind::Wide, Some(FaultKind::Number)) => FaultKind::Number,
        (FaultKind::Wide, _) => kind,
        (_, Some(before)) => before,
        (_, None) => kind,
    }
}

/// Whether these are gaps alone.
fn is_blank(bytes: &[u8]) -> bool
    ensures { result ≡ is_blank bytes.now }
{
    bytes.iter().all(|c| is_gap(*c))
}

/// The bytes behind the gaps in front.
fn past_gaps(bytes: &[u8]) -> &[u8]
    ensures { result.now ≡ past_gaps bytes.now }
{
    &bytes[gaps(bytes)..]
}

/// What stands behind this byte, where gaps alone stand before it.
fn behind(bytes: &[u8], byte: u8) -> Option<&[u8]>
    requires { 0 < byte }
    ensures { MatchOption result (begins byte bytes.now ≡ false)
        (λ rest. (begins byte bytes.now ≡ true) × (rest.now ≡ behind bytes.now)) }
{
    match past_gaps(bytes) {
        [first, rest @ ..] => (*first == byte).then_some(rest),
        [] => None,
    }
}
