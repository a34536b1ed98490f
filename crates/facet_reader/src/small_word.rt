//! Words for names, for callers, and for the vertices of a facet.
ghost use Rattle.std.specs.Prelude.{◌≡◌, ℕ, ◌<◌, ◌≤◌, ◌&&◌, ◌||◌, ◌==◌, false, length, drop, IfOk};
ghost use Rattle.std.specs.List.{list_all, list_any};
ghost use Rattle.language.specs.Arguments.{is_letter, name_word, caller_word, vertex_word};

use crate::Name;
use crate::run::{is_digit, is_run, is_short, value, within};
use language::FaultKind;
use simplex_order::MOST_VERTICES;

/// The most bytes that a name has.
const LONGEST: usize = 16;

/// The greatest caller.
const LAST_CALLER: u32 = 15;

/// The name that a word is.
#[tactic(auto, unfolding(language::specs::Arguments::name_word))]
pub(crate) fn name(word: &[u8]) -> Result<Name, FaultKind>
    ensures { name_word word.now ≡ result }
{
    if word.is_empty() || word.len() > LONGEST || !all_letters(word) {
        return Err(FaultKind::Word);
    }
    Ok(Name::of(word))
}

fn all_letters(word: &[u8]) -> bool
    ensures { result ≡ list_all is_letter word.now }
{
    word.iter().all(|c| is_letter(*c))
}

fn is_letter(c: u8) -> bool
    ensures { result ≡ is_letter c }
{
    (b'A' <= c && c <= b'Z') || (b'a' <= c && c <= b'z') || is_digit(c) || c == b'_'
}

/// The caller that a word names, whose first byte is `@`.
#[tactic(auto, unfolding(language::specs::Arguments::caller_word))]
pub(crate) fn caller(word: &[u8]) -> Result<u8, FaultKind>
    requires { 0 < length word.now }
    ensures { caller_word word.now ≡ result }
{
    let run = &word[1..];
    if !is_run(run) {
        return Err(FaultKind::Caller);
    }
    let Some(caller) = within(run, 0, LAST_CALLER) else {
        return Err(FaultKind::Caller)
    };
    Ok(caller as u8)
}

/// The vertex that a word of a facet names, behind the vertices before it.
#[tactic(auto, unfolding(language::specs::Arguments::vertex_word))]
pub(crate) fn vertex(word: &[u8], before: &[u32]) -> Result<u32, FaultKind>
    ensures value { vertex_word before.now word.now ≡ result }
    ensures room { IfOk result (λ _. length before.now < MOST_VERTICES) }
    ensures fresh { IfOk result (λ v. list_any (λ w. w == v) before.now ≡ false) }
{
    if !is_run(word) {
        return Err(FaultKind::Word);
    }
    if !is_short(word) {
        return Err(FaultKind::Number);
    }
    if before.len() >= MOST_VERTICES {
        return Err(FaultKind::Wide);
    }
    let vertex = value(word);
    if stands_in(before, vertex) {
        return Err(FaultKind::Repeat);
    }
    Ok(vertex)
}

fn stands_in(vertices: &[u32], vertex: u32) -> bool
    ensures { result ≡ list_any (λ v. v == vertex) vertices.now }
{
    vertices.iter().any(|v| *v == vertex)
}
