//! Words for simplices: runs of digits joined by `-`.
ghost use Rattle.std.specs.Prelude.{◌≡◌, ℕ, ◌≤◌, ◌==◌, true, false, length, count_by, MatchOption};
ghost use Rattle.language.specs.Arguments.{has_shape, has_numbers, is_narrow, is_distinct, in_order, vertices, simplex_word};

use crate::run::{is_run, is_short, value};
use arrayvec::ArrayVec;
use language::FaultKind;
use simplex_order::{MOST_VERTICES, Simplex};

/// Whether a word is runs joined by `-`.
pub(crate) fn has_shape(word: &[u8]) -> bool
    ensures { result ≡ has_shape word.now }
{
    word.split(|c| *c == b'-').all(|run| is_run(run))
}

/// Whether none of the runs is too long.
pub(crate) fn has_numbers(word: &[u8]) -> bool
    ensures { result ≡ has_numbers word.now }
{
    word.split(|c| *c == b'-').all(|run| is_short(run))
}

/// Whether there are not too many runs.
pub(crate) fn is_narrow(word: &[u8]) -> bool
    ensures { result ≡ is_narrow word.now }
{
    dashes(word) < MOST_VERTICES
}

fn dashes(word: &[u8]) -> usize
    ensures { result ≡ count_by (λ c. c == 45) word.now }
{
    word.iter().filter(|c| **c == b'-').count()
}

/// The numbers that the runs of a word write.
fn vertices(word: &[u8]) -> ArrayVec<u32, MOST_VERTICES>
    requires shape { has_shape word.now ≡ true }
    requires numbers { has_numbers word.now ≡ true }
    requires narrow { is_narrow word.now ≡ true }
    ensures { result.items ≡ vertices word.now }
{
    let mut vertices = ArrayVec::new();
    for run in word.split(|c| *c == b'-') {
        vertices.push(value(run));
    }
    vertices
}

/// The simplex of a word whose shape, numbers and width are right; none where a vertex stands twice.
pub(crate) fn simplex_of(word: &[u8]) -> Option<Simplex>
    requires shape { has_shape word.now ≡ true }
    requires numbers { has_numbers word.now ≡ true }
    requires narrow { is_narrow word.now ≡ true }
    ensures { MatchOption result (is_distinct (vertices word.now) ≡ false)
        (λ s. (is_distinct (vertices word.now) ≡ true) × (s ≡ in_order (vertices word.now))) }
{
    match Simplex::from_vertices(vertices(word).as_slice()) {
        Ok(simplex) => Some(simplex),
        Err(_) => None,
    }
}

/// The simplex that a word writes.
#[tactic(auto, unfolding(language::specs::Arguments::simplex_word))]
pub(crate) fn simplex(word: &[u8]) -> Result<Simplex, FaultKind>
    ensures { simplex_word word.now ≡ result }
{
    if !has_shape(word) {
        return Err(FaultKind::Word);
    }
    if !has_numbers(word) {
        return Err(FaultKind::Number);
    }
    if !is_narrow(word) {
        return Err(FaultKind::Wide);
    }
    let Some(simplex) = simplex_of(word) else {
        return Err(FaultKind::Repeat)
    };
    Ok(simplex)
}
