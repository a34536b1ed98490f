//! Runs of digits, and the numbers that they write.
ghost use Rattle.std.specs.Prelude.{◌≡◌, ℕ, ◌≤◌, ◌<◌, ◌^◌, true, false, length, IfOk, MatchOption};
ghost use Rattle.std.specs.List.{list_all};
ghost use Rattle.language.specs.Arguments.{is_digit, is_run, is_short, lies_in, value, number_word, degree_word};

use crate::Degree;
use language::FaultKind;

/// The most digits that a number has.
const DIGITS: usize = 9;

/// Whether a word is one or more digits.
pub(crate) fn is_run(word: &[u8]) -> bool
    ensures { result ≡ is_run word.now }
{
    !word.is_empty() && all_digits(word)
}

fn all_digits(word: &[u8]) -> bool
    ensures { result ≡ list_all is_digit word.now }
{
    word.iter().all(|c| is_digit(*c))
}

/// Whether a byte is a digit.
pub(crate) fn is_digit(c: u8) -> bool
    ensures { result ≡ is_digit c }
{
    b'0' <= c && c <= b'9'
}

/// Whether a run has as few digits as a number may have.
pub(crate) fn is_short(run: &[u8]) -> bool
    ensures { result ≡ is_short run.now }
{
    run.len() <= DIGITS
}

/// The number that a short run writes.
pub(crate) fn value(run: &[u8]) -> u32
    requires digits { list_all is_digit run.now ≡ true }
    requires short { length run.now ≤ 9 }
    ensures value { result ≡ value run.now }
    ensures bound { result < 10 ^ 9 }
{
    let mut value = 0;
    for digit in run {
        value = 10 * value + u32::from(*digit - b'0');
    }
    value
}

/// The number that a run writes, where it lies from `low` to `high`.
pub(crate) fn within(run: &[u8], low: u32, high: u32) -> Option<u32>
    requires { is_run run.now ≡ true }
    ensures { MatchOption result (lies_in low high run.now ≡ false)
        (λ n. (lies_in low high run.now ≡ true) × (n ≡ value run.now) × (n ≤ high) × (low ≤ n)) }
{
    if !is_short(run) {
        return None;
    }
    let number = value(run);
    let lies_in = low <= number && number <= high;
    lies_in.then_some(number)
}

/// The number from `low` to `high` that a word writes.
#[tactic(auto, unfolding(language::specs::Arguments::number_word))]
pub(crate) fn number(word: &[u8], low: u32, high: u32) -> Result<u32, FaultKind>
    ensures value { number_word low high word.now ≡ result }
    ensures range { IfOk result (λ n. n ≤ high) }
    ensures least { IfOk result (λ n. low ≤ n) }
{
    if !is_run(word) {
        return Err(FaultKind::Word);
    }
    let Some(number) = within(word, low, high) else {
        return Err(FaultKind::Number)
    };
    Ok(number)
}

/// The degree, the index or the k of Sq^k that a word writes.
pub(crate) fn degree(word: &[u8]) -> Result<Degree, FaultKind>
    ensures { degree_word word.now ≡ result }
{
    let degree = number(word, 0, 99)?;
    Ok(Degree::of(degree))
}

/// The degree that a run writes.
pub(crate) fn degree_of(run: &[u8]) -> Option<Degree>
    requires { is_run run.now ≡ true }
    ensures { MatchOption result (lies_in 0 99 run.now ≡ false)
        (λ p. (lies_in 0 99 run.now ≡ true) × (p ≡ value run.now)) }
{
    let degree = within(run, 0, 99)?;
    Some(Degree::of(degree))
}
