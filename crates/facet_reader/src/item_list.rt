//! Lists of numbers, each behind a mark, joined by `+`.
ghost use Rattle.std.specs.Prelude.{◌≡◌, ℕ, ◌&&◌, true, map, drop, length, IfOk};
ghost use Rattle.std.specs.List.{list_all};
ghost use Rattle.language.specs.Arguments.{is_run, is_short, is_item, value, parts};
ghost use Rattle.facet_reader.specs.Lists.{is_behind};

use crate::run::{is_run, is_short, value};
use memory::Memory;
use std::alloc::Global;

/// Whether a word is a mark and a run.
fn is_item(word: &[u8], mark: u8) -> bool
    ensures { result ≡ is_item mark word.now }
{
    match word {
        [first, run @ ..] => *first == mark && is_run(run),
        [] => false,
    }
}

/// Whether the run behind a mark is short.
fn is_short_item(word: &[u8]) -> bool
    ensures { result ≡ is_short (drop 1 word.now) }
{
    match word {
        [_, run @ ..] => is_short(run),
        [] => true,
    }
}

/// The number of a mark and a short run.
fn item_value(word: &[u8]) -> u32
    requires run { is_behind word.now ≡ true }
    requires short { is_short (drop 1 word.now) ≡ true }
    ensures { result ≡ value (drop 1 word.now) }
{
    let [_, run @ ..] = word else { unreachable!() };
    value(run)
}

/// Whether all words of a list are a mark and a run.
pub(crate) fn all_items(list: &[u8], mark: u8) -> bool
    ensures { result ≡ list_all (is_item mark) (parts 43 list.now) }
{
    list.split(|c| *c == b'+').all(|word| is_item(word, mark))
}

/// Whether none of the runs is too long.
pub(crate) fn all_short(list: &[u8]) -> bool
    ensures { result ≡ list_all (λ w. is_short (drop 1 w)) (parts 43 list.now) }
{
    list.split(|c| *c == b'+').all(|word| is_short_item(word))
}

/// The numbers of a list of short runs behind marks.
pub(crate) fn numbers_of(alloc: Global, list: &[u8]) -> Result<Vec<u32>, Memory>
    requires runs { list_all is_behind (parts 43 list.now) ≡ true }
    requires short { list_all (λ w. is_short (drop 1 w)) (parts 43 list.now) ≡ true }
    ensures { IfOk result (λ v. v.items ≡ map (λ w. value (drop 1 w)) (parts 43 list.now)) }
{
    let mut numbers = Vec::new(alloc);
    for word in list.split(|c| *c == b'+') {
        numbers.push(item_value(word))?;
    }
    Ok(numbers)
}
