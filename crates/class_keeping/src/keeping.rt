//! What is kept of one degree of a complex, as far as it is asked for.
ghost use Rattle.std.specs.Prelude.{◌≡◌, ℕ, ◌<◌, None, length, slice_index_or, IfOk};
ghost use Rattle.homology.specs.Kinds.{betti};
ghost use Rattle.class_cache.specs.Kept.{IsKept};

use crate::boundaries::boundaries_of;
use crate::class_cycles::{cycles_of, passes};
use crate::table::all_cocycles;
use at_model::Model;
use class_cache::limits::{
    MEMBERS_OF_A_ROW, MOST_CYCLE_MEMBERS_OF_A_SIMPLEX, MOST_MEMBERS, MOST_SINGLE_PASSES,
    PASSES_OF_A_WORD,
};
use class_cache::{Cache, Kept};
use f2_chains::Chain;
use memory::Memory;
use std::alloc::Global;

/// Keeps the essential simplices of the degree, and the canonical cocycles of the classes with these numbers, as far as there
/// are such classes, where they are not kept yet. The first in one pass over the simplices of the degree, and each of the
/// others in one. `Err` is want of memory; what was kept before is kept on.
pub fn keep(cache: &mut Cache, m: &Model, degree: u8, numbers: &[u32]) -> Result<(), Memory>
    requires { cache.old ≡ m.now }
    ensures { cache.new ≡ cache.old }
{
    let mut kept = opened(cache, m, degree)?;
    let most = MOST_MEMBERS.saturating_sub(cache.members());
    let found = keep_numbers(m, &mut kept, numbers, most);
    cache.put(kept)?;
    found
}

/// Keeps what class words of the degree take: its essential simplices; from the second word on the boundaries of the simplices of
/// one dimension more; and, once as many passes over the model were needed for words as they take, the cycles of the classes, unless these
/// have many members. The first two in one pass over the simplices of the dimension, the cycles in one for each class, or for each simplex
/// of one dimension less, whichever are fewer. `Err` is want of memory; what was kept before is kept on.
pub fn keep_word(cache: &mut Cache, m: &Model, degree: u8) -> Result<(), Memory>
    requires { cache.old ≡ m.now }
    ensures { cache.new ≡ cache.old }
{
    let mut kept = opened(cache, m, degree)?;
    let most = MOST_MEMBERS.saturating_sub(cache.members());
    let found = keep_of_word(m, &mut kept, most);
    cache.put(kept)?;
    found
}

/// The same for class words of results, which are known to be cocycles: no boundaries.
pub fn keep_result(cache: &mut Cache, m: &Model, degree: u8) -> Result<(), Memory>
    requires { cache.old ≡ m.now }
    ensures { cache.new ≡ cache.old }
{
    let mut kept = opened(cache, m, degree)?;
    let most = MOST_MEMBERS.saturating_sub(cache.members());
    let found = keep_cycles(m, &mut kept, most);
    cache.put(kept)?;
    found
}

/// What is kept of the degree, taken out; where that is nothing, the essential simplices. `Err` is want of memory.
fn opened(cache: &mut Cache, m: &Model, degree: u8) -> Result<Kept, Memory>
    requires { cache.old ≡ m.now }
    ensures same { cache.new ≡ cache.old }
    ensures kept { IfOk result (IsKept m.now) }
{
    match cache.take(degree) {
        Some(kept) => Ok(kept),
        None => fresh(m, degree),
    }
}

/// The essential simplices of the degree, and no cocycle yet. One pass over the simplices of the degree. `Err` is want of memory.
fn fresh(m: &Model, degree: u8) -> Result<Kept, Memory>
    ensures { IfOk result (IsKept m.now) }
{
    let essential = m.essential(degree)?;
    let cocycles = without_cocycles(m.complex().allocator(), essential.len())?;
    Ok(Kept {
        degree,
        essential,
        cocycles,
        cycles: None,
        boundaries: None,
        passes: 0,
        words: 0,
        large: false,
        members: 0,
    })
}

/// So many places, of which each has no cocycle.
fn without_cocycles(alloc: Global, count: usize) -> Result<Vec<Option<Chain>>, Memory>
    ensures none { IfOk result (λ rows. (j : ℕ) → slice_index_or rows.items j None ≡ None) }
    ensures count { IfOk result (λ rows. length rows.items ≡ count) }
{
    let mut rows = Vec::with_capacity(alloc, count)?;
    for k in 0..count {
        rows.push(None)?;
    }
    Ok(rows)
}

/// Keeps these cocycles.
fn keep_numbers(m: &Model, kept: &mut Kept, numbers: &[u32], most: usize) -> Result<(), Memory>
    requires { IsKept m.now kept.old }
    ensures { IsKept m.now kept.new }
{
    for number in numbers {
        keep_number(m, kept, *number, most)?;
    }
    Ok(())
}

/// Keeps the canonical cocycle of the class with this number, where it is not kept yet and there is such a class; after some of
/// them, those of all classes.
fn keep_number(m: &Model, kept: &mut Kept, number: u32, most: usize) -> Result<(), Memory>
    requires { IsKept m.now kept.old }
    ensures { IsKept m.now kept.new }
{
    if kept.passes > MOST_SINGLE_PASSES
        || number >= m.betti(kept.degree)
        || kept.cocycles[number as usize].is_some()
    {
        return Ok(());
    }
    kept.passes += 1;
    if kept.passes <= MOST_SINGLE_PASSES {
        return keep_one(m, kept, number, most);
    }
    keep_all(m, kept, most)
}

/// Keeps the canonical cocycles of all classes of the degree, where they are not too large.
fn keep_all(m: &Model, kept: &mut Kept, most: usize) -> Result<(), Memory>
    requires { IsKept m.now kept.old }
    ensures { IsKept m.now kept.new }
{
    let free = most.saturating_sub(kept.members);
    if let Some(cocycles) = all_cocycles(m, kept.degree, &kept.essential, free)? {
        kept.cocycles = cocycles;
        kept.members = kept.count_members();
    }
    Ok(())
}

/// Keeps the boundaries and the cycles, each where it is time.
fn keep_of_word(m: &Model, kept: &mut Kept, most: usize) -> Result<(), Memory>
    requires { IsKept m.now kept.old }
    ensures { IsKept m.now kept.new }
{
    keep_boundaries(m, kept, most)?;
    keep_cycles(m, kept, most)
}

/// Keeps the boundaries where a word was asked for before.
fn keep_boundaries(m: &Model, kept: &mut Kept, most: usize) -> Result<(), Memory>
    requires { IsKept m.now kept.old }
    ensures { IsKept m.now kept.new }
{
    if kept.boundaries.is_none()
        && kept.words > 0
        && let Some(above) = kept.degree.checked_add(1)
        && let Some(boundaries) = boundaries_of(m, above, most.saturating_sub(kept.members))?
    {
        kept.boundaries = Some(boundaries);
        kept.members = kept.count_members();
    }
    Ok(())
}

/// Counts one word, and keeps the cycles where it is time: when the words without them took as many passes over the model, two each, as the
/// cycles take.
fn keep_cycles(m: &Model, kept: &mut Kept, most: usize) -> Result<(), Memory>
    requires { IsKept m.now kept.old }
    ensures { IsKept m.now kept.new }
{
    kept.words = kept.words.saturating_add(1);
    let passes = passes(m.complex(), kept.degree, kept.essential.len());
    if kept.large || kept.cycles.is_some() || passes > PASSES_OF_A_WORD * kept.words as usize {
        return Ok(());
    }
    let few = MOST_CYCLE_MEMBERS_OF_A_SIMPLEX * m.len() as usize;
    let rows = kept.essential.len().saturating_mul(MEMBERS_OF_A_ROW);
    let free = most.saturating_sub(kept.members).saturating_sub(rows);
    let cycles = cycles_of(m, kept.degree, &kept.essential, few.min(free))?;
    kept.large = cycles.is_none();
    kept.cycles = cycles;
    kept.members = kept.count_members();
    Ok(())
}

/// Keeps the canonical cocycle of one class, found by a pass of its own.
fn keep_one(m: &Model, kept: &mut Kept, number: u32, most: usize) -> Result<(), Memory>
    requires kept { IsKept m.now kept.old }
    requires number { number < betti m.now kept.old.degree }
    ensures { IsKept m.now kept.new }
{
    let simplex = kept.essential[number as usize];
    let cocycle = m.cocycle(kept.degree, &[simplex])?;
    let more = cocycle.ids().len() + MEMBERS_OF_A_ROW;
    if more > most.saturating_sub(kept.members) {
        return Ok(());
    }
    kept.cocycles[number as usize] = Some(cocycle);
    kept.members += more;
    Ok(())
}
