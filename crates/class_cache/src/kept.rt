//! What is kept of one degree of a complex, as far as it was asked for.
ghost use Rattle.std.specs.Prelude.{◌≡◌, ◌<◌, None, Some, length, slice_index_or, IfOk, IfSome};
ghost use Rattle.homology.specs.Complexes.{Complex};
ghost use Rattle.class_cache.specs.Kept.{AreKept, IsKept, IsSumOfRows};

use crate::cycle_words::members_of;
use crate::limits::MEMBERS_OF_A_ROW;
use class_solver::uncounted::add;
use f2_chains::Chain;
use memory::Memory;
use std::alloc::Global;

/// What is kept of a degree: its essential simplices, and for each class its canonical cocycle, where that was asked for. Whoever changes it
/// shows that it is what a complex defines before a cache takes it in ([`Cache::put`](crate::Cache::put)).
#[derive(Drop)]
pub struct Kept {
    /// The degree.
    pub degree: u8,
    /// The essential simplices of the degree, ascending.
    pub essential: Vec<u32>,
    /// At the place of each class its canonical cocycle, where that is kept.
    pub cocycles: Vec<Option<Chain>>,
    /// The cycles of the classes, where they have few members and many class words were asked for.
    pub cycles: Option<Vec<Chain>>,
    /// The boundaries of the simplices of one dimension more, where several class words were asked for.
    pub boundaries: Option<Vec<Chain>>,
    /// The passes over the model for single cocycles.
    pub passes: u32,
    /// The class words that were asked for.
    pub words: u32,
    /// Whether the cycles turned out to have too many members to be kept.
    pub large: bool,
    /// What is kept, in members.
    pub members: usize,
}

impl Kept {
    /// Its cocycles, cycles and boundaries, in members. In the time of their numbers.
    pub fn count_members(&self) -> usize {
        let mut members = 0usize;
        for cocycle in &self.cocycles {
            if let Some(chain) = cocycle {
                members = members.saturating_add(chain.ids().len() + MEMBERS_OF_A_ROW);
            }
        }
        for rows in [&self.cycles, &self.boundaries] {
            if let Some(rows) = rows {
                members = members.saturating_add(members_of(rows));
            }
        }
        members
    }
}

/// What is kept of this degree. At once.
pub(crate) fn of_degree(all: &[Option<Kept>], degree: u8) -> Option<&Kept>
    ensures { IfSome result (λ k. (K : Complex) → AreKept K all.now → (k.now.degree ≡ degree) × IsKept K k.now) }
{
    match all.get(usize::from(degree)) {
        Some(Some(kept)) => Some(kept),
        _ => None,
    }
}

/// The cocycle at this place, if there is one.
pub(crate) fn row(rows: &[Option<Chain>], number: u32) -> Option<&Chain>
    ensures { IfSome result (λ c. (number < length rows.now) × (slice_index_or rows.now number None ≡ Some c.now)) }
{
    match rows.get(number as usize) {
        Some(Some(row)) => Some(row),
        _ => None,
    }
}

/// The sum of the cocycles at these places; `None` where one is missing. One merge for each. `Err` is want of memory.
pub(crate) fn sum_of_rows(
    alloc: Global,
    rows: &[Option<Chain>],
    numbers: &[u32],
) -> Result<Option<Chain>, Memory>
    ensures { IfOk result (λ o. IfSome o (IsSumOfRows rows.now numbers.now)) }
{
    let mut sum = Chain::new(alloc);
    for number in numbers {
        let Some(row) = row(rows, *number) else {
            return Ok(None);
        };
        add(&mut sum, row)?;
    }
    Ok(Some(sum))
}
