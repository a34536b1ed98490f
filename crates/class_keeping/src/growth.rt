//! What is kept grows with its complex.
ghost use Rattle.std.specs.Prelude.{◌≡◌, ◌-◌, length, IfOk, OnOk};
ghost use Rattle.homology.specs.Complexes.{IsComplex};
ghost use Rattle.class_keeping.specs.Grown.{AreClasses, born_from};
ghost use Rattle.class_cache.specs.Grown.{IsGrown};
ghost use Rattle.class_cache.specs.Kept.{IsKept};

use crate::grown_cycles::{grown_boundaries, grown_cycles};
use crate::living::{Classes, living};
use crate::newcomers::{add_born, born_since, take_in};
use at_model::Model;
use class_cache::limits::{MOST_MEMBERS, MOST_NEW_SIMPLICES};
use class_cache::{Cache, Kept};
use memory::Memory;
use simplex_order::MOST_VERTICES;
use std::mem;

/// Becomes the cache of a complex that has grown from its own. What still holds is kept on: the canonical cocycles and the cycles of the
/// classes that live on, to which new simplices are added, and the boundaries.
///
/// At once where the complex is the same. Else, for each degree of which something is kept, in the time of the new
/// simplices, of f of each that was killed at once, and of the classes; where classes were killed, that of f of each of these too; and one
/// pass over the model for each of a few new cycles. With many new simplices nothing is kept on, without memory not all. Of degrees from
/// [`MOST_VERTICES`] on, which no simplex has, nothing is kept on either.
pub fn grow(cache: &mut Cache, m: &Model)
    requires { IsGrown cache.old m.now }
    ensures { cache.new ≡ m.now }
{
    let new = m.len().saturating_sub(cache.len());
    if new == 0 {
        return;
    }
    let mut grown = Cache::new(m);
    if new <= MOST_NEW_SIMPLICES {
        let _memory = grow_each(cache, m, &mut grown);
    }
    *cache = grown;
}

/// Moves what is kept of each degree to the cache of the grown complex, as far as the limits allow. `Err` is want of memory.
fn grow_each(old: &mut Cache, m: &Model, grown: &mut Cache) -> Result<(), Memory>
    requires complex { IsComplex m.now }
    requires grown { IsGrown old.old m.now }
    requires same { grown.old ≡ m.now }
    ensures { grown.new ≡ m.now }
{
    for degree in 0..MOST_VERTICES as u8 {
        if let Some(mut kept) = old.take(degree) {
            grow_one(old, m, &mut kept)?;
            if grown.members().saturating_add(kept.members) <= MOST_MEMBERS {
                grown.put(kept)?;
            }
        }
    }
    Ok(())
}

/// Brings what is kept of one degree to the grown complex. `Err` is want of memory, and leaves it of no use.
fn grow_one(old: &Cache, m: &Model, kept: &mut Kept) -> Result<(), Memory>
    requires complex { IsComplex m.now }
    requires grown { IsGrown old.now m.now }
    requires kept { IsKept old.now kept.old }
    ensures { OnOk result (IsKept m.now kept.new) }
{
    let born = born_since(m, kept.degree, old.len())?;
    let cycles = kept.cycles.take();
    let cycles = grown_cycles(old, m, kept.degree, &kept.essential, cycles, &born)?;
    let boundaries = grown_boundaries(old, m, kept.degree, kept.boundaries.take())?;
    let classes = grown_classes(old, m, kept, &born)?;
    kept.essential = classes.essential;
    kept.cocycles = classes.cocycles;
    kept.cycles = cycles;
    kept.boundaries = boundaries;
    kept.passes = 0;
    kept.members = kept.count_members();
    Ok(())
}

/// The classes of one degree, to which these were born, with those of their canonical cocycles that are kept on. These are moved out of
/// what is kept. `Err` is want of memory.
fn grown_classes(old: &Cache, m: &Model, kept: &mut Kept, born: &[u32]) -> Result<Classes, Memory>
    requires complex { IsComplex m.now }
    requires grown { IsGrown old.now m.now }
    requires classes { AreClasses old.now kept.old.degree kept.old.essential.items kept.old.cocycles.items }
    requires born { born.now ≡ born_from m.now kept.old.degree (length old.now) (length m.now - length old.now) }
    ensures classes { IfOk result (λ r. AreClasses m.now kept.old.degree r.essential.items r.cocycles.items) }
    ensures same { (kept.new.degree ≡ kept.old.degree) × (kept.new.cycles ≡ kept.old.cycles) × (kept.new.boundaries ≡ kept.old.boundaries) }
{
    let alloc = m.complex().allocator();
    let classes = Classes {
        essential: mem::replace(&mut kept.essential, Vec::new(alloc)),
        cocycles: mem::replace(&mut kept.cocycles, Vec::new(alloc)),
    };
    let mut classes = living(old, m, kept.degree, classes, born.len())?;
    take_in(old, m, kept.degree, &mut classes)?;
    add_born(old, m, kept.degree, &mut classes, born)?;
    Ok(classes)
}
