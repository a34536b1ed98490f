//! The canonical cocycles of all classes of a degree, found together.
ghost use Rattle.std.specs.Prelude.{◌≡◌, ℕ, ◌<◌, [], length, slice_index, slice_index_or, IfOk, IfSome, OnOk};
ghost use Rattle.std.specs.List.{All};
ghost use Rattle.homology.specs.Sets.{Ids, plus, set_of};
ghost use Rattle.homology.specs.Kinds.{betti, ids};
ghost use Rattle.cohomology.specs.Classes.{essentials};
ghost use Rattle.class_cache.specs.Kept.{AreRows, own};
ghost use Rattle.class_keeping.specs.Tables.{IsTable, where_odd};

use at_model::Model;
use class_cache::limits::MEMBERS_OF_A_ROW;
use f2_chains::Chain;
use memory::Memory;
use std::alloc::Global;

/// The canonical cocycles of all classes of a degree, whose essential simplices are given; `None` where they have more members
/// together than `most`. In the time of f of each simplex of the degree. `Err` is want of memory.
pub(crate) fn all_cocycles(
    m: &Model,
    degree: u8,
    essential: &[u32],
    most: usize,
) -> Result<Option<Vec<Option<Chain>>>, Memory>
    requires { essential.now ≡ essentials m.now degree }
    ensures cocycles { IfOk result (λ o. IfSome o (λ rows. AreRows (own m.now degree) rows.items)) }
    ensures count { IfOk result (λ o. IfSome o (λ rows. length rows.items ≡ betti m.now degree)) }
{
    let most = most.saturating_sub(essential.len().saturating_mul(MEMBERS_OF_A_ROW));
    let Some(table) = table(m, degree, most)? else {
        return Ok(None);
    };
    let rows = rows_at(m.complex().allocator(), &table, essential)?;
    Ok(Some(rows))
}

/// For each simplex h the simplices t of the degree with h in f t: for an essential h of the degree, its canonical cocycle; `None`
/// where they have more members together than `most`.
fn table(m: &Model, degree: u8, most: usize) -> Result<Option<Vec<Chain>>, Memory>
    ensures table { IfOk result (λ o. IfSome o (λ table. IsTable m.now degree (length (ids m.now degree)) table.items)) }
    ensures fits { IfOk result (λ o. IfSome o (λ table. length table.items ≡ length m.now)) }
{
    let simplices = m.complex().of_dimension(degree);
    let mut table = no_chains(m.complex().allocator(), m.len())?;
    let mut members = 0usize;
    for place in 0..simplices.len() {
        let t = *simplices.at(place);
        let f = m.f_of(t)?;
        members = members.saturating_add(f.ids().len());
        if members > most {
            return Ok(None);
        }
        put_in(&mut table, f.ids(), t)?;
    }
    Ok(Some(table))
}

/// So many empty chains.
pub(crate) fn no_chains(alloc: Global, count: u32) -> Result<Vec<Chain>, Memory>
    ensures empty { IfOk result (λ table. (h : ℕ) → slice_index_or table.items h [] ≡ []) }
    ensures count { IfOk result (λ table. length table.items ≡ count) }
{
    let mut table = Vec::with_capacity(alloc, count as usize)?;
    for k in 0..count {
        table.push(Chain::new(alloc))?;
    }
    Ok(table)
}

/// Adds a simplex to the chains of these simplices.
fn put_in(table: &mut [Chain], ids: &[u32], t: u32) -> Result<(), Memory>
    requires { All (λ h. h < length table.old) ids.now }
    ensures rows { OnOk result ((h : ℕ) → set_of (slice_index_or table.new h [])
        ≡ plus (set_of (slice_index_or table.old h [])) (where_odd ids.now h t)) }
    ensures fits { length table.new ≡ length table.old }
{
    for h in ids {
        table[*h as usize].toggle(t)?;
    }
    Ok(())
}

/// Copies of the chains of these simplices.
fn rows_at(alloc: Global, table: &[Chain], simplices: &[u32]) -> Result<Vec<Option<Chain>>, Memory>
    requires { All (λ h. h < length table.now) simplices.now }
    ensures rows { IfOk result (λ rows. (each : ℕ → Ids)
        → ((j : ℕ) → j < length simplices.now → set_of (slice_index_or table.now (slice_index simplices.now j) []) ≡ each j) → AreRows each rows.items) }
    ensures count { IfOk result (λ rows. length rows.items ≡ length simplices.now) }
{
    let mut rows = Vec::with_capacity(alloc, simplices.len())?;
    for h in simplices {
        let row = table[*h as usize].copy()?;
        rows.push(Some(row))?;
    }
    Ok(rows)
}
