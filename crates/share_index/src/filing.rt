//! Entries come into their buckets.
ghost use Rattle.std.specs.Prelude.{◌≡◌, ◌+◌, ◌<◌, ◌≤◌, length, OnOk, OnErr};
ghost use Rattle.share_rows.specs.Tables.{most};
ghost use Rattle.share_index.specs.Buckets.{IsFiled};
ghost use Rattle.share_index.specs.Entries.{hashes};

use crate::buckets::Buckets;
use memory::{Hashed, Memory};
use share_rows::Rows;
use std::alloc::Global;

/// Puts the next entry in its bucket, once there are enough buckets. `Err` is want of memory.
pub(crate) fn file_next<K: Hashed>(
    alloc: Global,
    entries: &Rows<(K, u32)>,
    buckets: &mut Buckets,
) -> Result<(), Memory>
    requires within { length buckets.old.before.items < length entries.now.items }
    requires few { length entries.now.items ≤ most }
    requires filed { IsFiled (hashes K.hash entries.now.items) buckets.old.last.items buckets.old.before.items }
    ensures filed { IsFiled (hashes K.hash entries.now.items) buckets.new.last.items buckets.new.before.items }
    ensures places { OnOk result (length buckets.new.before.items ≡ length buckets.old.before.items + 1) }
    ensures unchanged { OnErr result (length buckets.new.before.items ≡ length buckets.old.before.items) }
{
    widen(alloc, entries, buckets)?;
    let place = buckets.before.len();
    buckets.file(entries.at(place).0.hash())?;
    Ok(())
}

/// Files the same entries in more buckets, where there are too few. `Err` is want of memory.
fn widen<K: Hashed>(
    alloc: Global,
    entries: &Rows<(K, u32)>,
    buckets: &mut Buckets,
) -> Result<(), Memory>
    requires within { length buckets.old.before.items < length entries.now.items }
    requires few { length entries.now.items ≤ most }
    requires filed { IsFiled (hashes K.hash entries.now.items) buckets.old.last.items buckets.old.before.items }
    ensures filed { IsFiled (hashes K.hash entries.now.items) buckets.new.last.items buckets.new.before.items }
    ensures places { length buckets.new.before.items ≡ length buckets.old.before.items }
    ensures some { OnOk result (0 < length buckets.new.last.items) }
{
    let Some(count) = buckets.wanted() else {
        return Ok(());
    };
    let mut wider = Buckets::empty(alloc, count)?;
    for place in 0..buckets.before.len() {
        wider.file(entries.at(place).0.hash())?;
    }
    *buckets = wider;
    Ok(())
}
