//! An entry is found by its key.
ghost use Rattle.std.specs.Prelude.{◌≡◌, ◌+◌, ◌<◌, ◌≤◌, length, MatchOption};
ghost use Rattle.share_index.specs.Buckets.{IsFiled};
ghost use Rattle.share_index.specs.Entries.{hashes, HasEntry, HasNone};

use crate::buckets::Buckets;
use memory::Hashed;
use share_rows::Rows;

/// The place and the value of a key among the entries in buckets.
pub(crate) fn find_filed<K: Hashed>(
    entries: &Rows<(K, u32)>,
    buckets: &Buckets,
    key: &K,
) -> Option<(u32, u32)>
    requires { IsFiled (hashes K.hash entries.now.items) buckets.now.last.items buckets.now.before.items }
    ensures { MatchOption result (HasNone K.same entries.now.items 0 (length buckets.now.before.items) key.now) (HasEntry entries.now.items key.now) }
{
    let mut at = buckets.last(key.hash());
    while let Some(place) = at {
        let entry = entries.at(place);
        if key.is_same(&entry.0) {
            return Some((place, entry.1));
        }
        at = buckets.before(place);
    }
    None
}

/// The place and the value of a key, where the entry at this place has it.
pub(crate) fn find_at<K: Hashed>(
    entries: &Rows<(K, u32)>,
    place: u32,
    key: &K,
) -> Option<(u32, u32)>
    ensures { MatchOption result (HasNone K.same entries.now.items place (place + 1) key.now) (HasEntry entries.now.items key.now) }
{
    let entry = entries.get(place)?;
    if key.is_same(&entry.0) {
        Some((place, entry.1))
    } else {
        None
    }
}
