//! The map.
ghost use Rattle.std.specs.Prelude.{◌≡◌, None, ℕ, ◌+◌, ◌<◌, ◌≤◌, [], ◌∷◌, ◌++◌, length, IfOk, IsOk, MatchOption, OnOk, OnErr, IsTrue};
ghost use Rattle.std.specs.List.{IsDistinct};
ghost use Rattle.std.specs.Map.{keys_of};
ghost use Rattle.share_index.specs.Entries.{most, put, value_at, count_with, IsFound, IsUpdate};

use crate::buckets::Buckets;
use crate::filing::file_next;
use crate::search::{find_at, find_filed};
use memory::{Hashed, Memory};
use share_rows::Rows;
use std::alloc::Global;
use std::marker::Model;

/// A map from keys to numbers, of at most 16,777,216 keys. A contract sees its entries in the order
/// in which their keys came in, and whether there is room for a new key that takes no memory.
///
/// The entry that came in last waits outside the buckets, in which [`Index::reserve`] files it: that
/// may take memory, but to let an entry come in cannot fail.
#[derive(Drop)]
pub struct Index<K: Hashed> {
    alloc: Global,
    entries: Rows<(K, u32)>,
    buckets: Buckets,
}

impl<K: Hashed> Model for Index<K> {
    ghost use Rattle.std.specs.Prelude.{◌&&◌, nat_eq, length};
    ghost use Rattle.share_index.specs.Entries.{Contents, IsIndex};

    ghost Value = { Contents K };

    ghost view = { λ i. record { entries = i.entries.items; room = nat_eq (length i.entries.items) (length i.buckets.before.items) && i.entries.room } };

    ghost invariant = { λ i. IsIndex K.same K.hash i.entries.items i.buckets.last.items i.buckets.before.items };
}

impl<K: Hashed> Index<K> {
    /// The map without keys, with room for one. It takes no memory.
    pub fn new(alloc: Global) -> Index<K>
        ensures empty { result.entries ≡ [] }
        ensures room { IsTrue result.room }
    {
        Index {
            alloc,
            entries: Rows::new(alloc),
            buckets: Buckets::new(alloc),
        }
    }

    /// Sets the value of a key, whether the key is there or not. `Err` is want of memory, and leaves
    /// the map as it was. It looks the key up; for a new key it then costs what [`Index::reserve`] does,
    /// and for one that is there what a change of a list does.
    pub fn with(&mut self, key: K, value: u32) -> Result<(), Memory>
        requires { length self.old.entries < most }
        ensures entries { OnOk result (self.new.entries ≡ put K.same self.old.entries key value) }
        ensures update { OnOk result (IsUpdate K.same self.old.entries self.new.entries key value) }
        ensures count { OnOk result (length self.new.entries ≡ count_with K.same self.old.entries key) }
        ensures unchanged { OnErr result (self.new.entries ≡ self.old.entries) }
    {
        match self.find(&key) {
            Some((place, _)) => self.entries.set(place, (key, value))?,
            None => {
                self.reserve()?;
                self.insert_reserved(key, value);
            }
        }
        Ok(())
    }

    /// Finds the memory for the next new key. `Err` is want of memory, and leaves the map as it was.
    /// Where nothing waits it costs nothing. Else it puts the entry that waits in its bucket; where
    /// others share the map it first copies up to four blocks of at most 32 places, and the uppermost
    /// ones. Where there are as many keys as buckets, it makes four times as many, and files all entries anew.
    pub fn reserve(&mut self) -> Result<(), Memory>
        ensures entries { self.new.entries ≡ self.old.entries }
        ensures room { OnOk result (IsTrue self.new.room) }
        ensures kept { IsTrue self.old.room → IsTrue self.new.room }
        ensures succeeds { IsTrue self.old.room → IsOk result }
    {
        if self.buckets.before.len() < self.entries.len() {
            file_next(self.alloc, &self.entries, &mut self.buckets)?;
        }
        self.entries.reserve()
    }

    /// Sets the value of a key that is not there. It takes no memory, and costs nothing.
    pub fn insert_reserved(&mut self, key: K, value: u32)
        requires room { IsTrue self.old.room }
        requires few { length self.old.entries < most }
        requires new { value_at K.same self.old.entries key ≡ None }
        ensures entries { self.new.entries ≡ self.old.entries ++ (key, value) ∷ [] }
        ensures update { IsUpdate K.same self.old.entries self.new.entries key value }
    {
        self.entries.push_reserved((key, value));
    }

    /// The value of a key, and `None` exactly where the key is not there. It compares the key with those
    /// in its bucket, of which there is one on average, and with the one that waits.
    pub fn get(&self, key: &K) -> Option<u32>
        ensures { result ≡ value_at K.same self.now.entries key.now }
    {
        let (_, value) = self.find(key)?;
        Some(value)
    }

    /// The place and the value of a key.
    fn find(&self, key: &K) -> Option<(u32, u32)>
        ensures { MatchOption result (value_at K.same self.now.entries key.now ≡ None) (IsFound K.same self.now.entries key.now) }
    {
        match find_filed(&self.entries, &self.buckets, key) {
            Some(found) => Some(found),
            None => find_at(&self.entries, self.buckets.before.len(), key),
        }
    }

    /// How many keys there are. At once.
    pub fn len(&self) -> u32
        ensures count { result ≡ length self.now.entries }
        ensures small { length self.now.entries ≤ most }
        ensures distinct { IsDistinct K.same (keys_of self.now.entries) }
    {
        self.entries.len()
    }

    /// An equal map, and what is set in either one is not seen in the other. In constant time, and with
    /// no memory but what a copy of one key takes. `Err` is want of memory.
    pub fn share(&self) -> Result<Index<K>, Memory>
        ensures { IfOk result (λ other. other ≡ self.now) }
    {
        Ok(Index {
            alloc: self.alloc,
            entries: self.entries.share()?,
            buckets: self.buckets.share()?,
        })
    }
}
