//! Rows.
ghost use Rattle.std.specs.Prelude.{◌≡◌, ℕ, ◌<◌, ◌||◌, true, false, nat_eq, length, IfOk, MatchOption};
ghost use Rattle.std.specs.List.{All};
ghost use Rattle.std.specs.List.Sorted.{IsStrictlyIncreasing};
ghost use Rattle.homology.specs.Sets.{empty, plus, set_of};
ghost use Rattle.elimination.specs.Rows.{entry};

use crate::words;
use memory::Memory;
use std::alloc::Global;
use std::marker::Model;

/// A row of entries modulo 2. A contract sees the list of its entries, with `true` for one. A bit is kept for each.
#[derive(Drop)]
pub struct Row {
    width: u32,
    words: Vec<u64>,
}

impl Model for Row {
    ghost use Rattle.std.specs.Prelude.{◌≡◌, List, Bool, length};
    ghost use Rattle.std.specs.Int.{div_ceil};
    ghost use Rattle.elimination.specs.Bits.{row_of};

    ghost Value = { List Bool };

    ghost view = { λ r. row_of r.width r.words.items };

    ghost invariant = { λ r. length r.words.items ≡ div_ceil r.width 64 };
}

impl Row {
    /// The row of this many zeros. `Err` is want of memory.
    pub fn zeros(alloc: Global, width: u32) -> Result<Row, Memory>
        ensures width { IfOk result (λ r. length r ≡ width) }
        ensures zeros { IfOk result (λ r. entry r ≡ empty) }
    {
        let count = width.div_ceil(64) as usize;
        let words = vec![in alloc; 0; count]?;
        Ok(Row { width, words })
    }

    /// The number of entries. At once.
    pub fn width(&self) -> u32
        ensures { result ≡ length self.now }
    {
        self.width
    }

    fn allocator(&self) -> Global {
        *self.words.allocator()
    }

    /// The entry at this place. At once.
    pub fn get(&self, place: u32) -> bool
        requires { place < length self.now }
        ensures { result ≡ entry self.now place }
    {
        words::bit(&self.words, place as usize)
    }

    /// Makes the entry at this place one. At once.
    pub fn set(&mut self, place: u32)
        requires { place < length self.old }
        ensures set { (q : ℕ) → entry self.new q ≡ (nat_eq q place || entry self.old q) }
        ensures width { length self.new ≡ length self.old }
    {
        words::set_bit(&mut self.words, place as usize);
    }

    /// Adds a row of the same width. A step for 64 entries.
    pub fn add(&mut self, other: &Row)
        requires { length self.old ≡ length other.now }
        ensures sum { entry self.new ≡ plus (entry self.old) (entry other.now) }
        ensures width { length self.new ≡ length self.old }
    {
        words::add_bits(&mut self.words, &other.words);
    }

    /// The first place with a one; `None` exactly where there is none. A step for each entry up to it.
    pub fn first_one(&self) -> Option<u32>
        ensures { MatchOption result
            (entry self.now ≡ empty)
            (λ q. (q < length self.now) × (entry self.now q ≡ true) × ((p : ℕ) → p < q → entry self.now p ≡ false)) }
    {
        for q in 0..self.width() {
            if self.get(q) {
                return Some(q);
            }
        }
        None
    }

    /// The places with a one, ascending. A step for each entry. `Err` is want of memory.
    pub fn ones(&self) -> Result<Vec<u32>, Memory>
        ensures set { IfOk result (λ places. set_of places.items ≡ entry self.now) }
        ensures ascending { IfOk result (λ places. IsStrictlyIncreasing places.items) }
        ensures within { IfOk result (λ places. All (λ q. q < length self.now) places.items) }
    {
        let mut places = Vec::new(self.allocator());
        for q in 0..self.width() {
            if self.get(q) {
                places.push(q)?;
            }
        }
        Ok(places)
    }

    /// The entries one by one. A step for each. `Err` is want of memory.
    pub fn entries(&self) -> Result<Vec<bool>, Memory>
        ensures { IfOk result (λ entries. entries.items ≡ self.now) }
    {
        let mut entries = Vec::new(self.allocator());
        for q in 0..self.width() {
            entries.push(self.get(q))?;
        }
        Ok(entries)
    }

    /// An equal row. A step for 64 entries. `Err` is want of memory.
    pub fn copy(&self) -> Result<Row, Memory>
        ensures { IfOk result (λ r. r ≡ self.now) }
    {
        let words = self.words.clone()?;
        Ok(Row {
            width: self.width,
            words,
        })
    }
}
