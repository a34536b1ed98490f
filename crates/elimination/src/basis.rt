//! Independent rows.
ghost use Rattle.std.specs.Prelude.{◌≡◌, ℕ, ◌<◌, ◌≤◌, List, [], ◌∷◌, ◌++◌, length, IfOk, OnErr, IsSome, MatchOption};
ghost use Rattle.elimination.specs.Rows.{AreIndependent, IsExpression, row_at};

use crate::Row;
use crate::reduction::{Kept, Reduction, reduce};
use memory::Memory;
use std::alloc::Global;
use std::marker::Model;

/// Independent rows of one width. A contract sees the width and the rows in the order in which they were given. Of each is kept what
/// was left of it when the rows before it had been added where needed, and which rows these were.
pub struct Basis {
    alloc: Global,
    width: u32,
    kept: Vec<Kept>,
}

impl Model for Basis {
    ghost use Rattle.elimination.specs.Rows.{Given};

    ghost Value = { Given };

    ghost use Rattle.elimination.specs.Reductions.{AreKept, givens};

    ghost view = { λ b. record { width = b.width; rows = givens b.kept.items } };

    ghost invariant = { λ b. AreKept b.width b.kept.items };
}

// Written out, so that whoever drops a basis has one call in its proof.
impl Drop for Basis {
    fn drop(self) {
        let Basis {
            alloc: _,
            width: _,
            kept: _,
        } = self;
    }
}

impl Basis {
    /// No row of this width. It takes no memory.
    pub fn new(alloc: Global, width: u32) -> Basis
        ensures width { result.width ≡ width }
        ensures rows { result.rows ≡ [] }
    {
        Basis {
            alloc,
            width,
            kept: Vec::new(alloc),
        }
    }

    /// The width of the rows. At once.
    pub fn width(&self) -> u32
        ensures { result ≡ self.now.width }
    {
        self.width
    }

    /// The number of rows. At once.
    pub fn len(&self) -> u32
        ensures count { result ≡ length self.now.rows }
        ensures few { length self.now.rows ≤ self.now.width }
        ensures independent { AreIndependent self.now.rows }
    {
        let _width = self.width;
        self.kept.len() as u32
    }

    /// The row with this number, from 0. At once.
    pub fn row(&self, number: u32) -> &Row
        requires { number < length self.now.rows }
        ensures { result.now ≡ row_at self.now.rows number }
    {
        &self.kept[number as usize].given
    }

    /// The numbers of the rows, ascending, whose sum this row is; `None` exactly where it is no such sum. There is one list of numbers at
    /// most, since the rows are independent, and one where there are as many rows as entries. A step for 64 entries of each row. `Err` is
    /// want of memory.
    pub fn express(&self, row: &Row) -> Result<Option<Vec<u32>>, Memory>
        requires { length row.now ≡ self.now.width }
        ensures found { IfOk result (λ found. MatchOption found
            ((numbers : List ℕ) → IsExpression self.now.rows numbers row.now → ⊥)
            (λ numbers. IsExpression self.now.rows numbers.items row.now)) }
        ensures full { IfOk result (λ found. length self.now.rows ≡ self.now.width → IsSome found) }
        ensures independent { AreIndependent self.now.rows }
    {
        let Reduction { rest, terms } = reduce(self.alloc, &self.kept, row)?;
        match rest.first_one() {
            Some(_) => Ok(None),
            None => Ok(Some(terms.ones()?)),
        }
    }

    /// Keeps a row as the next one where it is no sum of those before it, and answers `None`; else answers the numbers of the rows,
    /// ascending, whose sum it is, and keeps what was there. A step for 64 entries of each row. `Err` is want of memory, and leaves all as
    /// it was.
    pub fn add(&mut self, row: Row) -> Result<Option<Vec<u32>>, Memory>
        requires { length row ≡ self.old.width }
        ensures found { IfOk result (λ found. MatchOption found
            ((numbers : List ℕ) → IsExpression self.old.rows numbers row → ⊥)
            (λ numbers. IsExpression self.old.rows numbers.items row)) }
        ensures kept { IfOk result (λ found. MatchOption found
            (self.new.rows ≡ self.old.rows ++ row ∷ [])
            (λ numbers. self.new.rows ≡ self.old.rows)) }
        ensures width { self.new.width ≡ self.old.width }
        ensures independent { AreIndependent self.new.rows }
        ensures unchanged { OnErr result (self.new ≡ self.old) }
    {
        let Reduction { rest, mut terms } = reduce(self.alloc, &self.kept, &row)?;
        match rest.first_one() {
            Some(lead) => {
                terms.set(self.kept.len() as u32);
                self.kept.push(Kept {
                    given: row,
                    reduced: rest,
                    terms,
                    lead,
                })?;
                Ok(None)
            }
            None => Ok(Some(terms.ones()?)),
        }
    }
}
