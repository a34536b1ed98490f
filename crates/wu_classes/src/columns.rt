//! The columns of a pairing, which are the rows of that of the complementary degree, and its diagonal.
ghost use Rattle.std.specs.Prelude.{◌≡◌, ℕ, ◌<◌, length, IfOk};
ghost use Rattle.elimination.specs.Rows.{entry, row_at};

use elimination::{Basis, Row};
use memory::Memory;
use std::alloc::Global;

/// The columns of the rows of a basis. A step for each entry. `Err` is want of memory.
pub(crate) fn columns(alloc: Global, basis: &Basis) -> Result<Vec<Row>, Memory>
    requires { (j : ℕ) → j < length basis.now.rows → length (row_at basis.now.rows j) ≡ basis.now.width }
    ensures count { IfOk result (λ columns. length columns.items ≡ basis.now.width) }
    ensures widths { IfOk result (λ columns. (k : ℕ) → k < basis.now.width → length (row_at columns.items k) ≡ length basis.now.rows) }
    ensures entries { IfOk result (λ columns. (k : ℕ) → k < basis.now.width → (j : ℕ) → j < length basis.now.rows
        → entry (row_at columns.items k) j ≡ entry (row_at basis.now.rows j) k) }
{
    let mut columns = Vec::with_capacity(alloc, basis.width() as usize)?;
    for place in 0..basis.width() {
        let column = column(alloc, basis, place)?;
        columns.push(column)?;
    }
    Ok(columns)
}

/// The column at a place. `Err` is want of memory.
fn column(alloc: Global, basis: &Basis, place: u32) -> Result<Row, Memory>
    requires widths { (j : ℕ) → j < length basis.now.rows → length (row_at basis.now.rows j) ≡ basis.now.width }
    requires place { place < basis.now.width }
    ensures width { IfOk result (λ r. length r ≡ length basis.now.rows) }
    ensures entries { IfOk result (λ r. (j : ℕ) → j < length basis.now.rows → entry r j ≡ entry (row_at basis.now.rows j) place) }
{
    let mut column = Row::zeros(alloc, basis.len())?;
    for j in 0..basis.len() {
        if basis.row(j).get(place) {
            column.set(j);
        }
    }
    Ok(column)
}

/// The entry of each row at its own number, where there are as many rows as entries. A step for each. `Err` is want of memory.
pub(crate) fn diagonal(alloc: Global, basis: &Basis) -> Result<Row, Memory>
    requires widths { (j : ℕ) → j < length basis.now.rows → length (row_at basis.now.rows j) ≡ basis.now.width }
    requires square { length basis.now.rows ≡ basis.now.width }
    ensures width { IfOk result (λ r. length r ≡ basis.now.width) }
    ensures entries { IfOk result (λ r. (j : ℕ) → j < basis.now.width → entry r j ≡ entry (row_at basis.now.rows j) j) }
{
    let mut row = Row::zeros(alloc, basis.len())?;
    for j in 0..basis.len() {
        if basis.row(j).get(j) {
            row.set(j);
        }
    }
    Ok(row)
}
