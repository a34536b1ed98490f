//! Wu classes.
ghost use Rattle.std.specs.Prelude.{◌≡◌, ℕ, ◌+◌, ◌-◌, ◌<◌, ◌≤◌, ◌∷◌, [], Ok, length, map, IfOk, IfErr};
ghost use Rattle.std.specs.List.{range_with_len};
ghost use Rattle.homology.specs.Kinds.{betti};
ghost use Rattle.cohomology.specs.Classes.{IsClass};
ghost use Rattle.cohomology_operations.specs.Squares.{square};
ghost use Rattle.characteristic_classes.specs.Pairings.{cocycle, on_top};
ghost use Rattle.characteristic_classes.specs.WuClasses.{wu, wu_class};
ghost use Rattle.elimination.specs.Rows.{entry};
ghost use Rattle.wu_classes.specs.Duals.{IsDual, IsTop};
ghost use Rattle.wu_classes.specs.Refusals.{WuRefuses};
ghost use Rattle.wu_classes.specs.Values.{words_of};

use crate::WuRefusal;
use crate::cocycle::cocycle;
use crate::columns::diagonal;
use crate::dual::{Dual, pair_classes};
use crate::kept_values::kept_values;
use crate::pairing_rows::row_of_members;
use crate::top::{on_top, top_chain};
use class_cache::Cached;
use class_solver::ClassWord;
use elimination::Row;
use memory::Memory;
use steenrod::square_cochain;

/// The Wu classes v_0 to v_n of a closed complex of dimension n without degenerate classes: the product of v_k and a class of degree n - k
/// has the value of Sq^k of this class on the fundamental cycle.
///
/// The refusals are those of `duality`. The time of `duality`, and for each k below the complementary degree Sq^k of the canonical
/// cocycles of the classes of that degree, each found by a pass over the model where it is not kept; for k = 0 a search for each class, or
/// one reduction.
/// Source: Milnor and Stasheff, Characteristic Classes, section 11.
pub fn wu(version: &Cached) -> Result<Vec<ClassWord>, WuRefusal>
    ensures words { IfOk result (λ words. wu version.now ≡ Ok (words_of words.items)) }
    ensures refused { IfErr result (WuRefuses (wu version.now)) }
{
    let dual = pair_classes(version)?;
    let words = wu_classes(version, &dual)?;
    Ok(words)
}

/// The Wu classes of all degrees. `Err` is want of memory.
fn wu_classes(m: &Cached, dual: &Dual) -> Result<Vec<ClassWord>, Memory>
    requires { IsDual m.now dual.now }
    ensures { IfOk result (λ words. words_of words.items ≡ map (λ k. (k, wu_class m.now k)) (range_with_len 0 (dual.now.dim + 1))) }
{
    let mut words = Vec::new(m.complex().allocator());
    for k in 0..dual.dim + 1 {
        words.push(wu_class(m, dual, k)?)?;
    }
    Ok(words)
}

/// The Wu class of degree `k`: the one sum of rows of its pairing that has the values of the squares. `Err` is want of memory.
pub(crate) fn wu_class(m: &Cached, dual: &Dual, k: u8) -> Result<ClassWord, Memory>
    requires dual { IsDual m.now dual.now }
    requires degree { k ≤ dual.now.dim }
    ensures degree { IfOk result (λ w. w.degree ≡ k) }
    ensures class { IfOk result (λ w. w.numbers.items ≡ wu_class m.now k) }
    ensures word { IfOk result (λ w. IsClass m.now k w.numbers.items) }
{
    let _ = m.complex();
    let values = values(m, dual, k)?;
    let Some(numbers) = dual.bases[k as usize].express(&values)? else {
        unreachable!()
    };
    Ok(ClassWord { degree: k, numbers })
}

/// The values of Sq^k of the classes of the complementary degree on the fundamental cycle. Where
/// that degree is `k` too, they are those of the products of each class with itself. `Err` is want of memory.
fn values(m: &Cached, dual: &Dual, k: u8) -> Result<Row, Memory>
    requires dual { IsDual m.now dual.now }
    requires degree { k ≤ dual.now.dim }
    ensures width { IfOk result (λ r. length r ≡ betti m.now (dual.now.dim - k)) }
    ensures values { IfOk result (λ r. (l : ℕ) → l < betti m.now (dual.now.dim - k)
        → entry r l ≡ on_top m.now (square m.now k (dual.now.dim - k) (cocycle m.now (dual.now.dim - k) (l ∷ [])))) }
{
    let complex = m.complex();
    let n = dual.dim;
    if k == 0 {
        let row = values_of_classes(m, n)?;
        return Ok(row);
    }
    if k == n - k {
        let row = diagonal(complex.allocator(), &dual.bases[k as usize])?;
        return Ok(row);
    }
    let row = values_of_squares(m, n, k)?;
    Ok(row)
}

/// The values of the classes of degree `n` on the fundamental cycle, which are those of their Sq^0. Where their
/// canonical cocycles are not all kept it is f of this sum: one reduction. `Err` is want of memory.
fn values_of_classes(m: &Cached, n: u8) -> Result<Row, Memory>
    requires top { IsTop m.now n }
    ensures width { IfOk result (λ r. length r ≡ betti m.now n) }
    ensures values { IfOk result (λ r. (l : ℕ) → l < betti m.now n → entry r l ≡ on_top m.now (square m.now 0 n (cocycle m.now n (l ∷ [])))) }
{
    let complex = m.complex();
    let _ = complex.len();
    let whole = top_chain(m, n)?;
    if let Some(row) = kept_values(m, n, &whole)? {
        return Ok(row);
    }
    let f = m.f_of_chain(&whole)?;
    let essential = m.essential(n)?;
    let row = row_of_members(complex.allocator(), &f, &essential)?;
    Ok(row)
}

/// The values of Sq^k of the classes of degree `n` - `k` on the fundamental cycle: zeros, where `k`
/// exceeds the degree. `Err` is want of memory.
fn values_of_squares(m: &Cached, n: u8, k: u8) -> Result<Row, Memory>
    requires top { IsTop m.now n }
    requires degree { k ≤ n }
    ensures width { IfOk result (λ r. length r ≡ betti m.now (n - k)) }
    ensures values { IfOk result (λ r. (l : ℕ) → l < betti m.now (n - k)
        → entry r l ≡ on_top m.now (square m.now k (n - k) (cocycle m.now (n - k) (l ∷ [])))) }
{
    let complex = m.complex();
    let mut values = Row::zeros(complex.allocator(), m.betti(n - k))?;
    if k > n - k {
        return Ok(values);
    }
    for number in 0..m.betti(n - k) {
        if value_of_square(m, n, k, number)? {
            values.set(number);
        }
    }
    Ok(values)
}

/// The value of Sq^k of the class with this number of degree `n` - `k`. `Err` is want of memory.
fn value_of_square(m: &Cached, n: u8, k: u8, number: u32) -> Result<bool, Memory>
    requires top { IsTop m.now n }
    requires degree { k ≤ n }
    requires number { number < betti m.now (n - k) }
    ensures { IfOk result (λ value. value ≡ on_top m.now (square m.now k (n - k) (cocycle m.now (n - k) (number ∷ [])))) }
{
    let _ = m.complex();
    let class = cocycle(m, n - k, &[number])?;
    let square = square_cochain(m.model(), k, &class)?;
    Ok(on_top(&square))
}
