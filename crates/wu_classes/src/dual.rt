//! The pairings of a closed complex without degenerate classes.
ghost use Rattle.std.specs.Prelude.{◌≡◌, ℕ, ◌<◌, ◌≤◌, ◌∷◌, ◌+◌, ◌-◌, ◌++◌, [], length, slice_index_or, IfOk, IfErr, IfSome, OnOk};
ghost use Rattle.homology.specs.Sets.{set_of};
ghost use Rattle.homology.specs.Chains.{IsChain};
ghost use Rattle.homology.specs.Kinds.{betti, ids};
ghost use Rattle.cohomology.specs.Classes.{essentials};
ghost use Rattle.characteristic_classes.specs.Pairings.{dual, pairing, row};
ghost use Rattle.elimination.specs.Rows.{Given};
ghost use Rattle.wu_classes.specs.Duals.{IsDual, IsFree, IsPairing, IsTop};
ghost use Rattle.wu_classes.specs.Refusals.{WuRefuses};
ghost use Rattle.wu_classes.specs.Sums.{AreMaps};

use crate::WuRefusal;
use crate::class_maps::maps_if_few;
use crate::pairing_rows::all_rows;
use crate::row::row_of_class;
use crate::top::{dimension, top_chain};
use class_cache::Cached;
use class_solver::ClassWord;
use elimination::{Basis, Row};
use f2_chains::Chain;
use memory::Memory;

/// The dimension of a closed complex without degenerate classes, and its pairings of the degrees from 0 to the dimension, each as the
/// independent rows of its classes.
#[derive(Drop)]
pub(crate) struct Dual {
    /// The dimension.
    pub(crate) dim: u8,
    /// For each degree the rows of its classes.
    pub(crate) bases: Vec<Basis>,
}

/// The pairings of all degrees, in the time that [`duality`](crate::duality) tells.
pub(crate) fn pair_classes(m: &Cached) -> Result<Dual, WuRefusal>
    ensures dual { IfOk result (IsDual m.now) }
    ensures refused { IfErr result (WuRefuses (dual m.now)) }
{
    let dim = dimension(m)?;
    let whole = top_chain(m, dim)?;
    let maps = maps_if_few(m, dim)?;
    let bases = pair_degrees(m, &whole, &maps, dim)?;
    Ok(Dual { dim, bases })
}

/// The pairings of the degrees from 0 to the dimension `n`.
fn pair_degrees(
    m: &Cached,
    whole: &Chain,
    maps: &Option<Vec<Chain>>,
    n: u8,
) -> Result<Vec<Basis>, WuRefusal>
    requires top { IsTop m.now n }
    requires whole { set_of whole.now ≡ set_of (ids m.now n) }
    requires chain { IsChain m.now n (set_of whole.now) }
    requires maps { IfSome maps.now (λ maps. AreMaps m.now maps.items) }
    ensures count { IfOk result (λ bases. length bases.items ≡ n + 1) }
    ensures each { IfOk result (λ bases. (p : ℕ) (g : Given) → p ≤ n → IsPairing m.now p (slice_index_or bases.items p g)) }
    ensures refused { IfErr result (WuRefuses (dual m.now)) }
{
    let mut bases = Vec::new(m.complex().allocator());
    for p in 0..n + 1 {
        let basis = pair_degree(m, whole, maps, bases.as_slice(), n, p)?;
        push(&mut bases, basis)?;
    }
    Ok(bases)
}

/// One pairing more. `Err` is want of memory.
fn push(bases: &mut Vec<Basis>, basis: Basis) -> Result<(), Memory>
    ensures { OnOk result (bases.new.items ≡ bases.old.items ++ basis ∷ []) }
{
    bases.push(basis)?;
    Ok(())
}

/// The pairing of degree `p`, where those of the lesser degrees are given.
fn pair_degree(
    m: &Cached,
    whole: &Chain,
    maps: &Option<Vec<Chain>>,
    bases: &[Basis],
    n: u8,
    p: u8,
) -> Result<Basis, WuRefusal>
    requires top { IsTop m.now n }
    requires degree { p ≤ n }
    requires whole { set_of whole.now ≡ set_of (ids m.now n) }
    requires chain { IsChain m.now n (set_of whole.now) }
    requires maps { IfSome maps.now (λ maps. AreMaps m.now maps.items) }
    requires count { length bases.now ≡ p }
    requires earlier { (q : ℕ) (g : Given) → q < p → IsPairing m.now q (slice_index_or bases.now q g) }
    ensures pairing { IfOk result (IsPairing m.now p) }
    ensures refused { IfErr result (WuRefuses (dual m.now)) }
{
    let _ = m.complex();
    let essential = m.essential(n - p)?;
    let rows = all_rows(m, maps, bases, n, p, &essential)?;
    let basis = pairing(m, whole, &rows, n, p, &essential)?;
    Ok(basis)
}

/// The pairing of degree `p`, row by row. `Degenerate`: the first row that is the sum of earlier ones makes with them the first
/// degenerate class.
fn pairing(
    m: &Cached,
    whole: &Chain,
    rows: &Option<Vec<Row>>,
    n: u8,
    p: u8,
    essential: &[u32],
) -> Result<Basis, WuRefusal>
    requires top { IsTop m.now n }
    requires degree { p ≤ n }
    requires whole { set_of whole.now ≡ set_of (ids m.now n) }
    requires chain { IsChain m.now n (set_of whole.now) }
    requires rows { IfSome rows.now (λ rows. rows.items ≡ pairing m.now p) }
    requires essential { essential.now ≡ essentials m.now (n - p) }
    requires earlier { (q : ℕ) → q < p → IsFree m.now q }
    ensures pairing { IfOk result (IsPairing m.now p) }
    ensures refused { IfErr result (WuRefuses (dual m.now)) }
{
    let complex = m.complex();
    let mut basis = Basis::new(complex.allocator(), m.betti(n - p));
    for number in 0..m.betti(p) {
        let row = row(m, whole, rows, n, p, number, essential)?;
        if let Some(numbers) = basis.add(row)? {
            let word = with_last(p, numbers, number)?;
            return Err(WuRefusal::Degenerate(word));
        }
    }
    let _ = basis.len();
    Ok(basis)
}

/// The row of a class: that of the rows that were found together, if they were, else found alone. `Err` is want of memory.
fn row(
    m: &Cached,
    whole: &Chain,
    rows: &Option<Vec<Row>>,
    n: u8,
    p: u8,
    number: u32,
    essential: &[u32],
) -> Result<Row, Memory>
    requires top { IsTop m.now n }
    requires degree { p ≤ n }
    requires number { number < betti m.now p }
    requires whole { set_of whole.now ≡ set_of (ids m.now n) }
    requires chain { IsChain m.now n (set_of whole.now) }
    requires rows { IfSome rows.now (λ rows. rows.items ≡ pairing m.now p) }
    requires essential { essential.now ≡ essentials m.now (n - p) }
    ensures width { IfOk result (λ r. length r ≡ betti m.now (n - p)) }
    ensures row { IfOk result (λ r. r ≡ row m.now p number) }
{
    match rows {
        Some(rows) => {
            let row = rows[number as usize].copy()?;
            Ok(row)
        }
        None => row_of_class(m, whole, n, p, number, essential),
    }
}

/// A class word with one more number.
fn with_last(degree: u8, mut numbers: Vec<u32>, last: u32) -> Result<ClassWord, Memory>
    ensures degree { IfOk result (λ w. w.degree ≡ degree) }
    ensures numbers { IfOk result (λ w. w.numbers.items ≡ numbers.items ++ last ∷ []) }
{
    numbers.push(last)?;
    Ok(ClassWord { degree, numbers })
}
