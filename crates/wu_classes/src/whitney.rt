//! Stiefel-Whitney classes.
ghost use Rattle.std.specs.Prelude.{◌≡◌, ◌+◌, ◌<◌, ◌≤◌, true, Ok, length, map, IfOk, IfErr};
ghost use Rattle.std.specs.List.{range_with_len};
ghost use Rattle.simplex_order.specs.declared.limits.TheConstants.{MOST_VERTICES};
ghost use Rattle.homology.specs.Sets.{empty, plus, set_of};
ghost use Rattle.homology.specs.Complexes.{Complex as Simplices};
ghost use Rattle.homology.specs.Chains.{IsCocycle};
ghost use Rattle.cohomology.specs.Classes.{IsClass, class_of};
ghost use Rattle.cohomology_operations.specs.Squares.{square};
ghost use Rattle.characteristic_classes.specs.WuClasses.{stiefel_whitney, whitney_class, whitney_cochain, wu_class};
ghost use Rattle.cochain_values.specs.Cochains.{StandsOn};
ghost use Rattle.class_solver.specs.Refusals.{IsTestedCocycle};
ghost use Rattle.wu_classes.specs.Duals.{AreCocycles, IsDual};
ghost use Rattle.wu_classes.specs.Refusals.{WuRefuses};
ghost use Rattle.wu_classes.specs.Values.{words_of};

use crate::WuRefusal;
use crate::cocycle::{cocycle, zero};
use crate::dual::{Dual, pair_classes};
use crate::wu_words::wu_class;
use class_cache::Cached;
use class_solver::ClassWord;
use cochain_values::Cochain;
use memory::Memory;
use steenrod::square_cochain;

/// The Stiefel-Whitney classes w_0 to w_n of a closed complex of dimension n without degenerate classes, by Wu's formula: w_k is the sum
/// of Sq^(k - i) of the Wu classes v_i.
///
/// The refusals are those of `duality`. The time of `wu`, and for each degree the squares of the Wu classes up to it that are not zero, and a
/// class word where their sum is not.
/// Source: Milnor and Stasheff, Characteristic Classes, section 11.
pub fn sw(version: &Cached) -> Result<Vec<ClassWord>, WuRefusal>
    ensures words { IfOk result (λ words. stiefel_whitney version.now ≡ Ok (words_of words.items)) }
    ensures refused { IfErr result (WuRefuses (stiefel_whitney version.now)) }
{
    let dual = pair_classes(version)?;
    let words = whitney_classes(version, &dual)?;
    Ok(words)
}

/// The Stiefel-Whitney classes of all degrees. `Err` is want of memory.
fn whitney_classes(m: &Cached, dual: &Dual) -> Result<Vec<ClassWord>, Memory>
    requires { IsDual m.now dual.now }
    ensures { IfOk result (λ words. words_of words.items ≡ map (λ k. (k, whitney_class m.now k)) (range_with_len 0 (dual.now.dim + 1))) }
{
    let cocycles = wu_cocycles(m, dual, dual.dim)?;
    let mut words = Vec::new(m.complex().allocator());
    for k in 0..dual.dim + 1 {
        words.push(whitney_class(m, dual, &cocycles, k)?)?;
    }
    Ok(words)
}

/// The canonical cocycles of the Wu classes of the degrees up to `last`. `Err` is want of memory.
pub(crate) fn wu_cocycles(m: &Cached, dual: &Dual, last: u8) -> Result<Vec<Cochain>, Memory>
    requires dual { IsDual m.now dual.now }
    requires last { last ≤ dual.now.dim }
    ensures cocycles { IfOk result (λ cs. AreCocycles m.now (wu_class m.now) cs.items) }
    ensures count { IfOk result (λ cs. length cs.items ≡ last + 1) }
{
    let mut cocycles = Vec::new(m.complex().allocator());
    for k in 0..last + 1 {
        let word = wu_class(m, dual, k)?;
        cocycles.push(cocycle(m, k, &word.numbers)?)?;
    }
    Ok(cocycles)
}

/// The canonical cocycles of the Stiefel-Whitney classes of the degrees of these Wu classes. `Err` is want of memory.
pub(crate) fn whitney_cocycles(
    m: &Cached,
    dual: &Dual,
    wu: &[Cochain],
) -> Result<Vec<Cochain>, Memory>
    requires dual { IsDual m.now dual.now }
    requires wu { AreCocycles m.now (wu_class m.now) wu.now }
    requires few { length wu.now ≤ dual.now.dim + 1 }
    ensures cocycles { IfOk result (λ cs. AreCocycles m.now (whitney_class m.now) cs.items) }
    ensures count { IfOk result (λ cs. length cs.items ≡ length wu.now) }
{
    let mut cocycles = Vec::new(m.complex().allocator());
    for k in 0..wu.len() as u8 {
        let word = whitney_class(m, dual, wu, k)?;
        cocycles.push(cocycle(m, k, &word.numbers)?)?;
    }
    Ok(cocycles)
}

/// The Stiefel-Whitney class of degree `k`. `Err` is want of memory.
fn whitney_class(m: &Cached, dual: &Dual, wu: &[Cochain], k: u8) -> Result<ClassWord, Memory>
    requires dual { IsDual m.now dual.now }
    requires wu { AreCocycles m.now (wu_class m.now) wu.now }
    requires degree { k < length wu.now }
    requires within { k ≤ dual.now.dim }
    ensures degree { IfOk result (λ w. w.degree ≡ k) }
    ensures class { IfOk result (λ w. w.numbers.items ≡ whitney_class m.now k) }
    ensures word { IfOk result (λ w. IsClass m.now k w.numbers.items) }
{
    let _ = m.complex();
    let sum = whitney_cochain(m, wu, k)?;
    let word = word_of(m, &sum)?;
    Ok(word)
}

/// The class word of a cocycle; of the zero cochain at once. `Err` is want of memory.
fn word_of(m: &Cached, a: &Cochain) -> Result<ClassWord, Memory>
    requires { IsCocycle m.now a.now.degree (set_of a.now.ids) }
    ensures degree { IfOk result (λ w. w.degree ≡ a.now.degree) }
    ensures word { IfOk result (λ w. w.numbers.items ≡ class_of m.now a.now.degree (set_of a.now.ids)) }
{
    let complex = m.complex();
    if a.support().ids().is_empty() {
        let numbers = Vec::new(complex.allocator());
        return Ok(ClassWord {
            degree: a.degree(),
            numbers,
        });
    }
    let word = m.coordinates_of_cocycle(a)?;
    Ok(word)
}

/// The sum of Sq^(k - i) of the canonical cocycles of v_i. `Err` is want of memory.
fn whitney_cochain(m: &Cached, wu: &[Cochain], k: u8) -> Result<Cochain, Memory>
    requires wu { AreCocycles m.now (wu_class m.now) wu.now }
    requires degree { k < length wu.now }
    requires small { k < MOST_VERTICES }
    ensures degree { IfOk result (λ a. a.degree ≡ k) }
    ensures sum { IfOk result (λ a. set_of a.ids ≡ whitney_cochain m.now k) }
    ensures stands { IfOk result (StandsOn m.now) }
{
    let _ = m.complex();
    let mut sum = zero(m, k)?;
    for i in 0..k + 1 {
        sum = with_square(m, sum, k - i, &wu[i as usize])?;
    }
    Ok(sum)
}

/// A cochain, with Sq^k of another one added to it. `Err` is want of memory.
fn with_square(m: &Cached, sum: Cochain, k: u8, a: &Cochain) -> Result<Cochain, Memory>
    requires degrees { sum.degree ≡ a.now.degree + k }
    requires small { sum.degree ≤ 99 }
    requires sum_stands { StandsOn m.now sum }
    requires stands { StandsOn m.now a.now }
    ensures degree { IfOk result (λ c. c.degree ≡ sum.degree) }
    ensures sum { IfOk result (λ c. set_of c.ids ≡ plus (set_of sum.ids) (square m.now k a.now.degree (set_of a.now.ids))) }
    ensures stands { IfOk result (StandsOn m.now) }
{
    let _ = m.complex();
    if has_no_square(k, a) {
        return Ok(sum);
    }
    let square = square_cochain(m.model(), k, a)?;
    let sum = sum.sum(&square)?;
    Ok(sum)
}

/// Whether a cochain is zero, or its degree less than `k`, so that its Sq^k is zero.
fn has_no_square(k: u8, a: &Cochain) -> bool
    ensures { result ≡ true → (K : Simplices) → square K k a.now.degree (set_of a.now.ids) ≡ empty }
{
    a.support().ids().is_empty() || k > a.degree()
}
