//! What is kept of the classes of all degrees.
ghost use Rattle.std.specs.Prelude.{◌≡◌};

use crate::keeping::keep;
use at_model::Model;
use class_cache::Cache;
use class_cache::limits::MOST_CLASSES;
use complex_store::Complex;
use memory::Memory;
use simplex_order::MOST_VERTICES;

/// Keeps the canonical cocycles of the classes of all degrees, where there are few classes, and as many of degree p as of degree n - p,
/// where n is the dimension: so it is where a closed complex has no degenerate class. In the time of [`keep`] for all
/// classes. `Err` is want of memory; what was kept before is kept on.
pub fn keep_classes(cache: &mut Cache, m: &Model) -> Result<(), Memory>
    requires { cache.old ≡ m.now }
    ensures { cache.new ≡ cache.old }
{
    let dim = dimension(m.complex());
    if !are_few(m) || !are_paired(m, dim) {
        return Ok(());
    }
    keep_degrees(cache, m, dim)
}

/// The greatest dimension of a simplex; 0 where there is none.
fn dimension(complex: &Complex) -> u8 {
    let mut dim = 0;
    for p in 0..MOST_VERTICES as u8 {
        if complex.count(p) > 0 {
            dim = p;
        }
    }
    dim
}

/// Whether there are few classes.
fn are_few(m: &Model) -> bool {
    let mut classes = 0u32;
    for p in 0..MOST_VERTICES as u8 {
        classes = classes.saturating_add(m.betti(p));
    }
    classes <= MOST_CLASSES
}

/// Whether there are as many classes of degree p as of degree `dim` - p.
fn are_paired(m: &Model, dim: u8) -> bool {
    for p in 0..dim {
        if m.betti(p) != m.betti(dim - p) {
            return false;
        }
    }
    true
}

/// Keeps the canonical cocycles of all classes of the degrees up to `dim`.
fn keep_degrees(cache: &mut Cache, m: &Model, dim: u8) -> Result<(), Memory>
    requires { cache.old ≡ m.now }
    ensures { cache.new ≡ cache.old }
{
    for p in 0..dim {
        keep_degree(cache, m, p)?;
    }
    keep_degree(cache, m, dim)
}

/// Keeps the canonical cocycles of all classes of a degree.
fn keep_degree(cache: &mut Cache, m: &Model, degree: u8) -> Result<(), Memory>
    requires { cache.old ≡ m.now }
    ensures { cache.new ≡ cache.old }
{
    for number in 0..m.betti(degree) {
        keep(cache, m, degree, &[number])?;
    }
    Ok(())
}
