//! The lists that stand inside requests. A contract sees each as a list.
ghost use Rattle.std.specs.Prelude.{◌≡◌, ◌<◌, ◌≤◌, length};
ghost use Rattle.std.specs.List.{All};

use simplex_order::Simplex;
use std::marker::Model;

/// Simplices, in the order of the line.
#[derive(Drop)]
pub struct Simplices {
    inner: Vec<Simplex>,
}

impl Model for Simplices {
    ghost use Rattle.std.specs.Prelude.{ℕ, List};

    ghost Value = { List (List ℕ) };

    ghost view = { λ s. s.inner.items };
}

impl Simplices {
    /// The list of these simplices. Takes no memory.
    pub fn new(simplices: Vec<Simplex>) -> Simplices
        ensures { result ≡ simplices.items }
    {
        Simplices { inner: simplices }
    }

    /// The simplices as a slice. Takes no memory.
    #[inline]
    pub fn items(&self) -> &[Simplex]
        ensures { result.now ≡ self.now }
    {
        self.inner.as_slice()
    }
}

/// Class numbers, in the order of the line.
#[derive(Drop)]
pub struct Numbers {
    inner: Vec<u32>,
}

impl Model for Numbers {
    ghost use Rattle.std.specs.Prelude.{ℕ, List};

    ghost Value = { List ℕ };

    ghost view = { λ n. n.inner.items };
}

impl Numbers {
    /// The list of these numbers. Takes no memory.
    pub fn new(numbers: Vec<u32>) -> Numbers
        ensures { result ≡ numbers.items }
    {
        Numbers { inner: numbers }
    }

    /// The numbers as a slice. Takes no memory.
    #[inline]
    pub fn items(&self) -> &[u32]
        ensures { result.now ≡ self.now }
    {
        self.inner.as_slice()
    }
}

/// The degrees of the Stiefel-Whitney classes in a product, in the order of the line: at least one, each from 1 to 99, and no more than
/// a line has bytes.
#[derive(Drop)]
pub struct Parts {
    inner: Vec<u8>,
}

impl Model for Parts {
    ghost use Rattle.std.specs.Prelude.{ℕ, ◌<◌, ◌≤◌, List, length};
    ghost use Rattle.std.specs.List.{All};

    ghost Value = { List ℕ };

    ghost view = { λ p. p.inner.items };

    ghost invariant = { λ p. (0 < length p.inner.items) × (length p.inner.items ≤ 1048575) × All (λ k. (0 < k) × (k ≤ 99)) p.inner.items };
}

impl Parts {
    /// The list of these degrees. Takes no memory.
    pub fn new(parts: Vec<u8>) -> Parts
        requires some { 0 < length parts.items }
        requires few { length parts.items ≤ 1048575 }
        requires degrees { All (λ k. (0 < k) × (k ≤ 99)) parts.items }
        ensures { result ≡ parts.items }
    {
        Parts { inner: parts }
    }

    /// The degrees as a slice. Takes no memory.
    #[inline]
    pub fn items(&self) -> &[u8]
        ensures same { result.now ≡ self.now }
        ensures some { 0 < length result.now }
        ensures few { length result.now ≤ 1048575 }
        ensures degrees { All (λ k. (0 < k) × (k ≤ 99)) result.now }
    {
        self.inner.as_slice()
    }
}
