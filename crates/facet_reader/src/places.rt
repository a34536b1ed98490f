//! Words at their places.
ghost use Rattle.std.specs.Prelude.{◌≡◌, ℕ, ◌≤◌, IfOk, MatchResult};
ghost use Rattle.language.specs.Grammar.{one, simplex, degree, number, name, cochain, chain};
ghost use Rattle.facet_reader.specs.Meanings.{Refuses, cochain_meant, chain_meant};

use crate::graded::{chain, cochain};
use crate::run::{degree, number};
use crate::simplex_word::simplex;
use crate::small_word::name;
use crate::words::Words;
use crate::{ChainWord, CochainWord, Degree, Name, ReadRefusal};
use simplex_order::Simplex;
use std::alloc::Global;

impl Words<'_> {
    /// Takes a simplex.
    pub(crate) fn simplex(&mut self) -> Result<Simplex, ReadRefusal>
        ensures { MatchResult result (λ s. simplex self.old ≡ Ok (s, self.new)) (λ e. Refuses (simplex self.old) e) }
    {
        let word = self.word()?;
        match simplex(word.bytes) {
            Ok(simplex) => Ok(simplex),
            Err(kind) => Err(word.bad(kind)),
        }
    }

    /// Takes a degree, an index, or the k of Sq^k.
    pub(crate) fn degree(&mut self) -> Result<Degree, ReadRefusal>
        ensures { MatchResult result (λ p. degree self.old ≡ Ok (p, self.new)) (λ e. Refuses (degree self.old) e) }
    {
        let word = self.word()?;
        match degree(word.bytes) {
            Ok(degree) => Ok(degree),
            Err(kind) => Err(word.bad(kind)),
        }
    }

    /// Takes a number from `low` to `high`.
    pub(crate) fn number(&mut self, low: u32, high: u32) -> Result<u32, ReadRefusal>
        ensures value { MatchResult result (λ n. number low high self.old ≡ Ok (n, self.new)) (λ e. Refuses (number low high self.old) e) }
        ensures range { IfOk result (λ n. n ≤ high) }
    {
        let word = self.word()?;
        match number(word.bytes, low, high) {
            Ok(number) => Ok(number),
            Err(kind) => Err(word.bad(kind)),
        }
    }

    /// Takes a name.
    pub(crate) fn name(&mut self) -> Result<Name, ReadRefusal>
        ensures { MatchResult result (λ n. name self.old ≡ Ok (n, self.new)) (λ e. Refuses (name self.old) e) }
    {
        let word = self.word()?;
        match name(word.bytes) {
            Ok(name) => Ok(name),
            Err(kind) => Err(word.bad(kind)),
        }
    }

    /// Takes a cochain.
    pub(crate) fn cochain(&mut self, alloc: Global) -> Result<CochainWord, ReadRefusal>
        ensures { MatchResult result (λ a. cochain self.old ≡ Ok (cochain_meant a, self.new)) (λ e. Refuses (cochain self.old) e) }
    {
        let word = self.word()?;
        match cochain(alloc, word.bytes) {
            Ok(cochain) => Ok(cochain),
            Err(refusal) => Err(word.refused(refusal)),
        }
    }

    /// Takes a chain.
    pub(crate) fn chain(&mut self, alloc: Global) -> Result<ChainWord, ReadRefusal>
        ensures { MatchResult result (λ c. chain self.old ≡ Ok (chain_meant c, self.new)) (λ e. Refuses (chain self.old) e) }
    {
        let word = self.word()?;
        match chain(alloc, word.bytes) {
            Ok(chain) => Ok(chain),
            Err(refusal) => Err(word.refused(refusal)),
        }
    }
}
