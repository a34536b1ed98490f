//! Places behind which no word stands, and places one behind the other.
ghost use Rattle.std.specs.Prelude.{◌≡◌, ℕ, ◌≤◌, IfOk, MatchResult};
ghost use Rattle.language.specs.Language.{Ask};
ghost use Rattle.language.specs.Grammar.{simplex, degree, number, name, cochain, chain, both, nothing, alone, form};
ghost use Rattle.facet_reader.specs.Meanings.{Refuses, cochain_meant, chain_meant, compute_meant};

use crate::words::Words;
use crate::{ChainWord, CochainWord, Compute, Degree, Name, ReadRefusal};
use simplex_order::Simplex;
use std::alloc::Global;

#[tactic(auto, unfolding(language::specs::Grammar::alone, language::specs::Grammar::nothing))]
impl Words<'_> {
    /// Takes nothing.
    pub(crate) fn alone_nothing(&mut self) -> Result<(), ReadRefusal>
        ensures { MatchResult result (λ _. alone nothing self.old ≡ Ok (tt {0})) (λ e. Refuses (alone nothing self.old) e) }
    {
        self.end()
    }

    /// Takes a simplex and no more.
    pub(crate) fn alone_simplex(&mut self) -> Result<Simplex, ReadRefusal>
        ensures { MatchResult result (λ s. alone simplex self.old ≡ Ok s) (λ e. Refuses (alone simplex self.old) e) }
    {
        let simplex = self.simplex()?;
        self.end()?;
        Ok(simplex)
    }

    /// Takes a degree and no more.
    pub(crate) fn alone_degree(&mut self) -> Result<Degree, ReadRefusal>
        ensures { MatchResult result (λ p. alone degree self.old ≡ Ok p) (λ e. Refuses (alone degree self.old) e) }
    {
        let degree = self.degree()?;
        self.end()?;
        Ok(degree)
    }

    /// Takes a number from `low` to `high` and no more.
    pub(crate) fn alone_number(&mut self, low: u32, high: u32) -> Result<u32, ReadRefusal>
        ensures value { MatchResult result (λ n. alone (number low high) self.old ≡ Ok n)
            (λ e. Refuses (alone (number low high) self.old) e) }
        ensures range { IfOk result (λ n. n ≤ high) }
    {
        let number = self.number(low, high)?;
        self.end()?;
        Ok(number)
    }

    /// Takes a name and no more.
    pub(crate) fn alone_name(&mut self) -> Result<Name, ReadRefusal>
        ensures { MatchResult result (λ n. alone name self.old ≡ Ok n) (λ e. Refuses (alone name self.old) e) }
    {
        let name = self.name()?;
        self.end()?;
        Ok(name)
    }

    /// Takes a cochain and no more.
    pub(crate) fn alone_cochain(&mut self, alloc: Global) -> Result<CochainWord, ReadRefusal>
        ensures { MatchResult result (λ a. alone cochain self.old ≡ Ok (cochain_meant a)) (λ e. Refuses (alone cochain self.old) e) }
    {
        let cochain = self.cochain(alloc)?;
        self.end()?;
        Ok(cochain)
    }

    /// Takes a chain and no more.
    pub(crate) fn alone_chain(&mut self, alloc: Global) -> Result<ChainWord, ReadRefusal>
        ensures { MatchResult result (λ c. alone chain self.old ≡ Ok (chain_meant c)) (λ e. Refuses (alone chain self.old) e) }
    {
        let chain = self.chain(alloc)?;
        self.end()?;
        Ok(chain)
    }
}

#[tactic(auto, unfolding(language::specs::Grammar::form, language::specs::Grammar::alone, language::specs::Grammar::nothing))]
impl Words<'_> {
    /// Takes nothing, and asks this question.
    pub(crate) fn alone_question(&mut self, question: Compute) -> Result<Compute, ReadRefusal>
        ensures { MatchResult result
            (λ q. form nothing (λ _. Ask (compute_meant question)) self.old ≡ Ok (Ask (compute_meant q)))
            (λ e. Refuses (form nothing (λ _. Ask (compute_meant question)) self.old) e) }
    {
        self.end()?;
        Ok(question)
    }
}
