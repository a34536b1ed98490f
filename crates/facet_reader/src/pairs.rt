//! Questions on more than one word.
ghost use Rattle.std.specs.Prelude.{◌≡◌, ℕ, MatchResult};
ghost use Rattle.language.specs.Language.{Ask};
ghost use Rattle.language.specs.declared.verb.Verb.TheVariants as verb;
ghost use Rattle.language.specs.Grammar.{cochain, both, verb_form};
ghost use Rattle.facet_reader.specs.Meanings.{Refuses, cochain_meant, compute_meant};

use crate::words::Words;
use crate::{CochainWord, Compute, ReadRefusal};
use std::alloc::Global;

#[tactic(auto, unfolding(language::specs::Grammar::form, language::specs::Grammar::alone, language::specs::Grammar::both))]
impl Words<'_> {
    /// Takes two cochains.
    fn cochains(&mut self, alloc: Global) -> Result<(CochainWord, CochainWord), ReadRefusal>
        ensures { MatchResult result
            (λ r. both cochain cochain self.old ≡ Ok ((cochain_meant r.0, cochain_meant r.1), self.new))
            (λ e. Refuses (both cochain cochain self.old) e) }
    {
        let first = self.cochain(alloc)?;
        let second = self.cochain(alloc)?;
        Ok((first, second))
    }

    /// The cup product of two cochains.
    pub(crate) fn cup(&mut self, alloc: Global) -> Result<Compute, ReadRefusal>
        ensures { MatchResult result (λ q. verb_form verb.Cup self.old ≡ Ok (Ask (compute_meant q)))
            (λ e. Refuses (verb_form verb.Cup self.old) e) }
    {
        let (a, b) = self.cochains(alloc)?;
        self.end()?;
        Ok(Compute::Cup { a, b })
    }

    /// The cup-i product of an index and two cochains.
    pub(crate) fn cup_i(&mut self, alloc: Global) -> Result<Compute, ReadRefusal>
        ensures { MatchResult result (λ q. verb_form verb.CupI self.old ≡ Ok (Ask (compute_meant q)))
            (λ e. Refuses (verb_form verb.CupI self.old) e) }
    {
        let i = self.degree()?;
        let (a, b) = self.cochains(alloc)?;
        self.end()?;
        Ok(Compute::CupI { i, a, b })
    }

    /// Sq^k, by k and a cochain.
    pub(crate) fn square(&mut self, alloc: Global) -> Result<Compute, ReadRefusal>
        ensures { MatchResult result (λ q. verb_form verb.Square self.old ≡ Ok (Ask (compute_meant q)))
            (λ e. Refuses (verb_form verb.Square self.old) e) }
    {
        let k = self.degree()?;
        let a = self.cochain(alloc)?;
        self.end()?;
        Ok(Compute::Square { k, a })
    }

    /// The two cup products of two pairs of cochains.
    pub(crate) fn same_cup(&mut self, alloc: Global) -> Result<Compute, ReadRefusal>
        ensures { MatchResult result (λ q. verb_form verb.SameCup self.old ≡ Ok (Ask (compute_meant q)))
            (λ e. Refuses (verb_form verb.SameCup self.old) e) }
    {
        let (a, a2) = self.cochains(alloc)?;
        let (b, b2) = self.cochains(alloc)?;
        self.end()?;
        Ok(Compute::SameCup { a, a2, b, b2 })
    }

    /// Sq^k twice, by k and two cochains.
    pub(crate) fn same_square(&mut self, alloc: Global) -> Result<Compute, ReadRefusal>
        ensures { MatchResult result (λ q. verb_form verb.SameSquare self.old ≡ Ok (Ask (compute_meant q)))
            (λ e. Refuses (verb_form verb.SameSquare self.old) e) }
    {
        let k = self.degree()?;
        let (a, a2) = self.cochains(alloc)?;
        self.end()?;
        Ok(Compute::SameSquare { k, a, a2 })
    }

    /// The two Bocksteins of two cochains.
    pub(crate) fn same_bockstein(&mut self, alloc: Global) -> Result<Compute, ReadRefusal>
        ensures { MatchResult result (λ q. verb_form verb.SameBockstein self.old ≡ Ok (Ask (compute_meant q)))
            (λ e. Refuses (verb_form verb.SameBockstein self.old) e) }
    {
        let (a, a2) = self.cochains(alloc)?;
        self.end()?;
        Ok(Compute::SameBockstein { a, a2 })
    }

    /// The cap product of a cochain and a chain.
    pub(crate) fn cap(&mut self, alloc: Global) -> Result<Compute, ReadRefusal>
        ensures { MatchResult result (λ q. verb_form verb.Cap self.old ≡ Ok (Ask (compute_meant q)))
            (λ e. Refuses (verb_form verb.Cap self.old) e) }
    {
        let a = self.cochain(alloc)?;
        let c = self.chain(alloc)?;
        self.end()?;
        Ok(Compute::Cap { a, c })
    }
}
