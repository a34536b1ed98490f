//! The cochain.
ghost use Rattle.std.specs.Prelude.{◌≡◌, IfOk};
ghost use Rattle.homology.specs.Sets.{plus, set_of};
ghost use Rattle.homology.specs.Complexes.{Complex as Simplices};
ghost use Rattle.homology.specs.Chains.{IsChain};
ghost use Rattle.cochain_values.specs.Cochains.{StandsOn};

use crate::uncounted;
use complex_store::Complex;
use f2_chains::Chain;
use memory::Memory;
use std::marker::Model;

/// A cochain over the field with two elements. A contract sees the degree and the ascending list of
/// the ids of the simplices at which its value is 1.
///
/// It stands on a complex where each of these is the id of a simplex there, and the dimension of that
/// simplex is the degree. Source: Munkres, Elements of Algebraic Topology, section 42.
pub struct Cochain {
    pub(crate) degree: u8,
    pub(crate) support: Chain,
}

impl Model for Cochain {
    ghost use Rattle.cochain_values.specs.Cochains.{Graded, graded_code};

    ghost Value = { Graded };

    ghost coded = { graded_code };

    ghost view = { λ c. record { degree = c.degree; ids = c.support } };
}

// Written out, so that whoever drops a cochain has one call in its proof.
impl Drop for Cochain {
    fn drop(self) {
        let Cochain {
            degree: _,
            support: _,
        } = self;
    }
}

impl Cochain {
    /// The cochain of these simplices of the complex. In the time of their number. `Err` is want of memory.
    pub fn from_ids(k: &Complex, degree: u8, ids: &Chain) -> Result<Cochain, Memory>
        requires { IsChain k.now degree (set_of ids.now) }
        ensures degree { IfOk result (λ c. c.degree ≡ degree) }
        ensures ids { IfOk result (λ c. c.ids ≡ ids.now) }
        ensures stands { IfOk result (StandsOn k.now) }
    {
        let support = ids.copy()?;
        Ok(Cochain { degree, support })
    }

    /// The degree. At once.
    pub fn degree(&self) -> u8
        ensures { result ≡ self.now.degree }
    {
        self.degree
    }

    /// The simplices at which the value is 1. At once.
    pub fn support(&self) -> &Chain
        ensures { result.now ≡ self.now.ids }
    {
        &self.support
    }

    /// Whether the value at the simplex with this id is 1. One binary search.
    pub fn at(&self, id: u32) -> bool
        ensures { result ≡ set_of self.now.ids id }
    {
        uncounted::has(&self.support, id)
    }

    /// The sum of two cochains of one degree. One step for each member of either. `Err` is want of
    /// memory.
    pub fn sum(&self, other: &Cochain) -> Result<Cochain, Memory>
        requires { self.now.degree ≡ other.now.degree }
        ensures degree { IfOk result (λ c. c.degree ≡ self.now.degree) }
        ensures sum { IfOk result (λ c. set_of c.ids ≡ plus (set_of self.now.ids) (set_of other.now.ids)) }
        ensures stands { IfOk result (λ c. (K : Simplices) → StandsOn K self.now → StandsOn K other.now → StandsOn K c) }
    {
        let support = uncounted::sum(&self.support, &other.support)?;
        Ok(Cochain {
            degree: self.degree,
            support,
        })
    }
}
