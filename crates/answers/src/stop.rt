//! What stops a question: why nothing is shown, or that no memory was left.
ghost use Rattle.std.specs.Prelude.{◌≡◌, ◌<◌, length};
ghost use Rattle.homology.specs.Complexes.{simplex_at};

use crate::literal::simplex_at;
use class_solver::WordRefusal;
use cochain_values::CochainRefusal;
use complex_store::Complex;
use manifold_links::{ClosedRefusal, LinkRefusal};
use memory::Memory;
use reply_text::Why;

/// What stops a question, or a word of it.
///
/// A word is refused where it lists a simplex that is not there, or one of another dimension than its degree (`NotThere`, `Degree`: the
/// first such), or the number of no class of its degree (`NoClass`: the first such); as the word of a cocycle also where the coboundary is
/// not empty (`NotCocycle`: the first simplex at which it is 1).
#[derive(Drop)]
pub enum Stop {
    /// The question is refused, since this is so.
    Refused(Why),
    /// No memory was left.
    Memory,
}

impl From<Memory> for Stop {
    ghost use Rattle.std.specs.Prelude.{◌≡◌};
    ghost use Rattle.answers.specs.declared.stop.Stop.TheVariants as stop;

    ghost from_gives = { λ _ e. e ≡ stop.Memory };

    fn from(_error: Memory) -> Stop {
        Stop::Memory
    }
}

/// What is wrong with the listed simplices is wrong with the question.
impl From<CochainRefusal> for Stop {
    ghost use Rattle.std.specs.Prelude.{◌≡◌, option_map};
    ghost use Rattle.transcript.specs.Refusals.{not_settled};
    ghost use Rattle.cochain_values.specs.Refusals.{said};
    ghost use Rattle.answers.specs.Answers.{stop_said};

    ghost from_gives = { λ r e. stop_said e ≡ option_map not_settled (said r) };

    fn from(error: CochainRefusal) -> Stop {
        match error {
            CochainRefusal::NotThere(simplex) => Stop::Refused(Why::NotThere(simplex)),
            CochainRefusal::Degree(simplex) => Stop::Refused(Why::Degree(simplex)),
            CochainRefusal::Memory => Stop::Memory,
        }
    }
}

/// What is wrong with the class numbers is wrong with the question.
impl From<WordRefusal> for Stop {
    ghost use Rattle.std.specs.Prelude.{◌≡◌, option_map};
    ghost use Rattle.transcript.specs.Refusals.{not_settled};
    ghost use Rattle.class_solver.specs.Refusals.{word_said};
    ghost use Rattle.answers.specs.Answers.{stop_said};

    ghost from_gives = { λ r e. stop_said e ≡ option_map not_settled (word_said r) };

    fn from(error: WordRefusal) -> Stop {
        match error {
            WordRefusal::NoClass(number) => Stop::Refused(Why::NoClass(number)),
            WordRefusal::Memory => Stop::Memory,
        }
    }
}

/// Why the complex is not closed is why the question is refused.
impl From<ClosedRefusal> for Stop {
    ghost use Rattle.std.specs.Prelude.{◌≡◌, option_map};
    ghost use Rattle.transcript.specs.Refusals.{not_closed};
    ghost use Rattle.manifold_links.specs.Refusals.{closed_said};
    ghost use Rattle.answers.specs.Answers.{stop_said};

    ghost from_gives = { λ r e. stop_said e ≡ option_map not_closed (closed_said r) };

    fn from(error: ClosedRefusal) -> Stop {
        match error {
            ClosedRefusal::Nothing => Stop::Refused(Why::Nothing),
            ClosedRefusal::NotPure(simplex) => Stop::Refused(Why::NotPure(simplex)),
            ClosedRefusal::Ridge { simplex, times } => Stop::Refused(Why::Ridge { simplex, times }),
            ClosedRefusal::Memory => Stop::Memory,
        }
    }
}

/// The link that is not that of a sphere is why the question is refused.
impl From<LinkRefusal> for Stop {
    ghost use Rattle.std.specs.Prelude.{◌≡◌, option_map};
    ghost use Rattle.transcript.specs.Refusals.{not_sphere};
    ghost use Rattle.manifold_links.specs.Refusals.{link_said};
    ghost use Rattle.answers.specs.Answers.{stop_said};

    ghost from_gives = { λ r e. stop_said e ≡ option_map not_sphere (link_said r) };

    fn from(error: LinkRefusal) -> Stop {
        match error {
            LinkRefusal::Link { simplex, betti } => Stop::Refused(Why::Link { simplex, betti }),
            LinkRefusal::Memory => Stop::Memory,
        }
    }
}

/// The refusal of a cochain whose coboundary is first 1 at the simplex with this id.
pub(crate) fn not_cocycle(complex: &Complex, id: u32) -> Stop
    requires { id < length complex.now }
    ensures { result ≡ Stop.Refused (Why.NotCocycle (simplex_at complex.now id)) }
{
    Stop::Refused(Why::NotCocycle(simplex_at(complex, id)))
}

/// The refusal of a cocycle, the first class of whose class word is born with the simplex with this id.
pub(crate) fn differs(complex: &Complex, id: u32) -> Stop
    requires { id < length complex.now }
    ensures { result ≡ Stop.Refused (Why.Differs (simplex_at complex.now id)) }
{
    Stop::Refused(Why::Differs(simplex_at(complex, id)))
}
