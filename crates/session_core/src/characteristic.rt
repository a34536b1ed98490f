//! Questions about pairings and characteristic classes of closed complexes.
ghost use Rattle.std.specs.Prelude.{◌≡◌, option_map};
ghost use Rattle.language.specs.Language.{Duality, Wu, Sw, SwNumber};
ghost use Rattle.transcript.specs.Refusals.{not_dual, no_number};
ghost use Rattle.transcript.specs.Answers.{answer};
ghost use Rattle.wu_classes.specs.Refusals.{wu_said, number_said};
ghost use Rattle.answers.specs.Answers.{Answers, stop_said};

use answers::Stop;
use class_cache::Cached;
use facet_reader::Parts;
use reply_text::{Shown, Why};
use wu_classes::{
    NumberRefusal, WuRefusal, duality as duality_of, sw as sw_of, sw_number as sw_number_of,
    wu as wu_of,
};

/// The pairings of the classes.
pub(crate) fn duality(version: &Cached) -> Result<Shown, Stop>
    ensures { Answers (answer version.now Duality) result }
{
    match duality_of(version) {
        Ok(pairing) => Ok(Shown::Rows(pairing.rows)),
        Err(refusal) => Err(not_dual(refusal)),
    }
}

/// The Wu classes.
pub(crate) fn wu(version: &Cached) -> Result<Shown, Stop>
    ensures { Answers (answer version.now Wu) result }
{
    match wu_of(version) {
        Ok(words) => Ok(Shown::Words(words)),
        Err(refusal) => Err(not_dual(refusal)),
    }
}

/// The Stiefel-Whitney classes.
pub(crate) fn sw(version: &Cached) -> Result<Shown, Stop>
    ensures { Answers (answer version.now Sw) result }
{
    match sw_of(version) {
        Ok(words) => Ok(Shown::Words(words)),
        Err(refusal) => Err(not_dual(refusal)),
    }
}

/// The Stiefel-Whitney number of these degrees.
pub(crate) fn sw_number(version: &Cached, parts: &Parts) -> Result<Shown, Stop>
    ensures { Answers (answer version.now (SwNumber parts.now)) result }
{
    match sw_number_of(version, parts.items()) {
        Ok(value) => Ok(Shown::Bit(value)),
        Err(refusal) => Err(no_number(refusal)),
    }
}

/// Why there are no pairings without degenerate classes is why the question is refused.
#[tactic(auto, using(crate::proofs::Settling::map_twice))]
fn not_dual(refusal: WuRefusal) -> Stop
    ensures { stop_said result ≡ option_map not_dual (wu_said refusal) }
{
    match refusal {
        WuRefusal::Closed(refusal) => Stop::from(refusal),
        WuRefusal::Degenerate(class) => Stop::Refused(Why::Degenerate(class)),
    }
}

/// Why there is no Stiefel-Whitney number is why the question is refused.
#[tactic(auto, using(crate::proofs::Settling::map_twice))]
fn no_number(refusal: NumberRefusal) -> Stop
    ensures { stop_said result ≡ option_map no_number (number_said refusal) }
{
    match refusal {
        NumberRefusal::Wu(refusal) => not_dual(refusal),
        NumberRefusal::Sum { sum, dim } => Stop::Refused(Why::Sum { sum, dim }),
    }
}
