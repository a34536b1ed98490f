//! The answer to each question.
ghost use Rattle.std.specs.Prelude.{◌≡◌, IfOk};
ghost use Rattle.transcript.specs.Answers.{answer};
ghost use Rattle.facet_reader.specs.Meanings.{compute_meant};
ghost use Rattle.reply_text.specs.Answers.{answer_of};
ghost use Rattle.answers.specs.Answers.{Answers};

use crate::characteristic::{duality, sw, sw_number, wu};
use answers::{
    Stop, betti, bockstein, bound, boundary, cap, class, classes, closed, count, cup, cup_i, delta,
    kind, links, maps, same_bockstein, same_cup, same_square, show, show_chain, square,
};
use class_cache::Cached;
use facet_reader::Compute;
use memory::Memory;
use reply_text::{Answer, Shown};

/// The answer to a question on a version. `Err` is want of memory. The time of the call of the question, in `answers` or `wu_classes`.
pub fn answer(version: &Cached, question: &Compute) -> Result<Answer, Memory>
    ensures { IfOk result (λ a. answer_of a ≡ answer version.now (compute_meant question.now)) }
{
    match shown(version, question) {
        Ok(shown) => Ok(Answer::Done(shown)),
        Err(Stop::Refused(why)) => Ok(Answer::Refused(why)),
        Err(Stop::Memory) => Err(Memory),
    }
}

/// What a question on a version shows, or what stops it.
fn shown(version: &Cached, question: &Compute) -> Result<Shown, Stop>
    ensures { Answers (answer version.now (compute_meant question.now)) result }
{
    match question {
        Compute::Count => count(version.model()),
        Compute::Betti => betti(version.model()),
        Compute::KindOf(simplex) => kind(version.model(), simplex),
        Compute::ModelOf(simplex) => maps(version.model(), simplex),
        Compute::Classes(degree) => classes(version.model(), *degree),
        Compute::Show(word) => show(version, word),
        Compute::ShowChain(word) => show_chain(version, word),
        Compute::Delta(word) => delta(version, word),
        Compute::Boundary(word) => boundary(version, word),
        Compute::ClassOf(word) => class(version, word),
        Compute::Bound(word) => bound(version, word),
        Compute::Cup { a, b } => cup(version, a, b),
        Compute::CupI { i, a, b } => cup_i(version, *i, a, b),
        Compute::Square { k, a } => square(version, *k, a),
        Compute::Bockstein(word) => bockstein(version, word),
        Compute::SameCup { a, a2, b, b2 } => same_cup(version, a, a2, b, b2),
        Compute::SameSquare { k, a, a2 } => same_square(version, *k, a, a2),
        Compute::SameBockstein { a, a2 } => same_bockstein(version, a, a2),
        Compute::Cap { a, c } => cap(version, a, c),
        Compute::Closed => closed(version.model()),
        Compute::Links => links(version.model()),
        Compute::Duality => duality(version),
        Compute::Wu => wu(version),
        Compute::Sw => sw(version),
        Compute::SwNumber(parts) => sw_number(version, parts),
    }
}
