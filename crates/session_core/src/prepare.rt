//! What is kept for questions.
ghost use Rattle.std.specs.Prelude.{◌≡◌, ◌≤◌, true};
ghost use Rattle.class_cache.specs.Grown.{IsGrown};

use at_model::Model;
use class_cache::Cache;
use class_keeping::{grow, keep_classes, keep_result, keep_word};
use facet_reader::{CochainWord, Compute};

/// Brings a cache to a complex, and keeps what the answers to these questions on it take.
pub(crate) fn prepare(m: &Model, cache: &mut Cache, asks: &[Compute])
    requires { IsGrown cache.old m.now }
    ensures { cache.new ≡ m.now }
{
    grow(cache, m);
    for question in asks {
        keep(m, cache, question);
    }
}

/// Whether one model's complex begins with all of another's. One comparison a simplex.
pub(crate) fn begins(front: &Model, m: &Model) -> bool
    ensures { result ≡ true → IsGrown front.now m.now }
{
    if front.len() > m.len() {
        return false;
    }
    for id in 0..front.len() {
        if front.complex().vertices(id) != m.complex().vertices(id) {
            return false;
        }
    }
    true
}

/// Whether a question takes nothing that is kept.
pub(crate) fn is_plain(question: &Compute) -> bool {
    matches!(
        question,
        Compute::Count
            | Compute::Betti
            | Compute::KindOf(_)
            | Compute::ModelOf(_)
            | Compute::Classes(_)
            | Compute::Closed
            | Compute::Links
    )
}

/// Keeps the canonical cocycles that a question names, and what the class word of its result takes, so that the next question on them finds
/// them. Where there is no memory for them the question is answered without.
fn keep(m: &Model, cache: &mut Cache, question: &Compute)
    requires { cache.old ≡ m.now }
    ensures { cache.new ≡ cache.old }
{
    match question {
        Compute::Show(a) | Compute::Delta(a) | Compute::Bound(a) | Compute::Cap { a, .. } => {
            named(m, cache, a)
        }
        Compute::Square { k, a } => {
            named(m, cache, a);
            result(m, cache, degree(a) + k.get());
        }
        Compute::Bockstein(a) => {
            named(m, cache, a);
            result(m, cache, degree(a) + 1);
        }
        Compute::ClassOf(a) => asked(m, cache, a),
        Compute::Cup { a, b } => {
            both(m, cache, a, b);
            result(m, cache, degree(a) + degree(b));
        }
        Compute::CupI { a, b, .. } => both(m, cache, a, b),
        Compute::SameCup { a, a2, b, b2 } => {
            both(m, cache, a, a2);
            both(m, cache, b, b2);
        }
        Compute::SameSquare { a, a2, .. } | Compute::SameBockstein { a, a2 } => {
            both(m, cache, a, a2)
        }
        Compute::Duality | Compute::Wu | Compute::Sw | Compute::SwNumber(_) => {
            let _memory = keep_classes(cache, m);
        }
        Compute::Count
        | Compute::Betti
        | Compute::KindOf(_)
        | Compute::ModelOf(_)
        | Compute::Classes(_)
        | Compute::ShowChain(_)
        | Compute::Boundary(_)
        | Compute::Closed
        | Compute::Links => {}
    }
}

/// The degree of a word.
fn degree(word: &CochainWord) -> u8
    ensures { result ≤ 99 }
{
    match word {
        CochainWord::Literal { degree, .. } => degree.get(),
        CochainWord::Classes { degree, .. } => degree.get(),
    }
}

/// Keeps what the class word of a result of this degree takes.
fn result(m: &Model, cache: &mut Cache, degree: u8)
    requires { cache.old ≡ m.now }
    ensures { cache.new ≡ cache.old }
{
    let _memory = keep_result(cache, m, degree);
}

/// Keeps what two words name.
fn both(m: &Model, cache: &mut Cache, first: &CochainWord, second: &CochainWord)
    requires { cache.old ≡ m.now }
    ensures { cache.new ≡ cache.old }
{
    named(m, cache, first);
    named(m, cache, second);
}

/// Keeps the canonical cocycles of the classes that a word names.
fn named(m: &Model, cache: &mut Cache, word: &CochainWord)
    requires { cache.old ≡ m.now }
    ensures { cache.new ≡ cache.old }
{
    if let CochainWord::Classes { degree, numbers } = word {
        let _memory = class_keeping::keep(cache, m, degree.get(), numbers.items());
    }
}

/// The same, and of a word that lists simplices what its class word takes.
fn asked(m: &Model, cache: &mut Cache, word: &CochainWord)
    requires { cache.old ≡ m.now }
    ensures { cache.new ≡ cache.old }
{
    match word {
        CochainWord::Literal { degree, .. } => {
            let _memory = keep_word(cache, m, degree.get());
        }
        CochainWord::Classes { .. } => named(m, cache, word),
    }
}
