//! The texts of answers.
ghost use Rattle.std.specs.Prelude.{◌≡◌, ◌++◌, OnOk, OnErr};
ghost use Rattle.transcript.specs.Values.{simplex_text, class_text, words_text};
ghost use Rattle.transcript.specs.Refusals.{Ridge, Link, Sum, why_text};
ghost use Rattle.transcript.specs.Answers.{Kind, Maps, shown_text};
ghost use Rattle.transcript.specs.Replies.{computed_text};
ghost use Rattle.reply_text.specs.Answers.{answer_of, shown_of, why_of, words_of};
ghost use Rattle.reply_text.specs.Kept.{BeginsWith};

use crate::class_text::class;
use crate::number_text::{number, numbers};
use crate::pairing_text::{bit, pairings};
use crate::simplex_text::{chain, cochain, essential, simplex};
use crate::{Answer, Shown, Why};
use class_solver::ClassWord;
use language::Verb;
use memory::Memory;
use simplex_order::Simplex;

/// Appends the words of an answer on a version.
pub(crate) fn computed_words(
    out: &mut Vec<u8>,
    version: u32,
    verb: Verb,
    answer: &Answer,
) -> Result<(), Memory>
    ensures text { OnOk result (out.new.items ≡ out.old.items ++ computed_text version verb (answer_of answer.now)) }
    ensures kept { OnErr result (BeginsWith out.new.items out.old.items) }
{
    match answer {
        Answer::Done(shown) => {
            out.extend_from_slice(b"ok v")?;
            number(out, version)?;
            out.extend_from_slice(b" ")?;
            out.extend_from_slice(verb.word())?;
            shown_words(out, shown)
        }
        Answer::Refused(why) => {
            out.extend_from_slice(b"no v")?;
            number(out, version)?;
            out.extend_from_slice(b" ")?;
            why_words(out, why)
        }
    }
}

/// Appends what is shown.
fn shown_words(out: &mut Vec<u8>, shown: &Shown) -> Result<(), Memory>
    ensures text { OnOk result (out.new.items ≡ out.old.items ++ shown_text (shown_of shown.now)) }
    ensures kept { OnErr result (BeginsWith out.new.items out.old.items) }
{
    match shown {
        Shown::Numbers(ns) => numbers(out, ns.as_slice()),
        Shown::Kind { simplex, essential } => kind_words(out, simplex, *essential),
        Shown::Maps { simplex, f, phi } => maps_words(out, simplex, f.as_slice(), phi.as_slice()),
        Shown::Essential { degree, simplices } => essential(out, *degree, simplices.as_slice()),
        Shown::Cochain { degree, simplices } => {
            out.extend_from_slice(b" ")?;
            cochain(out, *degree, simplices.as_slice())
        }
        Shown::Chain { degree, simplices } => {
            out.extend_from_slice(b" ")?;
            chain(out, *degree, simplices.as_slice())
        }
        Shown::Class(word) => class_word(out, b" ", word),
        Shown::Words(words) => class_words(out, words.as_slice()),
        Shown::Rows(rows) => pairings(out, rows.as_slice()),
        Shown::Bit(value) => {
            out.extend_from_slice(b" ")?;
            bit(out, *value)
        }
        Shown::Passed => Ok(()),
    }
}

/// Appends each class after a blank.
fn class_words(out: &mut Vec<u8>, words: &[ClassWord]) -> Result<(), Memory>
    ensures text { OnOk result (out.new.items ≡ out.old.items ++ words_text (words_of words.now)) }
    ensures kept { OnErr result (BeginsWith out.new.items out.old.items) }
{
    for word in words {
        class_word(out, b" ", word)?;
    }
    Ok(())
}

/// Appends some words and a class.
fn class_word(out: &mut Vec<u8>, words: &[u8], word: &ClassWord) -> Result<(), Memory>
    ensures text { OnOk result
        (out.new.items ≡ out.old.items ++ (words.now ++ class_text word.now.degree word.now.numbers.items)) }
    ensures kept { OnErr result (BeginsWith out.new.items out.old.items) }
{
    out.extend_from_slice(words)?;
    class(out, word.degree, word.numbers.as_slice())
}

/// Appends a simplex, and whether it is essential.
fn kind_words(out: &mut Vec<u8>, s: &Simplex, essential: bool) -> Result<(), Memory>
    ensures text { OnOk result (out.new.items ≡ out.old.items ++ shown_text (Kind s.now essential)) }
    ensures kept { OnErr result (BeginsWith out.new.items out.old.items) }
{
    named_simplex(out, b" ", s)?;
    if essential {
        out.extend_from_slice(b" essential")
    } else {
        out.extend_from_slice(b" other")
    }
}

/// Appends a simplex, and its f and phi as chains.
fn maps_words(out: &mut Vec<u8>, s: &Simplex, f: &[Simplex], phi: &[Simplex]) -> Result<(), Memory>
    ensures text { OnOk result (out.new.items ≡ out.old.items ++ shown_text (Maps s.now f.now phi.now)) }
    ensures kept { OnErr result (BeginsWith out.new.items out.old.items) }
{
    named_simplex(out, b" ", s)?;
    out.extend_from_slice(b" ")?;
    chain(out, s.dim(), f)?;
    out.extend_from_slice(b" ")?;
    chain(out, s.dim() + 1, phi)
}

/// Appends why nothing is shown.
fn why_words(out: &mut Vec<u8>, why: &Why) -> Result<(), Memory>
    ensures text { OnOk result (out.new.items ≡ out.old.items ++ why_text (why_of why.now)) }
    ensures kept { OnErr result (BeginsWith out.new.items out.old.items) }
{
    match why {
        Why::NotThere(s) => named_simplex(out, b"notthere ", s),
        Why::Degree(s) => named_simplex(out, b"degree ", s),
        Why::NoClass(k) => {
            out.extend_from_slice(b"noclass ")?;
            number(out, *k)
        }
        Why::NotCocycle(s) => named_simplex(out, b"notcocycle ", s),
        Why::Differs(s) => named_simplex(out, b"differs ", s),
        Why::Degrees { first, second } => {
            out.extend_from_slice(b"degrees")?;
            numbers(out, &[u32::from(*first), u32::from(*second)])
        }
        Why::Nothing => out.extend_from_slice(b"nothing"),
        Why::NotPure(s) => named_simplex(out, b"notpure ", s),
        Why::Ridge { simplex, times } => ridge_words(out, simplex, *times),
        Why::Link { simplex, betti } => link_words(out, simplex, betti.as_slice()),
        Why::Degenerate(word) => class_word(out, b"degenerate ", word),
        Why::Sum { sum, dim } => sum_words(out, *sum, *dim),
    }
}

/// Appends a simplex and the Betti numbers of its link.
fn link_words(out: &mut Vec<u8>, s: &Simplex, betti: &[u32]) -> Result<(), Memory>
    ensures text { OnOk result (out.new.items ≡ out.old.items ++ why_text (Link s.now betti.now)) }
    ensures kept { OnErr result (BeginsWith out.new.items out.old.items) }
{
    named_simplex(out, b"link ", s)?;
    numbers(out, betti)
}

/// Appends a sum and the dimension.
fn sum_words(out: &mut Vec<u8>, sum: u32, dim: u8) -> Result<(), Memory>
    ensures text { OnOk result (out.new.items ≡ out.old.items ++ why_text (Sum sum dim)) }
    ensures kept { OnErr result (BeginsWith out.new.items out.old.items) }
{
    out.extend_from_slice(b"sum")?;
    numbers(out, &[sum, u32::from(dim)])
}

/// Appends a simplex that lies in so many.
fn ridge_words(out: &mut Vec<u8>, s: &Simplex, times: u32) -> Result<(), Memory>
    ensures text { OnOk result (out.new.items ≡ out.old.items ++ why_text (Ridge s.now times)) }
    ensures kept { OnErr result (BeginsWith out.new.items out.old.items) }
{
    named_simplex(out, b"ridge ", s)?;
    out.extend_from_slice(b" ")?;
    number(out, times)
}

/// Appends some words and a simplex.
fn named_simplex(out: &mut Vec<u8>, words: &[u8], s: &Simplex) -> Result<(), Memory>
    ensures text { OnOk result (out.new.items ≡ out.old.items ++ (words.now ++ simplex_text s.now)) }
    ensures kept { OnErr result (BeginsWith out.new.items out.old.items) }
{
    out.extend_from_slice(words)?;
    simplex(out, s)
}
