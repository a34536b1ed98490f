//! The lines of replies.
ghost use Rattle.std.specs.Prelude.{◌≡◌, ◌++◌, OnOk, OnErr, codes, decimal};
ghost use Rattle.language.specs.Faults.{kind_text};
ghost use Rattle.transcript.specs.Replies.{text, words};
ghost use Rattle.transcript.specs.Values.{simplex_text};
ghost use Rattle.reply_text.specs.Kept.{BeginsWith};
ghost use Rattle.reply_text.specs.Replies.{reply_of};

use crate::Reply;
use crate::answer_text::computed_words;
use crate::number_text::number;
use crate::simplex_text::simplex;
use facet_reader::Name;
use language::Fault;
use memory::Memory;
use simplex_order::Simplex;

/// The most names that a caller holds.
const MOST_NAMES: u32 = 64;

/// Appends the line of a reply, where it says something. One step a byte.
///
/// `Err` is want of memory: what was there still stands at the front, and a part of the line may follow it, so that a caller can cut back to it.
pub fn reply_bytes(out: &mut Vec<u8>, reply: &Reply) -> Result<(), Memory>
    ensures text { OnOk result (out.new.items ≡ out.old.items ++ text (reply_of reply.now)) }
    ensures kept { OnErr result (BeginsWith out.new.items out.old.items) }
{
    let before = out.len();
    reply_words(out, reply)?;
    if out.len() == before {
        return Ok(());
    }
    out.push(b'\n')?;
    Ok(())
}

/// Appends what a reply says.
fn reply_words(out: &mut Vec<u8>, reply: &Reply) -> Result<(), Memory>
    ensures text { OnOk result (out.new.items ≡ out.old.items ++ words (reply_of reply.now)) }
    ensures kept { OnErr result (BeginsWith out.new.items out.old.items) }
{
    match reply {
        Reply::Silent => Ok(()),
        Reply::Bad(fault) => bad_words(out, fault),
        Reply::Later => out.extend_from_slice(b"no later"),
        Reply::Attached { id, entries } => two_numbers(out, b"ok attach ", *id, *entries),
        Reply::Faceted { added, entries } => two_numbers(out, b"ok facet ", *added, *entries),
        Reply::WasCut { version, entries } => two_numbers(out, b"ok cut ", *version, *entries),
        Reply::WentBack { version, entries } => two_numbers(out, b"ok back ", *version, *entries),
        Reply::Seen { version, entries } => two_numbers(out, b"ok see ", *version, *entries),
        Reply::After { version, entries } => two_numbers(out, b"ok after ", *version, *entries),
        Reply::NotYet(entries) => one_number(out, b"no notyet ", *entries),
        Reply::Held { name, version } => named_version(out, b"ok hold ", name, *version),
        Reply::Taken { name, version } => named_version(out, b"ok use ", name, *version),
        Reply::Released(name) => named(out, b"ok drop ", name),
        Reply::HeldAlready(name) => named(out, b"no held ", name),
        Reply::HoldsFull => one_number(out, b"no holdsfull ", MOST_NAMES),
        Reply::NoName(name) => named(out, b"no noname ", name),
        Reply::Computed {
            version,
            verb,
            answer,
        } => computed_words(out, *version, *verb, answer),
        Reply::There(id) => one_number(out, b"no there ", *id),
        Reply::Face(face) => face_words(out, face),
        Reply::Full(count) => one_number(out, b"no full ", *count),
        Reply::NoVersion(count) => one_number(out, b"no noversion ", *count),
        Reply::Quit => out.extend_from_slice(b"ok quit"),
    }
}

/// Appends what is wrong with a line, and where.
fn bad_words(out: &mut Vec<u8>, bad: &Fault) -> Result<(), Memory>
    ensures text { OnOk result
        (out.new.items ≡ out.old.items ++ (codes "bad " ++ decimal bad.now.column ++ codes " " ++ kind_text bad.now.kind)) }
    ensures kept { OnErr result (BeginsWith out.new.items out.old.items) }
{
    one_number(out, b"bad ", bad.column)?;
    out.extend_from_slice(b" ")?;
    out.extend_from_slice(bad.kind.word())
}

/// Appends some words and a number.
fn one_number(out: &mut Vec<u8>, words: &[u8], n: u32) -> Result<(), Memory>
    ensures text { OnOk result (out.new.items ≡ out.old.items ++ (words.now ++ decimal n)) }
    ensures kept { OnErr result (BeginsWith out.new.items out.old.items) }
{
    out.extend_from_slice(words)?;
    number(out, n)
}

/// Appends some words and two numbers, with a blank between them.
fn two_numbers(out: &mut Vec<u8>, words: &[u8], first: u32, second: u32) -> Result<(), Memory>
    ensures text { OnOk result
        (out.new.items ≡ out.old.items ++ (words.now ++ decimal first ++ codes " " ++ decimal second)) }
    ensures kept { OnErr result (BeginsWith out.new.items out.old.items) }
{
    one_number(out, words, first)?;
    one_number(out, b" ", second)
}

/// Appends some words and a name.
fn named(out: &mut Vec<u8>, words: &[u8], name: &Name) -> Result<(), Memory>
    ensures text { OnOk result (out.new.items ≡ out.old.items ++ (words.now ++ name.now)) }
    ensures kept { OnErr result (BeginsWith out.new.items out.old.items) }
{
    out.extend_from_slice(words)?;
    out.extend_from_slice(name.bytes())
}

/// Appends some words, a name and a version.
fn named_version(out: &mut Vec<u8>, words: &[u8], name: &Name, version: u32) -> Result<(), Memory>
    ensures text { OnOk result
        (out.new.items ≡ out.old.items ++ (words.now ++ name.now ++ codes " " ++ decimal version)) }
    ensures kept { OnErr result (BeginsWith out.new.items out.old.items) }
{
    named(out, words, name)?;
    one_number(out, b" ", version)
}

/// Appends the words of a missing face.
fn face_words(out: &mut Vec<u8>, face: &Simplex) -> Result<(), Memory>
    ensures text { OnOk result (out.new.items ≡ out.old.items ++ (codes "no face " ++ simplex_text face.now)) }
    ensures kept { OnErr result (BeginsWith out.new.items out.old.items) }
{
    out.extend_from_slice(b"no face ")?;
    simplex(out, face)
}
