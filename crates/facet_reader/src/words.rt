//! The words of a line, taken from left to right.
ghost use Rattle.std.specs.Prelude.{◌≡◌, ℕ, ◌+◌, ◌-◌, ◌<◌, ◌≤◌, List, [], ◌∷◌, drop, length, IfSome, IfOk, MatchOption, MatchResult};
ghost use Rattle.std.specs.List.{prefix_len, position_or_len};
ghost use Rattle.language.specs.Words.{is_gap, words};
ghost use Rattle.language.specs.Grammar.{ended};
ghost use Rattle.facet_reader.specs.Meanings.{Refuses, refused};
ghost use Rattle.facet_reader.specs.Fronts.{front};

use crate::ReadRefusal;
use crate::refusal::WordRefusal;
use language::{Fault, FaultKind};
use std::marker::Model;

/// A word, and the place of its first byte in the line, from 1.
#[derive(Drop)]
pub(crate) struct Word<'a> {
    pub(crate) column: u32,
    pub(crate) bytes: &'a [u8],
}

impl Word<'_> {
    /// The refusal of this word.
    pub(crate) fn bad(&self, kind: FaultKind) -> ReadRefusal
        ensures { result ≡ ReadRefusal.Bad (record { column = self.now.column; kind = kind }) }
    {
        ReadRefusal::Bad(Fault {
            column: self.column,
            kind,
        })
    }

    /// The refusal of this word, or want of memory.
    pub(crate) fn refused(&self, refusal: WordRefusal) -> ReadRefusal
        ensures { result ≡ refused self.now.column refusal }
    {
        match refusal {
            WordRefusal::Bad(kind) => self.bad(kind),
            WordRefusal::Memory => ReadRefusal::Memory,
        }
    }
}

/// The words of a line that are left. A contract sees them with the whole line.
#[derive(Drop)]
pub(crate) struct Words<'a> {
    line: &'a [u8],
    at: usize,
}

impl<'a> Model for Words<'a> {
    ghost use Rattle.std.specs.Prelude.{ℕ, ◌+◌, ◌≤◌, drop, length};
    ghost use Rattle.language.specs.Words.{words_from};
    ghost use Rattle.language.specs.Grammar.{Left};

    ghost Value = { Left };

    ghost view = { λ w. record { line = w.line.now; words = words_from (w.at + 1) (drop w.at w.line.now) } };

    ghost invariant = { λ w. (w.at ≤ length w.line.now) × (length w.line.now ≤ 1048575) };
}

impl<'a> Words<'a> {
    /// The words of a line.
    pub(crate) fn of(line: &'a [u8]) -> Words<'a>
        requires { length line.now ≤ 1048575 }
        ensures line { result.line ≡ line.now }
        ensures words { result.words ≡ words line.now }
    {
        Words { line, at: 0 }
    }

    /// Takes the next word, if there is one.
    pub(crate) fn next_word(&mut self) -> Option<Word<'a>>
        ensures line { self.new.line ≡ self.old.line }
        ensures word { MatchOption result (self.old.words ≡ [])
            (λ w. self.old.words ≡ record { column = w.column; bytes = w.bytes.now } ∷ self.new.words) }
        ensures some { IfSome result (λ w. 0 < length w.bytes.now) }
        ensures place { IfSome result (λ w. (0 < w.column) × (w.column ≤ length self.old.line)) }
        ensures few { length self.old.words ≤ 1048575 }
    {
        let start = self.at + gaps(&self.line[self.at..]);
        let rest = &self.line[start..];
        let length = run_of_bytes(rest);
        self.at = start + length;
        if length == 0 {
            return None;
        }
        Some(Word {
            column: start as u32 + 1,
            bytes: &rest[..length],
        })
    }

    /// The first byte of the next word, if there is one.
    pub(crate) fn first_byte(&self) -> Option<u8>
        ensures { result ≡ front self.now.words }
    {
        let start = self.at + gaps(&self.line[self.at..]);
        if start < self.line.len() {
            Some(self.line[start])
        } else {
            None
        }
    }

    /// Takes a word, of which there is to be one.
    pub(crate) fn word(&mut self) -> Result<Word<'a>, ReadRefusal>
        ensures line { self.new.line ≡ self.old.line }
        ensures word { MatchResult result
            (λ w. self.old.words ≡ record { column = w.column; bytes = w.bytes.now } ∷ self.new.words)
            (λ e. (self.old.words ≡ [])
            × (e ≡ ReadRefusal.Bad (record { column = length self.old.line + 1; kind = FaultKind.Missing }))) }
        ensures some { IfOk result (λ w. 0 < length w.bytes.now) }
        ensures place { IfOk result (λ w. (0 < w.column) × (w.column ≤ length self.old.line)) }
    {
        match self.next_word() {
            Some(word) => Ok(word),
            None => Err(self.missing()),
        }
    }

    /// The line from the place of a word on.
    pub(crate) fn line_from(&self, column: u32) -> &'a [u8]
        requires first { 0 < column }
        requires within { column ≤ length self.now.line }
        ensures { result.now ≡ drop (column - 1) self.now.line }
    {
        &self.line[column as usize - 1..]
    }

    /// The refusal of a line that lacks a word.
    pub(crate) fn missing(&self) -> ReadRefusal
        ensures { result ≡ ReadRefusal.Bad (record { column = length self.now.line + 1; kind = FaultKind.Missing }) }
    {
        ReadRefusal::Bad(Fault {
            column: self.line.len() as u32 + 1,
            kind: FaultKind::Missing,
        })
    }

    /// Ends the line: no word is to be left.
    pub(crate) fn end(&mut self) -> Result<(), ReadRefusal>
        ensures { MatchResult result (λ _. self.old.words ≡ []) (λ e. Refuses (ended (tt {0}) self.old.words) e) }
    {
        match self.next_word() {
            Some(word) => Err(word.bad(FaultKind::Extra)),
            None => Ok(()),
        }
    }
}

/// How many blanks and tabs stand in front.
pub(crate) fn gaps(bytes: &[u8]) -> usize
    ensures place { result ≡ prefix_len is_gap bytes.now }
    ensures bound { result ≤ length bytes.now }
{
    bytes
        .iter()
        .position(|c| !is_gap(*c))
        .unwrap_or(bytes.len())
}

/// How many bytes stand before the first blank or tab.
pub(crate) fn run_of_bytes(bytes: &[u8]) -> usize
    ensures place { result ≡ position_or_len is_gap bytes.now }
    ensures bound { result ≤ length bytes.now }
{
    bytes.iter().position(|c| is_gap(*c)).unwrap_or(bytes.len())
}

pub(crate) fn is_gap(c: u8) -> bool
    ensures { result ≡ is_gap c }
{
    c == b' ' || c == b'\t'
}
