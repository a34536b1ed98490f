//! Words of which there may be any number.
ghost use Rattle.std.specs.Prelude.{◌≡◌, ℕ, ◌<◌, ◌≤◌, List, true, length, IfOk, MatchResult};
ghost use Rattle.std.specs.List.{All};
ghost use Rattle.language.specs.Arguments.{vertex_word, number_word, is_distinct};
ghost use Rattle.language.specs.Language.{Facet};
ghost use Rattle.language.specs.Grammar.{alone, facet, many};
ghost use Rattle.facet_reader.specs.Meanings.{Refuses};

use crate::run::number;
use crate::small_word::vertex;
use crate::words::Words;
use crate::{Parts, ReadRefusal, Simplices};
use arrayvec::ArrayVec;
use simplex_order::{MOST_VERTICES, Simplex};
use std::alloc::Global;

impl Words<'_> {
    /// Takes all the words that are left, each a vertex, and gives the list of the one simplex of these vertices, which
    /// come in any order.
    pub(crate) fn facet(&mut self, alloc: Global) -> Result<Simplices, ReadRefusal>
        ensures { MatchResult result (λ s. facet self.old ≡ Ok (Facet s)) (λ e. Refuses (facet self.old) e) }
    {
        let vertices = self.vertices()?;
        let Ok(simplex) = Simplex::from_vertices(vertices.as_slice()) else {
            unreachable!()
        };
        let mut facets = Vec::new(alloc);
        let Ok(()) = facets.push(simplex) else {
            return Err(ReadRefusal::Memory)
        };
        Ok(Simplices::new(facets))
    }

    /// Takes all the words that are left: 1 to `MOST_VERTICES` numbers of vertices, no two alike.
    fn vertices(&mut self) -> Result<ArrayVec<u32, MOST_VERTICES>, ReadRefusal>
        ensures value { MatchResult result (λ vs. alone (many vertex_word) self.old ≡ Ok vs.items)
            (λ e. Refuses (alone (many vertex_word) self.old) e) }
        ensures some { IfOk result (λ vs. 0 < length vs.items) }
        ensures narrow { IfOk result (λ vs. length vs.items ≤ MOST_VERTICES) }
        ensures distinct { IfOk result (λ vs. is_distinct vs.items ≡ true) }
    {
        let mut vertices = ArrayVec::new();
        while let Some(word) = self.next_word() {
            match vertex(word.bytes, vertices.as_slice()) {
                Ok(vertex) => vertices.push(vertex),
                Err(kind) => return Err(word.bad(kind)),
            }
        }
        if vertices.is_empty() {
            return Err(self.missing());
        }
        Ok(vertices)
    }

    /// Takes all the words that are left, each the degree of a class.
    pub(crate) fn alone_parts(&mut self, alloc: Global) -> Result<Parts, ReadRefusal>
        ensures { MatchResult result (λ p. alone (many (λ _. number_word 1 99)) self.old ≡ Ok p)
            (λ e. Refuses (alone (many (λ _. number_word 1 99)) self.old) e) }
    {
        let parts = self.parts(alloc)?;
        Ok(Parts::new(parts))
    }

    /// Takes all the words that are left: one or more degrees of classes, from 1 to 99.
    fn parts(&mut self, alloc: Global) -> Result<Vec<u8>, ReadRefusal>
        ensures value { MatchResult result (λ ps. alone (many (λ _. number_word 1 99)) self.old ≡ Ok ps.items)
            (λ e. Refuses (alone (many (λ _. number_word 1 99)) self.old) e) }
        ensures some { IfOk result (λ ps. 0 < length ps.items) }
        ensures few { IfOk result (λ ps. length ps.items ≤ 1048575) }
        ensures degrees { IfOk result (λ ps. All (λ k. (0 < k) × (k ≤ 99)) ps.items) }
    {
        let mut parts = Vec::new(alloc);
        while let Some(word) = self.next_word() {
            match number(word.bytes, 1, 99) {
                Ok(part) => {
                    let Ok(()) = parts.push(part as u8) else {
                        return Err(ReadRefusal::Memory)
                    };
                }
                Err(kind) => return Err(word.bad(kind)),
            }
        }
        if parts.is_empty() {
            return Err(self.missing());
        }
        Ok(parts)
    }
}
