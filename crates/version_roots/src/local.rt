//! A board that callers use in turn.
ghost use Rattle.std.specs.Prelude.{◌≡◌, ◌<◌, [], length};
ghost use Rattle.lines.specs.Lines.{callers};

use crate::{
    BackReceipt, BackRefusal, Board, BoardRefusal, Book, CutReceipt, CutRefusal, Receipt, Root,
};
use memory::Memory;
use simplex_order::Simplex;
use std::alloc::Global;

/// A board of one book, which callers use in turn. Each look sees the whole line.
#[derive(Drop)]
pub struct LocalBoard {
    book: Book,
    caller: u8,
    shown: u32,
}

impl std::marker::Model for LocalBoard {
    ghost use Rattle.std.specs.Prelude.{◌<◌, ◌≤◌, length};
    ghost use Rattle.lines.specs.Lines.{callers};
    ghost use Rattle.version_roots.specs.Local.{Local, local_code};

    ghost Value = { Local };

    ghost coded = { local_code };

    ghost view = { λ b. record { caller = b.caller; shown = b.shown; whole = b.book } };

    ghost invariant = { λ b. (b.caller < callers) × (b.shown ≤ length b.book) };
}

impl LocalBoard {
    /// The empty line, at the turn of caller 0. It takes no memory.
    pub fn new(alloc: Global) -> LocalBoard
        ensures { result ≡ record { caller = 0; shown = 0; whole = [] } }
    {
        LocalBoard {
            book: Book::new(alloc),
            caller: 0,
            shown: 0,
        }
    }

    /// Makes it the turn of a caller.
    pub fn turn(&mut self, caller: u8)
        requires { caller < callers }
        ensures { self.new ≡ record self.old { caller = caller } }
    {
        self.caller = caller;
    }

    /// The whole line was shown.
    fn show(&mut self)
        ensures { self.new ≡ record self.old { shown = length self.old.whole } }
    {
        self.shown = self.book.root().entries();
    }
}

impl Board for LocalBoard {
    ghost use Rattle.version_roots.specs.Local.{sight_of};

    type Waiter = ();

    ghost sight = { sight_of };

    fn caller(&self) -> u8 {
        self.caller
    }

    fn seen(&self) -> u32 {
        // That the line is legal is what this call says.
        let _entries = self.book.root().entries();
        self.shown
    }

    fn look(&mut self) -> Result<&Root, Memory> {
        self.show();
        Ok(self.book.root())
    }

    fn attach(&mut self, _wait: &(), simplex: Simplex) -> Result<Receipt, BoardRefusal> {
        match self.book.attach(self.caller, simplex) {
            Ok(receipt) => {
                self.show();
                Ok(receipt)
            }
            Err(refusal) => {
                if refusal.is_memory() {
                    return Err(refusal);
                }
                self.show();
                Err(refusal)
            }
        }
    }

    fn facet(&mut self, _wait: &(), facets: &[Simplex]) -> Result<Receipt, BoardRefusal> {
        match self.book.facet(self.caller, facets) {
            Ok(receipt) => {
                self.show();
                Ok(receipt)
            }
            Err(refusal) => {
                if refusal.is_memory() {
                    return Err(refusal);
                }
                self.show();
                Err(refusal)
            }
        }
    }

    fn cut(&mut self, _wait: &()) -> Result<CutReceipt, CutRefusal> {
        match self.book.cut(self.caller) {
            Ok(receipt) => {
                self.show();
                Ok(receipt)
            }
            Err(refusal) => {
                if refusal.is_memory() {
                    return Err(refusal);
                }
                self.show();
                Err(refusal)
            }
        }
    }

    fn back(&mut self, _wait: &(), version: u32) -> Result<BackReceipt, BackRefusal> {
        match self.book.back(self.caller, version) {
            Ok(receipt) => {
                self.show();
                Ok(receipt)
            }
            Err(refusal) => {
                if refusal.is_memory() {
                    return Err(refusal);
                }
                self.show();
                Err(refusal)
            }
        }
    }
}
