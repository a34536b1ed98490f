//! The steps that change the line.
ghost use Rattle.std.specs.Prelude.{◌≡◌, IfOk, OnErr};
ghost use Rattle.language.specs.Language.{Attach, Back, Cut, Facet};
ghost use Rattle.reply_text.specs.Replies.{reply_of};
ghost use Rattle.version_roots.specs.Judged.{back_refusal_of, cut_refusal_of, refusal_of};
ghost use Rattle.session_core.specs.Holdings.{Stands};
ghost use Rattle.session_core.specs.Steps.{Keeps, Tells, Took};

use crate::Session;
use memory::Memory;
use reply_text::Reply;
use simplex_order::Simplex;
use version_roots::{BackRefusal, Board, BoardRefusal, CutRefusal};

impl Session {
    /// Attaches a simplex to the line.
    pub(crate) fn attach<B: Board>(
        &mut self,
        wait: &B::Waiter,
        board: &mut B,
        simplex: Simplex,
    ) -> Result<Reply, Memory>
        requires { Stands self.old (B.sight board.old).line }
        ensures took { IfOk result (λ r. Took (B.sight board.old) self.old (Attach simplex) (B.sight board.new) self.new (reply_of r)) }
        ensures unchanged { OnErr result (self.new ≡ self.old) }
        ensures still { OnErr result (Keeps (B.sight board.old) (B.sight board.new)) }
        ensures stands { Stands self.new (B.sight board.new).line }
    {
        match board.attach(wait, simplex) {
            Ok(receipt) => {
                self.seen = receipt.entries;
                Ok(Reply::Attached {
                    id: receipt.id,
                    entries: receipt.entries,
                })
            }
            Err(refusal) => {
                let reply = refused(refusal)?;
                self.seen = board.seen();
                Ok(reply)
            }
        }
    }

    /// Attaches what facets add to the line. No facets add nothing.
    pub(crate) fn facet<B: Board>(
        &mut self,
        wait: &B::Waiter,
        board: &mut B,
        facets: &[Simplex],
    ) -> Result<Reply, Memory>
        requires { Stands self.old (B.sight board.old).line }
        ensures took { IfOk result (λ r. Took (B.sight board.old) self.old (Facet facets.now) (B.sight board.new) self.new (reply_of r)) }
        ensures unchanged { OnErr result (self.new ≡ self.old) }
        ensures still { OnErr result (Keeps (B.sight board.old) (B.sight board.new)) }
        ensures stands { Stands self.new (B.sight board.new).line }
    {
        if facets.is_empty() {
            let entries = board.look()?.entries();
            self.seen = entries;
            return Ok(Reply::Faceted { added: 0, entries });
        }
        match board.facet(wait, facets) {
            Ok(receipt) => {
                self.seen = receipt.entries;
                Ok(Reply::Faceted {
                    added: receipt.added,
                    entries: receipt.entries,
                })
            }
            Err(refusal) => {
                let reply = refused(refusal)?;
                self.seen = board.seen();
                Ok(reply)
            }
        }
    }

    /// Makes the line's simplices a version, and takes it into use.
    pub(crate) fn cut<B: Board>(&mut self, wait: &B::Waiter, board: &mut B) -> Result<Reply, Memory>
        requires { Stands self.old (B.sight board.old).line }
        ensures took { IfOk result (λ r. Took (B.sight board.old) self.old Cut (B.sight board.new) self.new (reply_of r)) }
        ensures unchanged { OnErr result (self.new ≡ self.old) }
        ensures still { OnErr result (Keeps (B.sight board.old) (B.sight board.new)) }
        ensures stands { Stands self.new (B.sight board.new).line }
    {
        match board.cut(wait) {
            Ok(receipt) => {
                let (version, entries) = (receipt.version, receipt.entries);
                self.bring(receipt.root);
                self.seen = entries;
                Ok(Reply::WasCut { version, entries })
            }
            Err(refusal) => {
                let reply = cut_refused(refusal)?;
                self.seen = board.seen();
                Ok(reply)
            }
        }
    }

    /// Makes the line's simplices those of a version again. The version in use stays.
    pub(crate) fn back<B: Board>(
        &mut self,
        wait: &B::Waiter,
        board: &mut B,
        version: u32,
    ) -> Result<Reply, Memory>
        requires { Stands self.old (B.sight board.old).line }
        ensures took { IfOk result (λ r. Took (B.sight board.old) self.old (Back version) (B.sight board.new) self.new (reply_of r)) }
        ensures unchanged { OnErr result (self.new ≡ self.old) }
        ensures still { OnErr result (Keeps (B.sight board.old) (B.sight board.new)) }
        ensures stands { Stands self.new (B.sight board.new).line }
    {
        match board.back(wait, version) {
            Ok(receipt) => {
                self.seen = receipt.entries;
                Ok(Reply::WentBack {
                    version: receipt.version,
                    entries: receipt.entries,
                })
            }
            Err(refusal) => {
                let reply = back_refused(refusal)?;
                self.seen = board.seen();
                Ok(reply)
            }
        }
    }
}

/// The reply to simplices that did not come in.
fn refused(refusal: BoardRefusal) -> Result<Reply, Memory>
    ensures { Tells (refusal_of refusal) result }
{
    match refusal {
        BoardRefusal::There(id) => Ok(Reply::There(id)),
        BoardRefusal::Face(face) => Ok(Reply::Face(face)),
        BoardRefusal::Full(count) => Ok(Reply::Full(count)),
        BoardRefusal::Memory => Err(Memory),
    }
}

/// The reply to a cut that did not come in.
fn cut_refused(refusal: CutRefusal) -> Result<Reply, Memory>
    ensures { Tells (cut_refusal_of refusal) result }
{
    match refusal {
        CutRefusal::Full(count) => Ok(Reply::Full(count)),
        CutRefusal::Memory => Err(Memory),
    }
}

/// The reply to a return that did not come in.
fn back_refused(refusal: BackRefusal) -> Result<Reply, Memory>
    ensures { Tells (back_refusal_of refusal) result }
{
    match refusal {
        BackRefusal::NoVersion(count) => Ok(Reply::NoVersion(count)),
        BackRefusal::Full(count) => Ok(Reply::Full(count)),
        BackRefusal::Memory => Err(Memory),
    }
}
