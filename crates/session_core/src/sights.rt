//! The steps that look at the line and change nothing of it.
ghost use Rattle.std.specs.Prelude.{◌≡◌, ◌<◌, length, IfOk, IfSome, IsOk, OnErr};
ghost use Rattle.language.specs.Language.{After, See};
ghost use Rattle.reply_text.specs.Replies.{reply_of};
ghost use Rattle.session_core.specs.Holdings.{Stands};
ghost use Rattle.session_core.specs.Steps.{Keeps, Took};

use crate::Session;
use memory::Memory;
use reply_text::Reply;
use version_roots::Board;

impl Session {
    /// Looks, and takes the last version seen into use.
    pub(crate) fn see<B: Board>(&mut self, board: &mut B) -> Result<Reply, Memory>
        requires { Stands self.old (B.sight board.old).line }
        ensures took { IfOk result (λ r. Took (B.sight board.old) self.old See (B.sight board.new) self.new (reply_of r)) }
        ensures unchanged { OnErr result (self.new ≡ self.old) }
        ensures still { OnErr result (Keeps (B.sight board.old) (B.sight board.new)) }
        ensures stands { Stands self.new (B.sight board.new).line }
    {
        let root = board.look()?.share()?;
        let (version, entries) = (root.version(), root.entries());
        self.bring(root);
        self.seen = entries;
        Ok(Reply::Seen { version, entries })
    }

    /// Looks, and takes the last version seen into use where as many entries are seen as are wanted.
    pub(crate) fn see_from<B: Board>(&mut self, board: &mut B, wanted: u32) -> Result<Reply, Memory>
        requires { Stands self.old (B.sight board.old).line }
        ensures took { IfOk result (λ r. Took (B.sight board.old) self.old (After wanted) (B.sight board.new) self.new (reply_of r)) }
        ensures unchanged { OnErr result (self.new ≡ self.old) }
        ensures still { OnErr result (Keeps (B.sight board.old) (B.sight board.new)) }
        ensures stands { Stands self.new (B.sight board.new).line }
        ensures early { IfSome (B.sight board.old).whole (λ W. length W < wanted → IsOk result) }
    {
        let seen = board.look()?;
        let (version, entries) = (seen.version(), seen.entries());
        if entries < wanted {
            self.seen = entries;
            return Ok(Reply::NotYet(entries));
        }
        let root = seen.share()?;
        self.bring(root);
        self.seen = entries;
        Ok(Reply::After { version, entries })
    }
}
