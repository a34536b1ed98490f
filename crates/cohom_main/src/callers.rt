//! The callers of a script.
ghost use Rattle.std.specs.Prelude.{◌≡◌, ◌<◌, length, IfOk, OnOk};
ghost use Rattle.lines.specs.Lines.{callers};
ghost use Rattle.facet_reader.specs.Meanings.{request_meant};
ghost use Rattle.reply_text.specs.Replies.{reply_of};
ghost use Rattle.transcript.specs.Steps.{after, reply, start, state_of};

use facet_reader::Request;
use memory::Memory;
use reply_text::Reply;
use session_core::Session;
use std::alloc::Global;
use std::slice;
use version_roots::{Board, LocalBoard};

/// The number of callers.
const CALLERS: u8 = 16;

/// The one line of a script, and the sessions of its callers. A contract sees the line and the states of the callers.
pub(crate) struct Callers {
    board: LocalBoard,
    sessions: Vec<Session>,
}

impl std::marker::Model for Callers {
    ghost use Rattle.transcript.specs.Steps.{State};
    ghost use Rattle.cohom_main.specs.Callers.{AreBeside, script_of};

    ghost Value = { State };

    ghost view = { λ c. script_of c.board c.sessions.items };

    ghost invariant = { λ c. AreBeside c.board c.sessions.items };
}

// Written out, so that whoever drops the callers has one call in its proof.
impl Drop for Callers {
    fn drop(self) {
        let Callers {
            board: _,
            sessions: _,
        } = self;
    }
}

impl Callers {
    /// The empty line, of which nobody has seen anything. `Err` is want of memory.
    pub(crate) fn new(alloc: Global) -> Result<Callers, Memory>
        ensures { IfOk result (λ c. c ≡ start) }
    {
        let mut sessions = Vec::with_capacity(alloc, usize::from(CALLERS))?;
        for _ in 0..CALLERS {
            sessions.push(Session::new(alloc, 0)?)?;
        }
        Ok(Callers {
            board: LocalBoard::new(alloc),
            sessions,
        })
    }

    /// The length of the line. At once.
    pub(crate) fn entries(&self) -> u32
        ensures { result ≡ length self.now.line }
    {
        self.board.seen()
    }

    /// Takes the step of a request of a caller. After want of memory they are not used again.
    pub(crate) fn step(&mut self, caller: u8, request: &Request) -> Result<Reply, Memory>
        requires { caller < callers }
        ensures reply { IfOk result (λ r. reply_of r ≡ reply self.old.line caller (state_of self.old caller) (request_meant request.now)) }
        ensures after { OnOk result (self.new ≡ after self.old caller (request_meant request.now)) }
    {
        self.board.turn(caller);
        let session = &mut self.sessions[usize::from(caller)];
        if let Request::Ask(question) = request {
            session.prepare(slice::from_ref(question));
        }
        session.step(&(), &mut self.board, request)
    }
}
