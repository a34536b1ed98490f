//! A script, from its bytes to its transcript.
ghost use Rattle.std.specs.Prelude.{◌≡◌, ◌≢◌, ◌≤◌, ◌<◌, ◌++◌, [], None, length, IfSome, IfOk, IfErr, OnOk};
ghost use Rattle.std.specs.Io.KnownBytes.{Appends};
ghost use Rattle.lines.specs.Callers.{looks};
ghost use Rattle.cohom_edge.specs.Faults.{Rose, Excuses};
ghost use Rattle.facet_reader.specs.Meanings.{request_meant};
ghost use Rattle.transcript.specs.Replies.{is_quit, text};
ghost use Rattle.transcript.specs.Steps.{start};
ghost use Rattle.transcript.specs.Transcripts.{after_line, looks_of_line, reply_to_line};
ghost use Rattle.cohom_main.specs.Ends.{Answers, Sent};
ghost use Rattle.reply_text.specs.Replies.{reply_of};

use crate::callers::Callers;
use crate::ends::{end_at, how_of};
use cohom_edge::{LineReader, Sink, SinkFault, Source, write_whole};
use facet_reader::{ReadRefusal, Request, read_request};
use memory::Memory;
use reply_text::{Reply, reply_bytes};
use session_core::{How, Looks, SessionEnd};
use std::alloc::Global;

/// Reads the source line by line, and answers each line before it reads on, until there is no further
/// line, or a line is `quit`. A line is one of the caller that it names, or else of caller 0.
///
/// Where the source tells its bytes and the sink what it holds: the sink holds after what it held
/// before and the transcript of the bytes; after a fault of the source the replies to all whole lines
/// that were read before; and after a fault of the sink or want of memory the replies to all lines
/// that were given, or to all but the last and a beginning of the last reply. A count of faults that
/// rose is told: the source's stands where the end is not `ReadFault`, and the sink's where it is not
/// `WriteFault`.
pub fn run_script<S: Source, K: Sink>(alloc: Global, source: &mut S, sink: &mut K) -> SessionEnd
    ensures transcript { IfSome (S.left source.old) (λ b. Answers b (S.left source.new) (K.held sink.old) (K.held sink.new) result) }
    ensures read_fault { result.how ≡ How.ReadFault → Rose (S.faults source.old) (S.faults source.new) }
    ensures write_fault { result.how ≡ How.WriteFault → Rose (K.faults sink.old) (K.faults sink.new) }
    ensures read_calm { result.how ≢ How.ReadFault → S.faults source.new ≡ S.faults source.old }
    ensures write_calm { result.how ≢ How.WriteFault → K.faults sink.new ≡ K.faults sink.old }
{
    match begun(alloc) {
        Ok((mut reader, callers)) => answer_lines(alloc, &mut reader, callers, source, sink),
        Err(Memory) => SessionEnd {
            how: How::Memory,
            looks: Looks::new(alloc),
            lines: 0,
        },
    }
}

/// A reader that has read nothing, and callers that have seen nothing.
fn begun(alloc: Global) -> Result<(LineReader, Callers), Memory>
    ensures reader { IfOk result (λ r. r.0 ≡ record { buffered = []; line = []; given = 0; stopped = None }) }
    ensures callers { IfOk result (λ r. r.1 ≡ start) }
{
    Ok((LineReader::new(alloc)?, Callers::new(alloc)?))
}

/// Answers the lines of the source, from the start.
fn answer_lines<S: Source, K: Sink>(
    alloc: Global,
    reader: &mut LineReader,
    mut callers: Callers,
    source: &mut S,
    sink: &mut K,
) -> SessionEnd
    requires reader { reader.old ≡ record { buffered = []; line = []; given = 0; stopped = None } }
    requires callers { callers ≡ start }
    ensures transcript { IfSome (S.left source.old) (λ b. Answers b (S.left source.new) (K.held sink.old) (K.held sink.new) result) }
    ensures read_fault { result.how ≡ How.ReadFault → Rose (S.faults source.old) (S.faults source.new) }
    ensures write_fault { result.how ≡ How.WriteFault → Rose (K.faults sink.old) (K.faults sink.new) }
    ensures read_calm { result.how ≢ How.ReadFault → S.faults source.new ≡ S.faults source.old }
    ensures write_calm { result.how ≢ How.WriteFault → K.faults sink.new ≡ K.faults sink.old }
{
    let mut looks = Looks::new(alloc);
    let mut out = Vec::new(alloc);
    'lines: loop {
        if let Some(how) = end_at(reader.next_line(source)) {
            return end(how, looks, reader);
        }
        match answer_line(
            alloc,
            &mut callers,
            &mut looks,
            reader.line(),
            &mut out,
            sink,
        ) {
            Ok(false) => {}
            Ok(true) => return end(How::Quit, looks, reader),
            Err(fault) => return end(how_of(fault), looks, reader),
        }
    }
}

/// The end after the lines that were read.
fn end(how: How, looks: Looks, reader: &LineReader) -> SessionEnd
    ensures how { result.how ≡ how }
    ensures looks { result.looks ≡ looks }
    ensures lines { result.lines ≡ reader.now.given }
{
    SessionEnd {
        how,
        looks,
        lines: reader.lines(),
    }
}

/// Answers one line: its step, the text of the reply, and its bytes in one piece. Answers whether the line
/// is `quit`. After a fault the callers are not used again.
fn answer_line<K: Sink>(
    alloc: Global,
    callers: &mut Callers,
    looks: &mut Looks,
    line: &[u8],
    out: &mut Vec<u8>,
    sink: &mut K,
) -> Result<bool, SinkFault>
    requires short { length line.now ≤ 1048575 }
    requires few { length looks.old.lengths < 1000000 }
    ensures whole { OnOk result (Appends (K.held sink.old) (K.held sink.new) (text (reply_to_line callers.old line.now))) }
    ensures after { OnOk result (callers.new ≡ after_line callers.old line.now) }
    ensures looked { OnOk result (looks.new.lengths ≡ looks.old.lengths ++ looks_of_line callers.old line.now) }
    ensures quit { IfOk result (λ quit. quit ≡ is_quit (reply_to_line callers.old line.now)) }
    ensures part { IfErr result (λ fault. Sent fault (K.held sink.old) (K.held sink.new) (text (reply_to_line callers.old line.now))) }
    ensures cause { IfErr result (λ fault. Excuses fault (K.faults sink.old) (K.faults sink.new)) }
    ensures calm { OnOk result (K.faults sink.new ≡ K.faults sink.old) }
{
    out.clear();
    let reply = step_line(alloc, callers, looks, line)?;
    reply_bytes(out, &reply)?;
    write_whole(sink, out.as_slice())?;
    Ok(reply.is_quit())
}

/// Reads one line, and takes its step. After want of memory the callers are not used again.
fn step_line(
    alloc: Global,
    callers: &mut Callers,
    looks: &mut Looks,
    line: &[u8],
) -> Result<Reply, Memory>
    requires short { length line.now ≤ 1048575 }
    requires few { length looks.old.lengths < 1000000 }
    ensures reply { IfOk result (λ r. reply_of r ≡ reply_to_line callers.old line.now) }
    ensures after { OnOk result (callers.new ≡ after_line callers.old line.now) }
    ensures looked { OnOk result (looks.new.lengths ≡ looks.old.lengths ++ looks_of_line callers.old line.now) }
{
    match read_request(alloc, line) {
        Ok(asked) => {
            if has_look(&asked.request) {
                looks.reserve()?;
                looks.add(callers.entries());
            }
            callers.step(asked.caller.unwrap_or(0), &asked.request)
        }
        Err(ReadRefusal::Bad(bad)) => Ok(Reply::Bad(bad)),
        Err(ReadRefusal::Memory) => Err(Memory),
    }
}

/// Whether a request looks at the line.
fn has_look(request: &Request) -> bool
    ensures { result ≡ looks (request_meant request.now) }
{
    matches!(
        request,
        Request::Attach(_)
            | Request::Facet(_)
            | Request::Cut
            | Request::Back(_)
            | Request::See
            | Request::After(_)
    )
}
