//! The whole program, from its words to its status.
ghost use Rattle.std.specs.Prelude.{◌≡◌, ◌≢◌, ◌↔◌, IfSome};
ghost use Rattle.cohom_edge.specs.Faults.{Rose};
ghost use Rattle.cohom_main.specs.Words.{IsScript, IsStatus, StatusAnswers, status_of};

use crate::script::run_script;
use cohom_edge::{Sink, Source};
use session_core::How;
use std::alloc::Global;

/// Runs the program with these words, and answers its status:
///
/// | status | comes |
/// |---|---|
/// | 0 | the input was read to its end, or a line was `quit`, and all replies were written |
/// | 1 | the words are not the one word `script`; nothing was read or written |
/// | 2 | the source failed |
/// | 3 | the sink failed |
/// | 5 | no memory was left |
/// | 6 | a line has more than 1,048,575 bytes before its line feed; all replies before it were written |
/// | 7 | there are more than 1,000,000 lines; the replies to as many were written |
///
/// The source's count of faults rose only with status 2, and the sink's only with status 3.
pub fn run<S: Source, K: Sink>(alloc: Global, words: &[String], source: &mut S, sink: &mut K) -> u8
    ensures usage { (result ≡ 1) ↔ (¬ (IsScript words.now)) }
    ensures untouched { result ≡ 1 → (source.new ≡ source.old) × (sink.new ≡ sink.old) }
    ensures script { IsScript words.now → IfSome (S.left source.old) (λ b. StatusAnswers b (S.left source.new) (K.held sink.old) (K.held sink.new) result) }
    ensures statuses { IsStatus result }
    ensures read_fault { result ≡ 2 → Rose (S.faults source.old) (S.faults source.new) }
    ensures write_fault { result ≡ 3 → Rose (K.faults sink.old) (K.faults sink.new) }
    ensures read_calm { result ≢ 2 → S.faults source.new ≡ S.faults source.old }
    ensures write_calm { result ≢ 3 → K.faults sink.new ≡ K.faults sink.old }
{
    match words {
        [word] if word.as_str() == "script" => status(run_script(alloc, source, sink).how),
        _ => 1,
    }
}

/// The status at an end.
fn status(how: How) -> u8
    ensures { result ≡ status_of how }
{
    match how {
        How::Input | How::Quit => 0,
        How::ReadFault => 2,
        How::WriteFault => 3,
        How::Memory => 5,
        How::LongLine => 6,
        How::Spent => 7,
    }
}
