//! The program: its words, standard input and standard output.
#![tactic(auto)]

use cohom_edge::{StdSink, StdSource};
use cohom_main::run;
use std::io::ErrorKind;
use std::process::ExitCode;
use std::{env, io};

/// The words that the program takes today.
const USAGE: &str = "usage: cohom script";

fn main(rt: HostRuntime) -> ExitCode {
    let status = match words(&rt) {
        Ok(words) => {
            let mut source = StdSource::new(rt.stdin());
            let mut sink = StdSink::new(rt.stdout());
            run(rt.alloc(), words.as_slice(), &mut source, &mut sink)
        }
        Err(error) if error.kind() == ErrorKind::OutOfMemory => 5,
        Err(_) => 1,
    };
    if status == 1 {
        let _ = eprintln!(rt; "{USAGE}");
    }
    ExitCode::from(status)
}

/// The words after the program's name.
fn words(rt: &HostRuntime) -> io::Result<Vec<String>> {
    let mut words = Vec::new(rt.alloc());
    for word in env::args(rt)?.skip(1) {
        words.push(word)?;
    }
    Ok(words)
}
