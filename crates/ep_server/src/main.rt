//! The program: one session over standard input, standard output and the system's clock.
#![tactic(auto)]

mod command;

use command::{exit_code, run, unread_words, words_behind_name};
use ep_edge::{ReaderSource, SystemClock, WriterSink};
use std::env;
use std::process::ExitCode;

/// Takes frames from standard input and writes their answers to standard output. How that ended is a line on
/// standard error, and the status.
fn main(rt: HostRuntime) -> ExitCode {
    let words = match env::args(&rt) {
        Ok(args) => words_behind_name(rt.alloc(), args),
        Err(error) => Err(unread_words(&error)),
    };
    let mut source = ReaderSource::new(rt.stdin());
    let mut sink = WriterSink::new(rt.stdout());
    let mut clock = SystemClock::new(&rt);
    let end = run(rt.alloc(), words, &mut source, &mut sink, &mut clock);

    // Where standard error takes no line, the status alone tells the end.
    let _ = rt.eprintln(end);
    exit_code(end)
}
