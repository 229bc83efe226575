//! The program `jtap`: it hands its words and streams to `command`.
#![tactic(auto)]

use iso_arguments::request::words_of;
use iso_arguments::wrong_words::WordsFault;
use iso_run::command::{command, refuse_words};
use iso_tap::output::OutputSink;
use std::io::BufWriter;
use std::process::ExitCode;

fn main(rt: HostRuntime) -> ExitCode {
    let mut errors = OutputSink::new(rt.stderr());
    let words = match words_of(&rt) {
        Ok(words) => words,
        Err(fault) => return ExitCode::from(refuse_words(fault, &mut errors)),
    };
    let Ok(writer) = BufWriter::new(rt.alloc(), rt.stdout()) else {
        return ExitCode::from(refuse_words(WordsFault::OutOfMemory, &mut errors));
    };
    let mut input = rt.stdin();
    let mut output = OutputSink::new(writer);
    ExitCode::from(command(
        &rt,
        &words,
        &mut input,
        &mut output,
        &mut errors,
        rt.stderr(),
    ))
}
