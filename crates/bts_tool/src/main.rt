//! `bts run FILE [--limit N]`: does the session that standard input holds, and reports it on standard output.
#![tactic(auto)]

mod cause;
mod process;
mod session;
mod streams;
mod tail;
#[cfg(test)]
mod tests;
mod top_call;
mod words;

use bts_names::NoMemory;
use process::{behind_first, exit_code};
use std::alloc::Global;
use std::env;
use std::io::ErrorKind;
use std::process::ExitCode;
use streams::{ReaderSource, WriterSink};
use top_call::{bts_command, tell_no_memory};

/// The words of the command line. Where one of them is no text, or they can't be had, there are none, and
/// no words are wrong words.
fn words_of(rt: &HostRuntime, alloc: Global) -> Result<Vec<String>, NoMemory> {
    match env::args(rt) {
        Ok(arguments) => behind_first(alloc, arguments),
        Err(error) if error.kind() == ErrorKind::OutOfMemory => Err(NoMemory),
        Err(_) => Ok(Vec::new(alloc)),
    }
}

fn main(rt: HostRuntime) -> ExitCode {
    let alloc = rt.alloc();
    let mut source = ReaderSource::new(rt.stdin());
    let mut sink = WriterSink::new(rt.stdout());
    let outcome = match words_of(&rt, alloc) {
        Ok(words) => bts_command(alloc, &words, &mut source, &mut sink),
        Err(_) => tell_no_memory(&mut sink),
    };
    exit_code(&outcome)
}
