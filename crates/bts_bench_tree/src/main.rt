//! `bts_bench_tree ACTIVITIES PROCESSES ROUNDS` copies one process of a repository, compares the copy and puts it back.
//!
//! The process has so many activities, and the repository so many processes. Its output tells what was done, and no
//! times: who measures runs it with more rounds and with none.
#![tactic(auto)]

mod fault;
mod growth;
mod names;
mod rounds;
mod size;

use fault::Fault;
use growth::repository_of;
use names::key_numbered;
use rounds::play;
use size::Size;
use std::env;
use std::process::ExitCode;

fn size_of_words(rt: &HostRuntime) -> Result<Size, Fault> {
    let arguments = env::args(rt).map_err(|_| Fault::Words)?;
    let words: Vec<String> = arguments.skip(1).collect(rt.alloc())?;
    Size::read(&words)
}

fn bench(rt: &HostRuntime) -> Result<(), Fault> {
    let alloc = rt.alloc();
    let size = size_of_words(rt)?;
    let mut repo = repository_of(alloc, &size)?;
    let key = key_numbered(alloc, 0)?;
    let done = play(alloc, &mut repo, &key, size.rounds)?;
    let Size {
        activities,
        processes,
        rounds,
    } = size;
    println!(rt; "{activities} activities, {processes} processes, {rounds} rounds: {done}").map_err(
        |_| Fault::Output,
    )
}

fn main(rt: HostRuntime) -> ExitCode {
    match bench(&rt) {
        Ok(()) => ExitCode::SUCCESS,
        Err(fault) => {
            let _ = eprintln!(rt; "bts_bench_tree: {fault}");
            ExitCode::FAILURE
        }
    }
}
