//! `bts_bench_journal WHAT UNITS DATA ROUNDS` encodes, decodes or scans units of work.
//!
//! WHAT is `encode`, `decode` or `scan`, or `all` for these in turn. There are so many units, whose calls put so many
//! bytes of data into containers each, and all of them are gone over so many times. Its output tells what was done,
//! and no times: who measures runs it with more rounds and with none.
#![tactic(auto)]

mod done;
mod fault;
mod made;
mod rounds;
mod sample;
mod size;

use done::Done;
use fault::Fault;
use rounds::{play_decode, play_encode, play_scan};
use size::{Size, Work};
use std::alloc::Global;
use std::env;
use std::process::ExitCode;

fn play(alloc: Global, work: Work, size: &Size) -> Result<Done, Fault> {
    match work {
        Work::Encode => play_encode(alloc, size),
        Work::Decode => play_decode(alloc, size),
        Work::Scan => play_scan(alloc, size),
    }
}

fn bench(rt: &HostRuntime) -> Result<(), Fault> {
    let alloc = rt.alloc();
    let arguments = env::args(rt).map_err(|_| Fault::Words)?;
    let words: Vec<String> = arguments.skip(1).collect(alloc)?;
    let (works, size) = size::read(alloc, &words)?;
    for work in works {
        let done = play(alloc, work, &size)?;
        println!(rt; "{work}, {size}: {done}").map_err(|_| Fault::Output)?;
    }
    Ok(())
}

fn main(rt: HostRuntime) -> ExitCode {
    match bench(&rt) {
        Ok(()) => ExitCode::SUCCESS,
        Err(fault) => {
            let _ = eprintln!(rt; "bts_bench_journal: {fault}");
            ExitCode::FAILURE
        }
    }
}
