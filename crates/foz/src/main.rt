//! The program `foz`: it hands the standard streams, the files of the system, the slots for workers, the driver that checks
//! states and its words to `foz_tool::run`.
#![tactic(auto)]

mod worker;

use disk_model::{FolderShelf, StdSink, StdSource};
use driver_check::CheckDriver;
use foz_tool::{Host, run};
use process_slot::crew_of;
use std::env;
use std::process::ExitCode;

/// The status where the words can't be had.
const USAGE: u8 = 2;

/// The status where there is no memory for them, or for the slots.
const MEMORY: u8 = 7;

/// How many workers run at most.
const WORKERS: usize = 16;

fn main(rt: HostRuntime) -> ExitCode {
    let alloc = rt.alloc();
    let Ok(arguments) = env::args(&rt) else {
        return ExitCode::from(USAGE);
    };
    let mut words = Vec::new(alloc);
    for word in arguments.skip(1) {
        if words.push(word).is_err() {
            return ExitCode::from(MEMORY);
        }
    }
    let Ok(worker) = worker::program(&rt) else {
        return ExitCode::from(MEMORY);
    };
    let Ok(crew) = crew_of(alloc, &rt, worker.as_str(), WORKERS) else {
        return ExitCode::from(MEMORY);
    };
    let mut host = Host {
        input: StdSource::new(rt.stdin()),
        output: StdSink::output(rt.stdout()),
        errors: StdSink::errors(rt.stderr()),
        files: FolderShelf::new(rt),
        crew,
        driver: CheckDriver::new(alloc),
    };
    ExitCode::from(run(&rt, alloc, words.as_slice(), &mut host))
}
