//! Copies the standard input to the standard output. It shows that bytes come whole through the adapters over std, of which
//! no contract can say so: its stored run has more than two pieces, with every byte from 0 to 255.
#![tactic(auto)]

mod copy;

use copy::{CopyError, copy};
use disk_model::{StdSink, StdSource};
use std::process::ExitCode;

const READ_FAULT: u8 = 3;

const WRITE_FAULT: u8 = 4;

fn main(rt: HostRuntime) -> ExitCode {
    let mut input = StdSource::new(rt.stdin());
    let mut output = StdSink::output(rt.stdout());
    ExitCode::from(match copy(&mut input, &mut output) {
        Ok(()) => 0,
        Err(CopyError::Read) => READ_FAULT,
        Err(CopyError::Write) => WRITE_FAULT,
    })
}
