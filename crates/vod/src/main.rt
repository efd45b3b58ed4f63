//! vod, VCD on demand: the waveform of one window of a simulation, when it is asked for.
#![tactic(auto)]

use std::alloc::AllocError;
use std::process::ExitCode;
use std::{env, io};
use vod_io::{StdSink, StdSource};
use vod_program::{Fault, Status, report, run};

/// The words behind the program's name; none where one isn't UTF-8.
fn words(rt: HostRuntime) -> Result<Vec<String>, AllocError> {
    match env::args(&rt) {
        Ok(args) => args.skip(1).collect(rt.alloc()),
        Err(fault) if fault.kind() == io::ErrorKind::OutOfMemory => Err(AllocError),
        Err(_) => Ok(Vec::new(rt.alloc())),
    }
}

fn status(rt: HostRuntime) -> Status {
    match words(rt) {
        Ok(words) => run(rt.alloc(), rt, words.as_slice(), &mut StdSource::new(rt)),
        Err(AllocError) => report(Fault::Memory, &mut StdSink::new(rt, true)),
    }
}

fn main(rt: HostRuntime) -> ExitCode {
    ExitCode::from(status(rt).code())
}
