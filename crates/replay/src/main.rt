//! The command `replay`: with `run` it plays an event file from standard input, and writes the
//! report to standard output; with `show` it reads IKE messages, and writes what each says.
#![tactic(auto)]

use ha_base::{Service, StdSink, StdSource, TallyService, are_fresh};
use keeper_book::MemoryKeeper;
use replay_world::top::{Status, replay};
use std::alloc::AllocError;
use std::env;
use std::io::ErrorKind;
use std::process::ExitCode;

/// How many members a run has services for.
const MEMBERS: usize = 64;

// The words of the command line. Words that can't be read for another cause than memory are taken
// as no words.
fn words(rt: &HostRuntime) -> Result<Vec<String>, AllocError> {
    let mut words = Vec::new(rt.alloc());
    let args = match env::args(rt) {
        Ok(args) => args,
        Err(error) if error.kind() == ErrorKind::OutOfMemory => return Err(AllocError),
        Err(_) => return Ok(words),
    };
    for word in args.skip(1) {
        words.push(word)?;
    }
    Ok(words)
}

fn run(rt: &HostRuntime) -> Result<Status, AllocError> {
    let alloc = rt.alloc();
    let words = words(rt)?;
    let mut services: Vec<Box<dyn Service>> = Vec::with_capacity(alloc, MEMBERS)?;
    for _ in 0..MEMBERS {
        services.push(Box::new(alloc, TallyService::new())?)?;
    }
    let peer_service: Box<dyn Service> = Box::new(alloc, TallyService::new())?;
    if !are_fresh(&services) {
        return Ok(Status::Memory);
    }
    let mut source = StdSource::new(rt.reader());
    let mut out = StdSink::new(rt.stdout());
    let mut diag = StdSink::new(rt.stderr());
    let mut keeper = MemoryKeeper::new(alloc);
    Ok(replay(
        alloc,
        &words,
        &mut source,
        &mut out,
        &mut diag,
        &mut keeper,
        peer_service,
        services,
    ))
}

fn main(rt: HostRuntime) -> ExitCode {
    let status = run(&rt).unwrap_or(Status::Memory);
    ExitCode::from(status.exit_code())
}
