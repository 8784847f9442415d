//! One run of the top call over streams in memory.

ghost use Rattle.std.specs.Prelude.{◌≡◌};
ghost use Rattle.std.specs.List.{AllByRecursion};

use crate::services::EchoService;
use anyhow::bail;
use ha_base::{MemorySink, MemorySource, Octets, Service, TallyService, are_fresh};
use keeper_book::MemoryKeeper;
use replay_world::top::{Status, replay};
use std::alloc::Global;

/// How many members a run has services for.
const MEMBERS: usize = 64;

/// The most octets that a run writes here.
const ROOM: usize = 1 << 20;

/// What is done with an input.
#[derive(Clone, Copy, Debug, PartialEq, Eq)]
pub enum Task {
    /// It is played, with services that reply with their counts.
    Play,
    /// It is played, with services that echo.
    PlayEchoes,
    /// It is shown.
    Show,
}

impl Task {
    // The word of the command line that asks for it.
    fn word(self) -> &'static str {
        match self {
            Task::Play | Task::PlayEchoes => "run",
            Task::Show => "show",
        }
    }
}

/// Which call of which stream fails, counted from 0.
#[derive(Clone, Copy, Debug, PartialEq, Eq)]
pub enum Failing {
    Nothing,
    Read(u8),
    Write(u8),
    Diagnosis(u8),
}

impl Failing {
    fn of_source(self) -> Option<u8> {
        match self {
            Failing::Read(call) => Some(call),
            _ => None,
        }
    }

    fn of_out(self) -> Option<u8> {
        match self {
            Failing::Write(call) => Some(call),
            _ => None,
        }
    }

    fn of_diag(self) -> Option<u8> {
        match self {
            Failing::Diagnosis(call) => Some(call),
            _ => None,
        }
    }
}

// Octets of a text, or of a call that fails.
fn octets(alloc: Global, text: &[u8]) -> anyhow::Result<Octets> {
    let mut octets = Octets::new(alloc);
    if octets.extend(text).is_err() {
        bail!("want of memory");
    }
    Ok(octets)
}

fn plan(alloc: Global, call: Option<u8>) -> anyhow::Result<Octets> {
    match call {
        Some(call) => octets(alloc, &[call]),
        None => Ok(Octets::new(alloc)),
    }
}

fn source(
    alloc: Global,
    input: &str,
    piece: usize,
    call: Option<u8>,
) -> anyhow::Result<MemorySource> {
    let input = octets(alloc, input.as_bytes())?;
    let plan = plan(alloc, call)?;
    Ok(MemorySource::new(input, piece.max(1), plan))
}

fn sink(alloc: Global, piece: usize, call: Option<u8>) -> anyhow::Result<MemorySink> {
    let plan = plan(alloc, call)?;
    match MemorySink::new(alloc, ROOM, piece.max(1), plan) {
        Ok(sink) => Ok(sink),
        Err(_) => bail!("want of memory"),
    }
}

/// The streams of a run.
#[derive(Drop)]
struct Streams {
    source: MemorySource,
    out: MemorySink,
    diag: MemorySink,
}

// Calls the top call with the word of a task, and with a keeper of its own.
fn call(
    alloc: Global,
    task: Task,
    streams: &mut Streams,
    peer_service: Box<dyn Service>,
    services: Vec<Box<dyn Service>>,
) -> anyhow::Result<Status>
    requires peer { count peer_service ≡ 0 }
    requires services { AllByRecursion (λ service. count service ≡ 0) services.items }
{
    let mut words = Vec::new(alloc);
    words.push(String::from_str(alloc, task.word())?)?;
    let mut keeper = MemoryKeeper::new(alloc);
    Ok(replay(
        alloc,
        &words,
        &mut streams.source,
        &mut streams.out,
        &mut streams.diag,
        &mut keeper,
        peer_service,
        services,
    ))
}

// The same, with services of its own.
fn call_served(alloc: Global, task: Task, streams: &mut Streams) -> anyhow::Result<Status> {
    let echoes = task == Task::PlayEchoes;
    let mut services: Vec<Box<dyn Service>> = Vec::with_capacity(alloc, MEMBERS)?;
    for _ in 0..MEMBERS {
        if echoes {
            services.push(Box::new(alloc, EchoService::new())?)?;
        } else {
            services.push(Box::new(alloc, TallyService::new())?)?;
        }
    }
    if !are_fresh(&services) {
        bail!("a service is not new");
    }
    if echoes {
        let peer_service = Box::new(alloc, EchoService::new())?;
        return call(alloc, task, streams, peer_service, services);
    }
    let peer_service = Box::new(alloc, TallyService::new())?;
    call(alloc, task, streams, peer_service, services)
}

/// How a run ended, and what it wrote.
#[derive(Drop)]
pub struct Outcome {
    pub status: Status,
    out: MemorySink,
    diag: MemorySink,
}

impl Outcome {
    /// What stands on the output.
    pub fn written(&self) -> &[u8] {
        self.out.written()
    }

    /// What stands on the error output.
    pub fn said(&self) -> &[u8] {
        self.diag.written()
    }
}

/// Does a task with an input in pieces.
pub fn perform(
    alloc: Global,
    task: Task,
    input: &str,
    piece: usize,
    failing: Failing,
) -> anyhow::Result<Outcome> {
    let mut streams = Streams {
        source: source(alloc, input, piece, failing.of_source())?,
        out: sink(alloc, piece, failing.of_out())?,
        diag: sink(alloc, piece, failing.of_diag())?,
    };
    let status = call_served(alloc, task, &mut streams)?;
    Ok(Outcome {
        status,
        out: streams.out,
        diag: streams.diag,
    })
}
