//! How a command ends that writes the output of each line before it takes the next.

ghost use Rattle.std.specs.Prelude.{◌≡◌};
ghost use Rattle.call_ends.specs.Outside.{sink_told};
ghost use Rattle.call_ends.specs.Streaming.{Says};
ghost use Rattle.call_ends.specs.declared.streaming.Stop.TheVariants as stop;

use crate::closing::{complain, name_line};
use crate::status::Status;
use ha_base::{Failed, Memory, Sink};
use input_lines::InputFault;
use std::alloc::Global;

/// Why the work on an input breaks off.
#[derive(Clone, Copy, Debug, PartialEq, Eq)]
pub enum Stop {
    /// Want of memory.
    Memory,
    /// The input could not be read.
    ReadFault,
    /// The output could not be written.
    WriteFault,
}

impl From<Memory> for Stop {
    ghost from_gives = { λ _ e. e ≡ stop.Memory };

    fn from(_error: Memory) -> Stop {
        Stop::Memory
    }
}

impl From<Failed> for Stop {
    ghost from_gives = { λ _ e. e ≡ stop.WriteFault };

    fn from(_error: Failed) -> Stop {
        Stop::WriteFault
    }
}

/// Says how the work on an input ended, whose output was written: the line of its first fault, or
/// of what it broke off at. Answers how the call ends.
pub fn say_end<D: Sink>(
    alloc: Global,
    diag: &mut D,
    worked: Result<Option<InputFault>, Stop>,
) -> Status
    ensures says { Says worked (sink_told D.Sink diag.old) (sink_told D.Sink diag.new) result }
    ensures quiet { result ≡ Status.Done → diag.new ≡ diag.old }
{
    match worked {
        Ok(None) => Status::Done,
        Ok(Some(fault)) => name_line(alloc, diag, fault),
        Err(Stop::Memory) => complain(diag, b"ha: want of memory\n", Status::Memory),
        Err(Stop::ReadFault) => complain(diag, b"ha: read fault\n", Status::ReadFault),
        Err(Stop::WriteFault) => complain(diag, b"ha: write fault\n", Status::WriteFault),
    }
}
