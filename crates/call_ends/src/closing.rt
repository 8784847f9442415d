//! What is said of the end of a call on the error output.

ghost use Rattle.std.specs.Prelude.{◌≡◌, codes};
ghost use Rattle.call_ends.specs.Closing.{Names};
ghost use Rattle.call_ends.specs.Outside.{SaysLine, sink_told};

use crate::status::Status;
use ha_base::{Failed, Octets, Sink, write_all};
use input_lines::{InputFault, write_fault};
use std::alloc::Global;

/// Says why a call ends: the line is written whole, or a front of it before a fault of the error
/// output. The call ends so all the same.
pub fn complain<D: Sink>(diag: &mut D, line: &[u8], status: Status) -> Status
    ensures status { result ≡ status }
    ensures says { SaysLine line.now (sink_told D.Sink diag.old) (sink_told D.Sink diag.new) }
{
    let _ = write_all(diag, line);
    status
}

/// Says where the input is faulty, and why.
pub fn name_line<D: Sink>(alloc: Global, diag: &mut D, fault: InputFault) -> Status
    ensures names { Names fault (sink_told D.Sink diag.old) (sink_told D.Sink diag.new) result }
{
    let mut text = Octets::new(alloc);
    if write_fault(alloc, fault, &mut text).is_err() {
        return complain(diag, b"ha: want of memory\n", Status::Memory);
    }
    match write_all(diag, text.as_slice()) {
        Ok(()) => Status::FaultyLine,
        Err(Failed) => Status::WriteFault,
    }
}
