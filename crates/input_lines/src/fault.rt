//! The first fault of an input, and its line.

ghost use Rattle.std.specs.Prelude.{◌≡◌, ◌++◌, OnOk};
ghost use Rattle.input_lines.specs.Faults.{fault_line};

use ha_base::{Memory, Octets};
use line_fields::LineReason;
use std::alloc::Global;
use word_text::put_bare_number;

/// The first fault of an input, from its beginning.
#[derive(Clone, Copy)]
pub struct InputFault {
    /// The faulty line, counted from 1.
    pub line: u32,
    /// The place of the fault in the line, counted from 1.
    pub column: u32,
    pub reason: LineReason,
}

/// Appends the line that says where an input is faulty, and why. After an error some of it may be
/// appended.
pub fn write_fault(alloc: Global, fault: InputFault, out: &mut Octets) -> Result<(), Memory>
    ensures ok { OnOk result (out.new.octets ≡ out.old.octets ++ fault_line fault) }
{
    out.extend(b"ha: line ")?;
    put_bare_number(alloc, out, u64::from(fault.line))?;
    out.extend(b", column ")?;
    put_bare_number(alloc, out, u64::from(fault.column))?;
    out.extend(b": ")?;
    out.extend(fault.reason.name().as_bytes())?;
    out.extend(b"\n")
}
