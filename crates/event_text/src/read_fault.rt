//! Why an event was not read.

ghost use Rattle.std.specs.Prelude.{◌≡◌};
ghost use Rattle.event_text.specs.declared.read_fault.ReadFault.TheVariants as faults;

use ha_base::Memory;
use input_lines::InputFault;
use line_fields::LineFault;

/// Why a line was not read.
#[derive(Drop)]
pub enum ReadFault {
    /// Memory ran out while the line was read, which says nothing of the line.
    Memory,
    /// The line is faulty there.
    Line(LineFault),
}

impl From<Memory> for ReadFault {
    ghost from_gives = { λ _ e. e ≡ faults.Memory };

    fn from(_e: Memory) -> ReadFault {
        ReadFault::Memory
    }
}

impl From<LineFault> for ReadFault {
    ghost from_gives = { λ fault e. e ≡ faults.Line fault };

    fn from(fault: LineFault) -> ReadFault {
        ReadFault::Line(fault)
    }
}

/// Why an input gave no event.
#[derive(Drop)]
pub enum EventFault {
    /// Memory ran out while a line was read, which says nothing of the input.
    Memory,
    /// The input is faulty there.
    Input(InputFault),
}

/// Why no line of an event file was taken that comes in pieces.
#[derive(Drop)]
pub enum TakeFault {
    /// Memory ran out while a line was read, which says nothing of the file.
    Memory,
    /// The file is faulty there.
    Input(InputFault),
    /// The source of the file failed.
    Source,
}
