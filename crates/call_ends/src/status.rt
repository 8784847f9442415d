//! How a call ends.

ghost use Rattle.std.specs.Prelude.{◌≡◌};
ghost use Rattle.call_ends.specs.Statuses.{exit_code};

/// How a call ends.
#[derive(Clone, Copy, Debug, PartialEq, Eq)]
pub enum Status {
    /// The input was read to its end, and the whole output was written.
    Done,
    /// A line is faulty, or a limit of lines is reached.
    FaultyLine,
    /// The words are no command.
    Words,
    /// Want of memory.
    Memory,
    /// The input could not be read.
    ReadFault,
    /// The output, or a line on the error output, could not be written.
    WriteFault,
}

impl Status {
    /// The number that the process ends with, from 0 to 5.
    pub fn exit_code(self) -> u8
        ensures { result ≡ exit_code self }
    {
        match self {
            Status::Done => 0,
            Status::FaultyLine => 1,
            Status::Words => 2,
            Status::Memory => 3,
            Status::ReadFault => 4,
            Status::WriteFault => 5,
        }
    }
}
