//! What is wrong with a line.

ghost use Rattle.std.specs.Prelude.{◌≡◌, MatchResult};
ghost use Rattle.line_fields.specs.Faults.{reason_name};
ghost use Rattle.line_fields.specs.Fields.{fault_at};

use thiserror::Error;

/// Why a line is refused.
#[derive(Clone, Copy, Debug, PartialEq, Eq)]
pub enum LineReason {
    /// None of the words that may stand there.
    Word = 1,
    /// No decimal number without leading zeros, or one out of the field's range.
    Number = 2,
    /// No lower-case hexadecimal of whole octets, or no prefix of an identity that may stand there.
    Hex = 3,
    /// The line ends where a word has to stand.
    Missing = 4,
    /// A word stands behind the event's last field.
    Extra = 5,
    /// The line's 16,385th octet.
    LineTooLong = 6,
    /// A moment before the one of the event before.
    ClockBack = 7,
    /// The 100,001st event or message.
    TooMany = 8,
    /// The file's 67,108,865th octet.
    FileTooLong = 9,
    /// Octets of a wrong number.
    Size = 10,
}

impl LineReason {
    /// The reason in one word.
    pub fn name(self) -> &'static str
        ensures { result.now ≡ reason_name self }
    {
        match self {
            LineReason::Word => "word",
            LineReason::Number => "number",
            LineReason::Hex => "hex",
            LineReason::Missing => "missing",
            LineReason::Extra => "extra",
            LineReason::LineTooLong => "line-too-long",
            LineReason::ClockBack => "clock-back",
            LineReason::TooMany => "too-many",
            LineReason::FileTooLong => "file-too-long",
            LineReason::Size => "size",
        }
    }
}

/// The first fault of a line, from left to right.
#[derive(Clone, Copy, Debug, PartialEq, Eq, Error)]
#[error("column {column}: {reason:?}")]
pub struct LineFault {
    /// The place of the faulty word's first octet, counted from 1.
    pub column: u32,
    pub reason: LineReason,
}

/// What a word's reader answered, or the fault at the word's column.
pub fn at<T>(column: u32, read: Result<T, LineReason>) -> Result<T, LineFault>
    ensures { MatchResult read (λ x. result ≡ Ok x) (λ r. result ≡ Err (fault_at column r)) }
{
    match read {
        Ok(value) => Ok(value),
        Err(reason) => Err(LineFault { column, reason }),
    }
}
