//! How long a line and an input may be.

ghost use Rattle.ha_base.specs.declared.limits.TheConstants.{ALLOCATION_END, INPUT_OCTETS};
ghost use Rattle.std.specs.Prelude.{◌≡◌, ◌≤◌, ◌<◌};
ghost use Rattle.input_lines.specs.Limits.{overlong};

use ha_base::{INPUT_OCTETS, LINE_OCTETS};
use line_fields::{LineFault, LineReason};

/// The fault of a line that is too long, or that passes the end that an input may have: `before`
/// octets stand before the line, which has `octets` with its line feed and `size` without.
pub fn overlong(before: usize, octets: usize, size: usize) -> Option<LineFault>
    requires file { before ≤ INPUT_OCTETS }
    requires line { octets < ALLOCATION_END }
    ensures { result ≡ overlong before octets size }
{
    if size > LINE_OCTETS && before + LINE_OCTETS <= INPUT_OCTETS {
        return Some(LineFault {
            column: LINE_OCTETS as u32 + 1,
            reason: LineReason::LineTooLong,
        });
    }
    if before + octets > INPUT_OCTETS {
        return Some(LineFault {
            column: (INPUT_OCTETS + 1 - before) as u32,
            reason: LineReason::FileTooLong,
        });
    }
    None
}
