//! Where a reader stands in an input.

use ha_base::Moment;

/// Where the next line stands.
#[derive(Clone, Copy)]
pub struct Place {
    /// The line, counted from 1.
    pub line: u32,
    /// How many octets stand before it.
    pub before: usize,
    /// How many events stand before it.
    pub count: u32,
    /// The moment of the last of them, or 0.
    pub last: Moment,
}
