/// A fault of a source or of a sink: a read or a write did not happen.
#[derive(Clone, Copy, Debug, PartialEq, Eq)]
pub struct Failed;

/// Want of memory: a growth was refused.
#[derive(Clone, Copy, Debug, PartialEq, Eq)]
pub struct Memory;

/// A point in time, in seconds.
#[derive(Clone, Copy, Debug, PartialEq, Eq)]
pub struct Moment(pub u64);
