/// Why a keeper did not do what it was asked.
#[derive(Clone, Copy, Debug, PartialEq, Eq)]
pub enum KeeperFault {
    /// The call failed. What it asked for is in the book, or it is not.
    Failed,
    /// Another epoch of the association has begun: the epoch in the book.
    Replaced(u64),
    /// There is no such association, or no such counter.
    Unknown,
    /// The association is closed.
    Closed,
    /// The ticket was spent before.
    Spent,
    /// A limit is reached: the limit.
    Full(u64),
    /// An association has this SPI already.
    SpiInUse,
    /// Want of memory.
    Memory,
}
