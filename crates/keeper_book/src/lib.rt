//! The keeper's book: what a cluster records before it uses it. Its entries, the calls that change
//! them, a keeper in memory, and the gate that records the calls of a turn.
#![tactic(auto)]

mod associations;
mod call_lists;
mod calls;
mod counter_ends;
mod counters;
mod faults;
mod gates;
mod keepers;
mod memory_keepers;
mod pools;
mod records;

pub use call_lists::Calls;
pub use calls::{Call, KeeperAnswer, KeeperAsk};
pub use counters::{Counter, Five};
pub use faults::KeeperFault;
pub use gates::Gate;
pub use keepers::Keeper;
pub use memory_keepers::MemoryKeeper;
pub use pools::{Pool, PoolNumbers};
pub use records::{Record, Taken};

/// The most associations that a book has.
pub const MAX_ASSOCIATIONS: u64 = 1024;

/// The last epoch of an association.
pub const MAX_EPOCHS: u64 = 4096;

/// The most tickets that a book has as spent.
pub const MAX_SPENT_TICKETS: u64 = 65_536;

/// In a resumed association the member that settles it may use all IVs below this: its answer to
/// IKE_AUTH is sealed with the first one.
pub const SETTLED_IV_HIGH: u64 = 64;

/// In a resumed association the request of IKE_AUTH, with Message ID 1, is answered.
pub const SETTLED_ANSWER_HIGH: u64 = 2;
