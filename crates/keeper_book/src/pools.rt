ghost use Rattle.std.specs.Prelude.{◌≡◌};
ghost use Rattle.keeper_book.specs.Pools.{pool_number, pool_end, with_number};

/// The first number of each pool.
pub const FIRST_POOL_NUMBER: u64 = 1;

/// No number under a ticket key reaches this one.
pub const TICKET_NUMBERS_END: u64 = 1 << 32;

/// No number of a nonce reaches this one. A number of a nonce is the responder's SPI of what is
/// resumed, and 256 more than it the SPI at which the cluster receives in it, so that it stays below
/// those of imports.
pub const NONCE_NUMBERS_END: u64 = 65_280;

/// The numbers that members draw from ranges that they lease.
#[derive(Clone, Copy, Debug, PartialEq, Eq)]
pub enum Pool {
    /// Those under a ticket key, of whatever generation.
    Ticket,
    /// Those in the nonces of resumptions.
    Nonce,
}

/// The next number of each pool.
#[derive(Clone, Copy, Debug, PartialEq, Eq)]
pub struct PoolNumbers {
    pub ticket: u64,
    pub nonce: u64,
}

impl Pool {
    /// No number of the pool reaches this one.
    pub fn end(self) -> u64
        ensures { result ≡ pool_end self }
    {
        match self {
            Pool::Ticket => TICKET_NUMBERS_END,
            Pool::Nonce => NONCE_NUMBERS_END,
        }
    }
}

impl PoolNumbers {
    /// The next number of a pool.
    pub fn at(&self, pool: Pool) -> u64
        ensures { result ≡ pool_number pool self.now }
    {
        match pool {
            Pool::Ticket => self.ticket,
            Pool::Nonce => self.nonce,
        }
    }

    /// Sets the next number of a pool.
    pub fn set(&mut self, pool: Pool, number: u64)
        ensures { self.new ≡ with_number pool number self.old }
    {
        match pool {
            Pool::Ticket => self.ticket = number,
            Pool::Nonce => self.nonce = number,
        }
    }
}
